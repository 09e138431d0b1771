//! Lines with one value or two, and lists of a line, as they are printed.

ghost use Rattle.std.specs.Fmt.{DisplaysOnOk};
ghost use Rattle.sdp_formats_values.specs.Lists.{both_output, named_output};

use crate::pairs::Pair;
use rtp_wire::{Mid, Ssrc};
use sdp_formats_grammar::{Joined, Text};
use std::fmt;
use std::fmt::Display;

/// Writes a line with a value after its name.
pub fn write_value<W: fmt::Write, T: fmt::Display>(
    f: &mut fmt::Formatter<W>,
    name: &str,
    value: &T,
) -> fmt::Result
    ensures { DisplaysOnOk W.write_str_gives f.old result (named_output name.now (T.Display.output value.now)) f.new }
{
    write!(f, "{name}{value}\r\n")
}

/// Writes a line with two values after its name, a blank between them.
pub fn write_both<W: fmt::Write, A: fmt::Display, B: fmt::Display>(
    f: &mut fmt::Formatter<W>,
    name: &str,
    first: &A,
    second: &B,
) -> fmt::Result
    ensures { DisplaysOnOk W.write_str_gives f.old result
        (both_output name.now (A.Display.output first.now) (B.Display.output second.now)) f.new }
{
    write!(f, "{name}{first} {second}\r\n")
}

/// Restrictions with semicolons between.
#[derive(Drop)]
pub struct Restrictions<'a>(pub &'a [Pair]);

impl fmt::Display for Restrictions<'_> {
    ghost use Rattle.std.specs.Prelude.{Some};
    ghost use Rattle.sdp_formats_values.specs.Lists.{restrictions_text};

    ghost output = { λ p. Some (restrictions_text p.0.now) };

    fn fmt<W: fmt::Write>(&self, f: &mut fmt::Formatter<W>) -> fmt::Result {
        Joined(self.0, ";").fmt(f)
    }
}

/// The restrictions of an `a=rid` line after its payload types: whether there are payload types, and the restrictions.
#[derive(Drop)]
pub struct RidRestrictions<'a>(pub bool, pub &'a [Pair]);

impl fmt::Display for RidRestrictions<'_> {
    ghost use Rattle.std.specs.Prelude.{Some};
    ghost use Rattle.sdp_formats_values.specs.Lists.{rid_restrictions_text};

    ghost output = { λ p. Some (rid_restrictions_text p.0 p.1.now) };

    #[tactic(auto, unfolding(crate::specs::Lists::rid_restrictions_text))]
    fn fmt<W: fmt::Write>(&self, f: &mut fmt::Formatter<W>) -> fmt::Result {
        if self.1.is_empty() {
            return Ok(());
        }
        let restrictions = Restrictions(self.1);
        if self.0 {
            return write!(f, ";{restrictions}");
        }
        write!(f, " {restrictions}")
    }
}

/// Sources with blanks between.
#[derive(Drop)]
pub struct Sources<'a>(pub &'a [Ssrc]);

impl fmt::Display for Sources<'_> {
    ghost use Rattle.std.specs.Prelude.{Some, codes};
    ghost use Rattle.sdp_formats_values.specs.Lists.{numbers_text};

    ghost output = { λ s. Some (numbers_text (codes " ") s.0.now) };

    fn fmt<W: fmt::Write>(&self, f: &mut fmt::Formatter<W>) -> fmt::Result {
        Joined(self.0, " ").fmt(f)
    }
}

/// Names of sections with blanks between.
#[derive(Drop)]
pub struct Mids<'a>(pub &'a [Mid]);

impl fmt::Display for Mids<'_> {
    ghost use Rattle.std.specs.Prelude.{Some};
    ghost use Rattle.sdp_formats_values.specs.Lists.{words_text};

    ghost output = { λ m. Some (words_text m.0.now) };

    fn fmt<W: fmt::Write>(&self, f: &mut fmt::Formatter<W>) -> fmt::Result {
        Joined(self.0, " ").fmt(f)
    }
}

/// Words with blanks between.
#[derive(Drop)]
pub struct Words<'a>(pub &'a [Text]);

impl fmt::Display for Words<'_> {
    ghost use Rattle.std.specs.Prelude.{Some};
    ghost use Rattle.sdp_formats_values.specs.Lists.{words_text};

    ghost output = { λ w. Some (words_text w.0.now) };

    fn fmt<W: fmt::Write>(&self, f: &mut fmt::Formatter<W>) -> fmt::Result {
        Joined(self.0, " ").fmt(f)
    }
}

//! Values to be printed one after the other.

use std::fmt;

/// Values with a text between each two, to be printed: the values, and the text.
#[derive(Drop)]
pub struct Joined<'a, T>(pub &'a [T], pub &'a str);

impl<'a, T: fmt::Display> fmt::Display for Joined<'a, T> {
    ghost use Rattle.std.specs.Prelude.{map};
    ghost use Rattle.sdp_formats_grammar.specs.Joined.{joined_outputs};

    ghost output = { λ j. joined_outputs j.1.now (map T.Display.output j.0.now) };

    fn fmt<W: fmt::Write>(&self, f: &mut fmt::Formatter<W>) -> fmt::Result {
        let separator = self.1;
        let Some((first, rest)) = self.0.split_first() else {
            return Ok(());
        };
        write!(f, "{first}")?;
        let mut left = rest;
        while let Some((item, after)) = left.split_first() {
            write!(f, "{separator}{item}")?;
            left = after;
        }
        Ok(())
    }
}

/// A value that may be there, to be printed after a text: the text, and the value. Nothing is printed if there is
/// no value.
#[derive(Drop)]
pub struct Maybe<'a, T>(pub &'a str, pub &'a Option<T>);

impl<'a, T: fmt::Display> fmt::Display for Maybe<'a, T> {
    ghost use Rattle.std.specs.Option.{option_map};
    ghost use Rattle.sdp_formats_grammar.specs.Joined.{maybe_output};

    ghost output = { λ m. maybe_output m.0.now (option_map T.Display.output m.1.now) };

    fn fmt<W: fmt::Write>(&self, f: &mut fmt::Formatter<W>) -> fmt::Result {
        let before = self.0;
        match self.1 {
            Some(value) => write!(f, "{before}{value}"),
            None => Ok(()),
        }
    }
}

/// The bytes of a digest, to be printed: two upper-case hexadecimal digits each, with colons between (RFC 8122 5).
#[derive(Drop)]
pub struct FingerprintFmt<'a>(pub &'a [u8]);

// A byte in two hexadecimal digits.
#[derive(Drop)]
struct Octet(u8);

impl fmt::Display for Octet {
    ghost use Rattle.std.specs.Prelude.{Some};
    ghost use Rattle.sdp_formats_grammar.specs.Joined.{octet_text};

    ghost output = { λ b. Some (octet_text b.0) };

    fn fmt<W: fmt::Write>(&self, f: &mut fmt::Formatter<W>) -> fmt::Result {
        let high = self.0 / 16;
        let low = self.0 % 16;
        write!(f, "{high:X}{low:X}")
    }
}

impl fmt::Display for FingerprintFmt<'_> {
    ghost use Rattle.std.specs.Prelude.{Some, map, codes};
    ghost use Rattle.sdp_formats_grammar.specs.Joined.{joined, octet_text};

    ghost output = { λ d. Some (joined (codes ":") (map octet_text d.0.now)) };

    fn fmt<W: fmt::Write>(&self, f: &mut fmt::Formatter<W>) -> fmt::Result {
        let Some((first, rest)) = self.0.split_first() else {
            return Ok(());
        };
        let octet = Octet(*first);
        write!(f, "{octet}")?;
        let mut left = rest;
        while let Some((byte, after)) = left.split_first() {
            let octet = Octet(*byte);
            write!(f, ":{octet}")?;
            left = after;
        }
        Ok(())
    }
}

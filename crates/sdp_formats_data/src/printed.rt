//! Format parameters and payload types of a line as they are printed.

use rtp_wire::Pt;
use sdp_formats_grammar::Joined;
use sdp_formats_values::FormatParam;
use std::fmt;
use std::fmt::Display;

/// Format parameters with semicolons between.
#[derive(Drop)]
pub(crate) struct Params<'a>(pub(crate) &'a [FormatParam]);

impl fmt::Display for Params<'_> {
    ghost use Rattle.std.specs.Prelude.{Some};
    ghost use Rattle.sdp_formats_data.specs.PrintedMedia.{params_text};

    ghost output = { λ p. Some (params_text p.0.now) };

    fn fmt<W: fmt::Write>(&self, f: &mut fmt::Formatter<W>) -> fmt::Result {
        Joined(self.0, ";").fmt(f)
    }
}

/// Payload types with a text between each two.
#[derive(Drop)]
pub(crate) struct Types<'a>(pub(crate) &'a [Pt], pub(crate) &'a str);

impl fmt::Display for Types<'_> {
    ghost use Rattle.std.specs.Prelude.{Some};
    ghost use Rattle.sdp_formats_values.specs.Lists.{numbers_text};

    ghost output = { λ p. Some (numbers_text p.1.now p.0.now) };

    fn fmt<W: fmt::Write>(&self, f: &mut fmt::Formatter<W>) -> fmt::Result {
        Joined(self.0, self.1).fmt(f)
    }
}

/// The payload types of an `a=rid` line, ` pt=111,112`; nothing if there is none.
#[derive(Drop)]
pub(crate) struct RidTypes<'a>(pub(crate) &'a [Pt]);

impl fmt::Display for RidTypes<'_> {
    ghost use Rattle.std.specs.Prelude.{Some};
    ghost use Rattle.sdp_formats_values.specs.Lists.{rid_types_text};

    ghost output = { λ p. Some (rid_types_text p.0.now) };

    #[tactic(auto, unfolding(sdp_formats_values::specs::Lists::rid_types_text))]
    fn fmt<W: fmt::Write>(&self, f: &mut fmt::Formatter<W>) -> fmt::Result {
        if self.0.is_empty() {
            return Ok(());
        }
        let types = Types(self.0, ",");
        write!(f, " pt={types}")
    }
}

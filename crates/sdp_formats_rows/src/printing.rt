//! The text of format parameters.

ghost use Rattle.std.specs.Prelude.{◌≡◌};
ghost use Rattle.std.specs.Option.{option_map};
ghost use Rattle.sdp_formats_rows.specs.Texts.{numbers_of};

use crate::format::FormatParams;
use crate::parameters::each_param;
use media_types::{InTable, ProfileTierLevel};
use sdp_formats_values::FormatParam;
use std::fmt;

// A parameter, after a semicolon unless it is the first.
#[derive(Drop)]
struct Part(bool, FormatParam);

impl fmt::Display for Part {
    ghost use Rattle.std.specs.Prelude.{Some};
    ghost use Rattle.sdp_formats_values.specs.PrintedParameters.{param_text};
    ghost use Rattle.sdp_formats_rows.specs.Texts.{part_text};

    ghost output = { λ part. Some (part_text part.0 (param_text part.1)) };

    fn fmt<W: fmt::Write>(&self, f: &mut fmt::Formatter<W>) -> fmt::Result {
        let param = self.1;
        if self.0 {
            return write!(f, "{param}");
        }
        write!(f, ";{param}")
    }
}

/// The parameters that are given as `key=value`, with semicolons between: flags as 0 or 1, `profile-level-id` in six
/// hexadecimal digits, a range of telephone events as `0-X`, modes with commas between (RFC 8866 6.15).
impl fmt::Display for FormatParams {
    ghost use Rattle.std.specs.Prelude.{Some};
    ghost use Rattle.sdp_formats_rows.specs.Texts.{format_text};

    ghost output = { λ format. Some (format_text format) };

    fn fmt<W: fmt::Write>(&self, f: &mut fmt::Formatter<W>) -> fmt::Result {
        let mut is_first = true;
        for param in &each_param(self) {
            if let Some(given) = param {
                let part = Part(is_first, *given);
                write!(f, "{part}")?;
                is_first = false;
            }
        }
        Ok(())
    }
}

/// The three numbers of a profile, tier and level (RFC 7798 7.1, RFC 9328 7.2).
pub fn numbers_of<P: InTable, L: InTable>(
    level: Option<ProfileTierLevel<P, L>>,
) -> Option<(u8, u8, u8)>
    ensures { result ≡ option_map (numbers_of P.number L.number) level }
{
    match level {
        Some(ptl) => Some((ptl.profile_id(), ptl.tier_flag(), ptl.level_id())),
        None => None,
    }
}

//! The profile, tier and level of a line.

ghost use Rattle.std.specs.Prelude.{◌≡◌};
ghost use Rattle.std.specs.Option.{option_copied};
ghost use Rattle.sdp_formats_rows.specs.Formats.{with_values, level_format};
ghost use Rattle.sdp_formats_grammar.specs.Split.{parts};

use crate::format::{FormatParams, no_format};
use crate::last_values::{gives_level, last_value};
use media_types::{H265ProfileTierLevel, H266ProfileTierLevel};
use sdp_formats_values::Key;

/// The profile, tier and level that three values mean: of H.265, else of H.266.
fn with_values(
    profile_id: Option<&str>,
    tier_flag: Option<&str>,
    level_id: Option<&str>,
) -> FormatParams
    ensures { result ≡ with_values (option_copied profile_id.entry) (option_copied tier_flag.entry)
        (option_copied level_id.entry) }
{
    let h265 = H265ProfileTierLevel::from_fmtp(profile_id, tier_flag, level_id);
    if h265.is_some() {
        return FormatParams {
            h265_profile_tier_level: h265,
            ..no_format()
        };
    }
    FormatParams {
        h266_profile_tier_level: H266ProfileTierLevel::from_fmtp(profile_id, tier_flag, level_id),
        ..no_format()
    }
}

/// The profile, tier and level of a line, and nothing else.
pub(crate) fn level_format(line: &str) -> FormatParams
    ensures { result ≡ level_format (parts 59 line.now) }
{
    if !gives_level(line) {
        return no_format();
    }
    with_values(
        last_value(line, Key::ProfileId),
        last_value(line, Key::TierFlag),
        last_value(line, Key::LevelId),
    )
}

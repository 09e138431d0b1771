//! One more value of a parameter.

ghost use Rattle.std.specs.Prelude.{◌≡◌};
ghost use Rattle.sdp_formats_rows.specs.Formats.{replaced, is_on, with_value, with_key, with_range, with_fields};
ghost use Rattle.sdp_formats_grammar.specs.Split.{parts};

use crate::format::FormatParams;
use sdp_formats_grammar::first_part;
use sdp_formats_values::{
    Key, byte_of, don_diff_of, modes_of, profile_level_of, range_of, word_of,
};

/// The parameters with one more part: a key and its value, or a bare range of telephone events.
pub(crate) fn with_part(format: FormatParams, part: &str, last_alone: bool) -> FormatParams
    ensures { result ≡ with_fields last_alone (parts 61 part.now) format }
{
    let (key, rest) = first_part(part, '=');
    match rest {
        Some(rest) => {
            let (value, _) = first_part(rest, '=');
            with_key(format, Key::named(key.trim()), value.trim(), last_alone)
        }
        None => with_range(format, range_of(key.trim())),
    }
}

/// The parameters with a range of telephone events, if there is one.
fn with_range(format: FormatParams, range: Option<u8>) -> FormatParams
    ensures { result ≡ with_range range format }
{
    match range {
        Some(event) => FormatParams {
            telephone_event_max: Some(event),
            ..format
        },
        None => format,
    }
}

/// The parameters with one more value, if its key is known.
fn with_key(format: FormatParams, key: Option<Key>, value: &str, last_alone: bool) -> FormatParams
    ensures { result ≡ with_key last_alone key value.now format }
{
    match key {
        Some(key) => with_value(format, key, value, last_alone),
        None => format,
    }
}

/// A later byte replaces an earlier one.
fn replaced_byte(last_alone: bool, earlier: Option<u8>, value: Option<u8>) -> Option<u8>
    ensures { result ≡ replaced last_alone earlier value }
{
    if value.is_none() && !last_alone {
        earlier
    } else {
        value
    }
}

/// A later number of sixteen bits in the place of an earlier one.
fn replaced_half_word(last_alone: bool, earlier: Option<u16>, value: Option<u16>) -> Option<u16>
    ensures { result ≡ replaced last_alone earlier value }
{
    if value.is_none() && !last_alone {
        earlier
    } else {
        value
    }
}

/// A later number of 32 bits in the place of an earlier one.
fn replaced_word(last_alone: bool, earlier: Option<u32>, value: Option<u32>) -> Option<u32>
    ensures { result ≡ replaced last_alone earlier value }
{
    if value.is_none() && !last_alone {
        earlier
    } else {
        value
    }
}

/// A flag: on for 1, off for anything else.
fn is_on(value: &str) -> Option<bool>
    ensures { result ≡ is_on value.now }
{
    Some(value == "1")
}

/// The parameters with one more value of a key.
fn with_value(mut f: FormatParams, key: Key, value: &str, last: bool) -> FormatParams
    ensures { result ≡ with_value last key value.now f }
{
    match key {
        Key::MinPTime => f.min_p_time = replaced_byte(last, f.min_p_time, byte_of(value)),
        Key::Stereo => f.stereo = is_on(value),
        Key::SpropStereo => f.sprop_stereo = is_on(value),
        Key::UseInbandFec => f.use_inband_fec = is_on(value),
        Key::UseDtx => f.use_dtx = is_on(value),
        Key::LevelAsymmetryAllowed => f.level_asymmetry_allowed = is_on(value),
        Key::PacketizationMode => {
            f.packetization_mode = replaced_byte(last, f.packetization_mode, byte_of(value));
        }
        Key::ProfileLevelId => {
            f.profile_level_id = replaced_word(last, f.profile_level_id, profile_level_of(value));
        }
        Key::ProfileId => {
            if !last {
                f.profile_id = replaced_word(false, f.profile_id, word_of(value));
            }
        }
        Key::Profile => f.profile = replaced_byte(last, f.profile, byte_of(value)),
        Key::LevelIdx => f.level_idx = replaced_byte(last, f.level_idx, byte_of(value)),
        Key::Tier => f.tier = replaced_byte(last, f.tier, byte_of(value)),
        Key::SpropMaxDonDiff => {
            f.sprop_max_don_diff = replaced_half_word(
                last,
                f.sprop_max_don_diff,
                don_diff_of(value),
            );
        }
        Key::OctetAlign => f.octet_align = is_on(value),
        Key::ModeSet => f.mode_set = replaced_half_word(last, f.mode_set, modes_of(value)),
        Key::TierFlag | Key::LevelId => {}
    }
    f
}

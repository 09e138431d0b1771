//! Whether what two formats give is the same.

ghost use Rattle.std.specs.Prelude.{◌≡◌};
ghost use Rattle.sdp_formats_rows.specs.Same.{alike, same, same_flag, same_format, same_h264, same_levels};
ghost use Rattle.sdp_formats_rows.specs.Same.{same_numbers, same_opus, same_speech, same_video};

use crate::format::FormatParams;
use crate::printing::numbers_of;

/// Is it the same byte, or none at both?
pub fn same_byte(a: Option<u8>, b: Option<u8>) -> bool
    ensures { result ≡ same a b }
{
    a == b
}

/// Is it the same number of sixteen bits, or none at both?
pub fn same_half_word(a: Option<u16>, b: Option<u16>) -> bool
    ensures { result ≡ same a b }
{
    a == b
}

/// Is it the same number of 32 bits, or none at both?
fn same_word(a: Option<u32>, b: Option<u32>) -> bool
    ensures { result ≡ same a b }
{
    a == b
}

/// Is it the same flag, or none at both?
pub fn same_flag(a: Option<bool>, b: Option<bool>) -> bool
    ensures { result ≡ same_flag a b }
{
    a == b
}

/// Are they the same three numbers, or none at both?
fn same_numbers(a: Option<(u8, u8, u8)>, b: Option<(u8, u8, u8)>) -> bool
    ensures { result ≡ same_numbers a b }
{
    match (a, b) {
        (Some(a), Some(b)) => a.0 == b.0 && a.1 == b.1 && a.2 == b.2,
        (None, None) => true,
        _ => false,
    }
}

/// Both on or both off, by default off.
pub fn alike(a: Option<bool>, b: Option<bool>) -> bool
    ensures { result ≡ alike a b }
{
    a.unwrap_or(false) == b.unwrap_or(false)
}

/// Are the parameters of Opus the same?
fn same_opus(a: &FormatParams, b: &FormatParams) -> bool
    ensures { result ≡ same_opus a.now b.now }
{
    same_byte(a.min_p_time, b.min_p_time)
        && same_flag(a.stereo, b.stereo)
        && same_flag(a.sprop_stereo, b.sprop_stereo)
        && same_flag(a.use_inband_fec, b.use_inband_fec)
        && same_flag(a.use_dtx, b.use_dtx)
}

/// Are the parameters of AMR-WB and telephone events the same?
fn same_speech(a: &FormatParams, b: &FormatParams) -> bool
    ensures { result ≡ same_speech a.now b.now }
{
    same_flag(a.octet_align, b.octet_align)
        && same_half_word(a.mode_set, b.mode_set)
        && same_byte(a.telephone_event_max, b.telephone_event_max)
}

/// Are the parameters of H.264 the same?
fn same_h264(a: &FormatParams, b: &FormatParams) -> bool
    ensures { result ≡ same_h264 a.now b.now }
{
    same_flag(a.level_asymmetry_allowed, b.level_asymmetry_allowed)
        && same_byte(a.packetization_mode, b.packetization_mode)
        && same_word(a.profile_level_id, b.profile_level_id)
}

/// Are the parameters of other video codecs the same?
fn same_video(a: &FormatParams, b: &FormatParams) -> bool
    ensures { result ≡ same_video a.now b.now }
{
    same_word(a.profile_id, b.profile_id)
        && same_byte(a.profile, b.profile)
        && same_byte(a.level_idx, b.level_idx)
        && same_byte(a.tier, b.tier)
        && same_half_word(a.sprop_max_don_diff, b.sprop_max_don_diff)
}

/// Are the profiles, tiers and levels of H.265 and H.266 the same?
fn same_levels(a: &FormatParams, b: &FormatParams) -> bool
    ensures { result ≡ same_levels a.now b.now }
{
    same_numbers(
        numbers_of(a.h265_profile_tier_level),
        numbers_of(b.h265_profile_tier_level),
    ) && same_numbers(
        numbers_of(a.h266_profile_tier_level),
        numbers_of(b.h266_profile_tier_level),
    )
}

/// Are all parameters the same?
pub fn same_format(a: &FormatParams, b: &FormatParams) -> bool
    ensures { result ≡ same_format a.now b.now }
{
    same_opus(a, b) && same_speech(a, b) && same_h264(a, b) && same_video(a, b) && same_levels(a, b)
}

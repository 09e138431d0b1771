//! How well two formats of one codec match.

ghost use Rattle.std.specs.Prelude.{◌≡◌};
ghost use Rattle.sdp_formats_rows.specs.FormatScores.{av1_score, format_score, given_264, given_265, given_266};
ghost use Rattle.sdp_formats_rows.specs.FormatScores.{modes_score, opus_score, penalty, vp9_score};

use crate::format::FormatParams;
use crate::h264::{GivenH264, h264_score};
use crate::level_scores::{GivenH265, GivenH266, level_score};
use crate::points::points_if;
use crate::same::{alike, same_byte, same_flag};
use media_types::Codec;

/// The points subtracted if two values differ.
fn penalty(is_same: bool, points: usize) -> usize
    ensures { result ≡ penalty is_same points }
{
    if is_same { 0 } else { points }
}

/// The points of two formats of Opus: each parameter that differs takes off its own (RFC 7587 6.1).
fn opus_score(a: &FormatParams, b: &FormatParams) -> usize
    ensures { result ≡ opus_score a.now b.now }
{
    100 - penalty(same_byte(a.min_p_time, b.min_p_time), 1)
        - penalty(same_flag(a.use_inband_fec, b.use_inband_fec), 2)
        - penalty(same_flag(a.use_dtx, b.use_dtx), 4)
        - penalty(alike(a.stereo, b.stereo), 8)
        - penalty(alike(a.sprop_stereo, b.sprop_stereo), 8)
}

/// The points of two sets of modes: one set, or none at a side (RFC 4867 8.3.1).
pub fn modes_score(a: Option<u16>, b: Option<u16>) -> Option<usize>
    ensures { result ≡ modes_score a b }
{
    match (a, b) {
        (None, None) => Some(100),
        (Some(a), Some(b)) => points_if(a == b, 99),
        _ => Some(99),
    }
}

/// The points of two formats of VP9: one profile, 0 if none is given (RFC 9628 6.1).
fn vp9_score(a: &FormatParams, b: &FormatParams) -> Option<usize>
    ensures { result ≡ vp9_score a.now b.now }
{
    points_if(a.profile_id.unwrap_or(0) == b.profile_id.unwrap_or(0), 100)
}

/// The points of two formats of AV1: one profile, level and tier, each at its default if it isn't given.
fn av1_score(a: &FormatParams, b: &FormatParams) -> Option<usize>
    ensures { result ≡ av1_score a.now b.now }
{
    let is_same = a.profile.unwrap_or(0) == b.profile.unwrap_or(0)
        && a.level_idx.unwrap_or(5) == b.level_idx.unwrap_or(5)
        && a.tier.unwrap_or(0) == b.tier.unwrap_or(0);
    points_if(is_same, 100)
}

/// What a format gives of H.264.
fn given_264(f: &FormatParams) -> GivenH264
    ensures { result ≡ given_264 f.now }
{
    GivenH264 {
        packetization_mode: f.packetization_mode,
        profile_level_id: f.profile_level_id,
    }
}

/// What a format gives of H.265.
fn given_265(f: &FormatParams) -> GivenH265
    ensures { result ≡ given_265 f.now }
{
    GivenH265 {
        level: f.h265_profile_tier_level,
        profile_id: f.profile_id,
    }
}

/// What a format gives of H.266.
fn given_266(f: &FormatParams) -> GivenH266
    ensures { result ≡ given_266 f.now }
{
    GivenH266 {
        level: f.h266_profile_tier_level,
        profile_id: f.profile_id,
    }
}

/// The points of two formats of this codec that differ, by its table; none for a codec without one, whose formats then
/// don't match.
pub fn format_score(codec: Codec, a: &FormatParams, b: &FormatParams) -> Option<usize>
    ensures { result ≡ format_score codec a.now b.now }
{
    match codec {
        Codec::Opus => Some(opus_score(a, b)),
        Codec::H264 => h264_score(&given_264(a), &given_264(b)),
        Codec::H265 => level_score(&given_265(a), &given_265(b)),
        Codec::H266 => level_score(&given_266(a), &given_266(b)),
        Codec::Vp9 => vp9_score(a, b),
        Codec::Av1 => av1_score(a, b),
        _ => None,
    }
}

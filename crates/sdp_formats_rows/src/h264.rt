//! H.264.

ghost use Rattle.std.specs.Prelude.{◌≡◌};
ghost use Rattle.sdp_formats_rows.specs.H264Score.{h264_score, known_score, level_given, profiles_score};
ghost use Rattle.sdp_formats_rows.specs.H264Score.{same_profile};

use crate::points::{level_points, points_if};
use media_types::{H264Profile, H264ProfileLevel};

/// What a format gives of H.264 (RFC 6184 8.1).
#[derive(Clone, Copy, Drop)]
pub struct GivenH264 {
    /// `packetization-mode`.
    pub packetization_mode: Option<u8>,
    /// `profile-level-id`.
    pub profile_level_id: Option<u32>,
}

fn same_profile(a: H264Profile, b: H264Profile) -> bool
    ensures { result ≡ same_profile a b }
{
    a == b
}

fn level_given(profile_level_id: Option<u32>) -> Option<H264ProfileLevel>
    ensures { result ≡ level_given profile_level_id }
{
    match profile_level_id {
        Some(id) => H264ProfileLevel::try_from(id).ok(),
        None => Some(H264ProfileLevel::FALLBACK),
    }
}

fn known_score(a: &H264ProfileLevel, b: &H264ProfileLevel) -> Option<usize>
    ensures { result ≡ known_score a.now b.now }
{
    points_if(
        same_profile(a.profile(), b.profile()),
        level_points(a.level().ordinal(), b.level().ordinal()),
    )
}

fn profiles_score(a: Option<H264ProfileLevel>, b: Option<H264ProfileLevel>) -> Option<usize>
    ensures { result ≡ profiles_score a b }
{
    match (a, b) {
        (Some(a), Some(b)) => known_score(&a, &b),
        _ => None,
    }
}

/// How well two formats of H.264 match, up to 100: in one packetization mode and one profile 100 less the distance of
/// their levels, else not at all (RFC 6184 8.2.2).
pub fn h264_score(a: &GivenH264, b: &GivenH264) -> Option<usize>
    ensures { result ≡ h264_score a.now b.now }
{
    if a.packetization_mode.unwrap_or(0) != b.packetization_mode.unwrap_or(0) {
        return None;
    }
    profiles_score(
        level_given(a.profile_level_id),
        level_given(b.profile_level_id),
    )
}

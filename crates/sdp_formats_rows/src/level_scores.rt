//! H.265 and H.266.

ghost use Rattle.std.specs.Prelude.{◌≡◌};
ghost use Rattle.media_types.specs.Tables.{place_of};
ghost use Rattle.sdp_formats_rows.specs.LevelScore.{agreed, known_score, lower_level, lowered};
ghost use Rattle.sdp_formats_rows.specs.LevelScore.{profile_alone, score};

use crate::points::{level_points, points_if};
use media_types::{
    H265Level, H265Profile, H266Level, H266Profile, InTable, Level, ProfileTierLevel,
};

/// What a format gives of a profile, a tier and a level.
#[derive(Clone, Copy, Drop)]
pub struct GivenLevel<P, L> {
    /// Profile, tier and level.
    pub level: Option<ProfileTierLevel<P, L>>,
    /// A `profile-id` without tier and level.
    pub profile_id: Option<u32>,
}

/// What a format gives of H.265 (RFC 7798 7.1).
pub type GivenH265 = GivenLevel<H265Profile, H265Level>;

/// What a format gives of H.266 (RFC 9328 7.2).
pub type GivenH266 = GivenLevel<H266Profile, H266Level>;

fn known_score<P: InTable, L: Level>(
    a: &ProfileTierLevel<P, L>,
    b: &ProfileTierLevel<P, L>,
) -> Option<usize>
    ensures { result ≡ known_score P.number (place_of L.number L.all) a.now b.now }
{
    points_if(
        a.profile_id() == b.profile_id() && a.tier_flag() == b.tier_flag(),
        level_points(a.level().ordinal(), b.level().ordinal()),
    )
}

fn profile_alone<P: InTable, L: InTable>(given: &GivenLevel<P, L>) -> u32
    ensures { result ≡ profile_alone P.number P.FALLBACK given.now.level given.now.profile_id }
{
    match given.level {
        Some(ptl) => u32::from(ptl.profile_id()),
        None => {
            let fallback = u32::from(P::FALLBACK.number());
            given.profile_id.unwrap_or(fallback) % 256
        }
    }
}

/// How well two formats of H.265 or of H.266 match, up to 100: with profile, tier and level at both sides, in one
/// profile and one tier, 100 less the distance of their levels; if a side gives no level, 90 in one profile; else
/// not at all.
pub fn level_score<P: InTable, L: Level>(
    a: &GivenLevel<P, L>,
    b: &GivenLevel<P, L>,
) -> Option<usize>
    ensures { result ≡ score P.number P.FALLBACK (place_of L.number L.all) a.now b.now }
{
    if let (Some(a), Some(b)) = (a.level, b.level) {
        return known_score(&a, &b);
    }
    points_if(profile_alone(a) == profile_alone(b), 90)
}

fn lower_level<L: Level>(a: L, b: L) -> L
    ensures { result ≡ lower_level (place_of L.number L.all) a b }
{
    if a.ordinal() <= b.ordinal() { a } else { b }
}

fn lowered<P: InTable, L: Level>(
    ours: Option<ProfileTierLevel<P, L>>,
    theirs: ProfileTierLevel<P, L>,
) -> ProfileTierLevel<P, L>
    ensures { result ≡ lowered (place_of L.number L.all) ours theirs }
{
    match ours {
        Some(ours) => theirs.with_level(lower_level(ours.level(), theirs.level())),
        None => theirs,
    }
}

/// What a match leaves of a format of H.265 or of H.266: profile, tier and level of the other side, at the lower level
/// of both, or its bare profile, or nothing (RFC 7798 7.1, RFC 9328 7.2).
pub fn level_agreed<P: InTable, L: Level>(
    ours: &GivenLevel<P, L>,
    theirs: &GivenLevel<P, L>,
) -> GivenLevel<P, L>
    ensures { result ≡ agreed (place_of L.number L.all) ours.now theirs.now }
{
    match theirs.level {
        Some(level) => GivenLevel {
            level: Some(lowered(ours.level, level)),
            profile_id: None,
        },
        None => GivenLevel {
            level: None,
            profile_id: theirs.profile_id,
        },
    }
}

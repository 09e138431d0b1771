//! A profile, a tier and a level together (RFC 7798 7.1, RFC 9328 7.2).

ghost use Rattle.std.specs.Prelude.{◌≡◌, List, Option, option_map};
ghost use Rattle.media_types.specs.Tables.{place_of, with_number};
ghost use Rattle.media_types.specs.ProfileTierLevel.{at_level, fallback, given, known, known_or_fallback};
ghost use Rattle.media_types.specs.Tier.{tier_flag};

use crate::numbered::{Numbered, find_number};
use crate::tier::Tier;
use crate::values::given_or;
use serde::{Deserialize, Serialize};

/// The profiles or the levels of a codec: each has a number in session texts.
pub trait InTable: Numbered + 'static {
    ghost all: { List Self };

    ghost FALLBACK: { Self };

    /// The default if SDP gives none.
    const FALLBACK: Self;

    /// All of them, in the order of their table.
    fn all() -> &'static [Self]
        ensures { result.now ≡ all };
}

/// The levels of a codec.
pub trait Level: InTable {
    /// Its index among the levels.
    fn ordinal(self) -> usize
        ensures { result ≡ place_of Self.number Self.all self };
}

/// A profile, a tier and a level of a codec.
#[derive(Clone, Copy, Debug, PartialEq, Eq, Drop, Serialize, Deserialize)]
pub struct ProfileTierLevel<P, L> {
    pub(crate) profile: P,
    pub(crate) tier: Tier,
    pub(crate) level: L,
}

impl<P: InTable, L: InTable> ProfileTierLevel<P, L> {
    /// What is if a session text says nothing.
    pub(crate) fn absent() -> Self
        ensures { result ≡ fallback P.FALLBACK L.FALLBACK }
    {
        Self::from_parts(P::FALLBACK, Tier::Main, L::FALLBACK)
    }

    /// The three together.
    pub fn from_parts(profile: P, tier: Tier, level: L) -> Self
        ensures { result ≡ record { profile = profile; tier = tier; level = level } }
    {
        ProfileTierLevel {
            profile,
            tier,
            level,
        }
    }

    /// The meaning of a `profile-id`, a `tier-flag` and a `level-id`; None if one isn't in its
    /// table.
    pub fn new(profile_id: u8, tier_flag: u8, level_id: u8) -> Option<Self>
        ensures { result ≡ known (with_number P.number P.all) (with_number L.number L.all)
            profile_id tier_flag level_id }
    {
        let profile = find_number(P::all(), profile_id)?;
        let tier = Tier::from_flag(tier_flag)?;
        let level = find_number(L::all(), level_id)?;
        Some(Self::from_parts(profile, tier, level))
    }

    /// The meaning of the values of `profile-id`, `tier-flag` and `level-id`. A missing value
    /// defaults to that of `FALLBACK`; None if a given one isn't in its table.
    pub fn from_fmtp(
        profile_id: Option<&str>,
        tier_flag: Option<&str>,
        level_id: Option<&str>,
    ) -> Option<Self>
        ensures { result ≡ given (with_number P.number P.all) (with_number L.number L.all)
            (P.number P.FALLBACK) (L.number L.FALLBACK)
            (option_map (λ t. t.now) profile_id.entry) (option_map (λ t. t.now) tier_flag.entry)
            (option_map (λ t. t.now) level_id.entry) }
    {
        Self::new(
            given_or(P::FALLBACK.number(), profile_id)?,
            given_or(0, tier_flag)?,
            given_or(L::FALLBACK.number(), level_id)?,
        )
    }

    /// The profile.
    pub fn profile(&self) -> P
        ensures { result ≡ self.now.profile }
    {
        self.profile
    }

    /// The tier.
    pub fn tier(&self) -> Tier
        ensures { result ≡ self.now.tier }
    {
        self.tier
    }

    /// The level.
    pub fn level(&self) -> L
        ensures { result ≡ self.now.level }
    {
        self.level
    }

    /// The same profile and tier at another level.
    pub fn with_level(self, level: L) -> Self
        ensures { result ≡ at_level self level }
    {
        ProfileTierLevel { level, ..self }
    }

    /// The `profile-id`.
    pub fn profile_id(&self) -> u8
        ensures { result ≡ P.number self.now.profile }
    {
        self.profile.number()
    }

    /// The `tier-flag`.
    pub fn tier_flag(&self) -> u8
        ensures { result ≡ tier_flag self.now.tier }
    {
        self.tier.to_flag()
    }

    /// The `level-id`.
    pub fn level_id(&self) -> u8
        ensures { result ≡ L.number self.now.level }
    {
        self.level.number()
    }
}

/// The meaning of a `profile-id`, a `tier-flag` and a `level-id`; the default if one isn't in its
/// table.
impl<P: InTable, L: InTable> From<(u8, u8, u8)> for ProfileTierLevel<P, L> {
    ghost from_gives = { λ numbers ptl. ptl ≡ known_or_fallback (with_number P.number P.all)
        (with_number L.number L.all) P.FALLBACK L.FALLBACK numbers };

    fn from(numbers: (u8, u8, u8)) -> Self {
        let (profile_id, tier_flag, level_id) = numbers;
        Self::new(profile_id, tier_flag, level_id).unwrap_or(Self::absent())
    }
}

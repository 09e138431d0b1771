//! Profiles, tiers and levels of H.266 (RFC 9328 7.2).

ghost use Rattle.std.specs.Prelude.{◌≡◌};
ghost use Rattle.media_types.specs.Tables.{IsRising, IsTable, place_of, with_number};
ghost use Rattle.media_types.specs.H266Level.{fallback_level, level_id, levels};
ghost use Rattle.media_types.specs.H266Profile.{fallback_profile, profile_id, profiles};
ghost use Rattle.media_types.specs.H266ProfileTierLevel.{ComesBack, fallback};
ghost use Rattle.media_types.specs.LevelsApart.{LevelsApart};

use crate::h266_tables::{H266_LEVELS, H266_PROFILES};
use crate::numbered::{Numbered, find_number};
use crate::profile_tier_level::{InTable, Level, ProfileTierLevel};
use crate::tier::Tier;
use serde::{Deserialize, Serialize};

/// A profile of H.266.
#[derive(Clone, Copy, Debug, PartialEq, Eq, Drop, Serialize, Deserialize)]
pub enum H266Profile {
    /// Profile 1.
    Main10,
    /// Profile 33.
    Main10_444,
}

impl H266Profile {
    /// The profile with this `profile-id`; None if there is none.
    pub fn from_id(id: u8) -> Option<Self>
        ensures { result ≡ with_number profile_id profiles id }
    {
        find_number(&H266_PROFILES, id)
    }

    /// Its `profile-id`.
    pub fn to_id(self) -> u8
        ensures { result ≡ profile_id self }
    {
        match self {
            H266Profile::Main10 => 1,
            H266Profile::Main10_444 => 33,
        }
    }
}

impl Numbered for H266Profile {
    ghost number = { profile_id };

    fn number(self) -> u8 {
        self.to_id()
    }
}

impl InTable for H266Profile {
    ghost all = { profiles };

    ghost FALLBACK = { fallback_profile };

    const FALLBACK: Self = H266Profile::Main10;

    fn all() -> &'static [Self] {
        &H266_PROFILES
    }
}

/// A level of H.266; levels are ordered.
#[derive(Clone, Copy, Debug, PartialEq, Eq, PartialOrd, Ord, Drop, Serialize, Deserialize)]
pub enum H266Level {
    /// Level 1, number 16.
    Level1,
    /// Level 2, number 32.
    Level2,
    /// Level 2.1, number 35.
    Level2_1,
    /// Level 3, number 48.
    Level3,
    /// Level 3.1, number 51.
    Level3_1,
    /// Level 4, number 64.
    Level4,
    /// Level 4.1, number 67.
    Level4_1,
    /// Level 5, number 80.
    Level5,
    /// Level 5.1, number 83.
    Level5_1,
    /// Level 5.2, number 86.
    Level5_2,
    /// Level 6, number 96.
    Level6,
    /// Level 6.1, number 99.
    Level6_1,
    /// Level 6.2, number 102.
    Level6_2,
    /// Level 6.3, number 105.
    Level6_3,
    /// Level 15.5, number 255.
    Level15_5,
}

impl H266Level {
    /// The level with this `level-id`; None if there is none.
    pub fn from_id(id: u8) -> Option<Self>
        ensures { result ≡ with_number level_id levels id }
    {
        find_number(&H266_LEVELS, id)
    }

    /// Its `level-id`.
    pub fn to_id(self) -> u8
        ensures { result ≡ level_id self }
    {
        match self {
            H266Level::Level1 => 16,
            H266Level::Level2 => 32,
            H266Level::Level2_1 => 35,
            H266Level::Level3 => 48,
            H266Level::Level3_1 => 51,
            H266Level::Level4 => 64,
            H266Level::Level4_1 => 67,
            H266Level::Level5 => 80,
            H266Level::Level5_1 => 83,
            H266Level::Level5_2 => 86,
            H266Level::Level6 => 96,
            H266Level::Level6_1 => 99,
            H266Level::Level6_2 => 102,
            H266Level::Level6_3 => 105,
            H266Level::Level15_5 => 255,
        }
    }

    /// Its index among the levels.
    pub fn ordinal(self) -> usize
        ensures { result ≡ place_of level_id levels self }
    {
        self as usize
    }
}

impl Numbered for H266Level {
    ghost number = { level_id };

    fn number(self) -> u8 {
        self.to_id()
    }
}

impl InTable for H266Level {
    ghost all = { levels };

    ghost FALLBACK = { fallback_level };

    const FALLBACK: Self = H266Level::Level3_1;

    fn all() -> &'static [Self] {
        &H266_LEVELS
    }
}

impl Level for H266Level {
    fn ordinal(self) -> usize {
        H266Level::ordinal(self)
    }
}

/// A tier of H.266.
pub type H266Tier = Tier;

/// A profile, a tier and a level of H.266 (RFC 9328 7.2).
pub type H266ProfileTierLevel = ProfileTierLevel<H266Profile, H266Level>;

const H266_FALLBACK: H266ProfileTierLevel = ProfileTierLevel {
    profile: H266Profile::Main10,
    tier: Tier::Main,
    level: H266Level::Level3_1,
};

impl ProfileTierLevel<H266Profile, H266Level> {
    /// The default if SDP gives none: 1, 0 and 51.
    pub const FALLBACK: Self = H266_FALLBACK;
}

/// Properties of the H.266 tables: a number finds the profile or level it belongs to, and no other;
/// levels are ordered by index and by number alike; profile, tier and level are recovered from their
/// three numbers; and no `level-id` is shared with H.265, so that it tells the two apart.
pub fn h266_tables_law()
    ensures profiles { IsTable profile_id profiles }
    ensures levels { IsTable level_id levels }
    ensures rising { IsRising level_id levels ⟦<H266Level as Ord>⟧.cmp }
    ensures comes_back { ComesBack }
    ensures fallback { H266_FALLBACK ≡ fallback }
    ensures apart { LevelsApart }
{}

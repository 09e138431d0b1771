//! Profiles, tiers and levels of H.265 (RFC 7798 7.1).

ghost use Rattle.std.specs.Prelude.{◌≡◌};
ghost use Rattle.media_types.specs.Tables.{IsRising, IsTable, place_of, with_number};
ghost use Rattle.media_types.specs.H265Level.{fallback_level, level_id, levels};
ghost use Rattle.media_types.specs.H265Profile.{fallback_profile, profile_id, profiles};
ghost use Rattle.media_types.specs.H265ProfileTierLevel.{ComesBack, fallback};

use crate::h265_tables::{H265_LEVELS, H265_PROFILES};
use crate::numbered::{Numbered, find_number};
use crate::profile_tier_level::{InTable, Level, ProfileTierLevel};
use crate::tier::Tier;
use serde::{Deserialize, Serialize};

/// A profile of H.265.
#[derive(Clone, Copy, Debug, PartialEq, Eq, Drop, Serialize, Deserialize)]
pub enum H265Profile {
    /// Profile 1.
    Main,
    /// Profile 2.
    Main10,
    /// Profile 3.
    MainStillPicture,
    /// Profile 4.
    FormatRangeExtensions,
    /// Profile 5.
    HighThroughput,
    /// Profile 6.
    MultiviewMain,
    /// Profile 7.
    ScalableMain,
    /// Profile 8.
    ThreeDMain,
    /// Profile 9.
    ScreenContentCoding,
    /// Profile 10.
    ScreenContentCodingExtensions,
    /// Profile 11.
    HighThroughputScreenContentCoding,
}

impl H265Profile {
    /// The profile with this `profile-id`; None if there is none.
    pub fn from_id(id: u8) -> Option<Self>
        ensures { result ≡ with_number profile_id profiles id }
    {
        find_number(&H265_PROFILES, id)
    }

    /// Its `profile-id`.
    pub fn to_id(self) -> u8
        ensures { result ≡ profile_id self }
    {
        match self {
            H265Profile::Main => 1,
            H265Profile::Main10 => 2,
            H265Profile::MainStillPicture => 3,
            H265Profile::FormatRangeExtensions => 4,
            H265Profile::HighThroughput => 5,
            H265Profile::MultiviewMain => 6,
            H265Profile::ScalableMain => 7,
            H265Profile::ThreeDMain => 8,
            H265Profile::ScreenContentCoding => 9,
            H265Profile::ScreenContentCodingExtensions => 10,
            H265Profile::HighThroughputScreenContentCoding => 11,
        }
    }
}

impl Numbered for H265Profile {
    ghost number = { profile_id };

    fn number(self) -> u8 {
        self.to_id()
    }
}

impl InTable for H265Profile {
    ghost all = { profiles };

    ghost FALLBACK = { fallback_profile };

    const FALLBACK: Self = H265Profile::Main;

    fn all() -> &'static [Self] {
        &H265_PROFILES
    }
}

/// A level of H.265; levels are ordered.
#[derive(Clone, Copy, Debug, PartialEq, Eq, PartialOrd, Ord, Drop, Serialize, Deserialize)]
pub enum H265Level {
    /// Level 1, number 30.
    Level1,
    /// Level 2, number 60.
    Level2,
    /// Level 2.1, number 63.
    Level2_1,
    /// Level 3, number 90.
    Level3,
    /// Level 3.1, number 93.
    Level3_1,
    /// Level 4, number 120.
    Level4,
    /// Level 4.1, number 123.
    Level4_1,
    /// Level 5, number 150.
    Level5,
    /// Level 5.1, number 153.
    Level5_1,
    /// Level 5.2, number 156.
    Level5_2,
    /// Level 6, number 180.
    Level6,
    /// Level 6.1, number 183.
    Level6_1,
    /// Level 6.2, number 186.
    Level6_2,
}

impl H265Level {
    /// The level with this `level-id`; None if there is none.
    pub fn from_id(id: u8) -> Option<Self>
        ensures { result ≡ with_number level_id levels id }
    {
        find_number(&H265_LEVELS, id)
    }

    /// Its `level-id`.
    pub fn to_id(self) -> u8
        ensures { result ≡ level_id self }
    {
        match self {
            H265Level::Level1 => 30,
            H265Level::Level2 => 60,
            H265Level::Level2_1 => 63,
            H265Level::Level3 => 90,
            H265Level::Level3_1 => 93,
            H265Level::Level4 => 120,
            H265Level::Level4_1 => 123,
            H265Level::Level5 => 150,
            H265Level::Level5_1 => 153,
            H265Level::Level5_2 => 156,
            H265Level::Level6 => 180,
            H265Level::Level6_1 => 183,
            H265Level::Level6_2 => 186,
        }
    }

    /// Its index among the levels.
    pub fn ordinal(self) -> usize
        ensures { result ≡ place_of level_id levels self }
    {
        self as usize
    }
}

impl Numbered for H265Level {
    ghost number = { level_id };

    fn number(self) -> u8 {
        self.to_id()
    }
}

impl InTable for H265Level {
    ghost all = { levels };

    ghost FALLBACK = { fallback_level };

    const FALLBACK: Self = H265Level::Level3_1;

    fn all() -> &'static [Self] {
        &H265_LEVELS
    }
}

impl Level for H265Level {
    fn ordinal(self) -> usize {
        H265Level::ordinal(self)
    }
}

/// A tier of H.265.
pub type H265Tier = Tier;

/// A profile, a tier and a level of H.265 (RFC 7798 7.1).
pub type H265ProfileTierLevel = ProfileTierLevel<H265Profile, H265Level>;

const H265_FALLBACK: H265ProfileTierLevel = ProfileTierLevel {
    profile: H265Profile::Main,
    tier: Tier::Main,
    level: H265Level::Level3_1,
};

impl ProfileTierLevel<H265Profile, H265Level> {
    /// The default if SDP gives none: 1, 0 and 93.
    pub const FALLBACK: Self = H265_FALLBACK;
}

/// Properties of the H.265 tables: a number finds the profile or level it belongs to, and no other;
/// levels are ordered by index and by number alike; and profile, tier and level are recovered from
/// their three numbers.
pub fn h265_tables_law()
    ensures profiles { IsTable profile_id profiles }
    ensures levels { IsTable level_id levels }
    ensures rising { IsRising level_id levels ⟦<H265Level as Ord>⟧.cmp }
    ensures comes_back { ComesBack }
    ensures fallback { H265_FALLBACK ≡ fallback }
{}

//! Profiles and levels of H.264 (RFC 6184 8.1).

ghost use Rattle.std.specs.Prelude.{◌≡◌};
ghost use Rattle.media_types.specs.Tables.{IsRising, IsTable, place_of, with_number};
ghost use Rattle.media_types.specs.H264LevelIdc.{level_idc, levels};
ghost use Rattle.media_types.specs.H264Profile.{profile_of};
ghost use Rattle.media_types.specs.H264Rows.{masked_profile};
ghost use Rattle.media_types.specs.H264ProfileIdc.{profile_idc, profile_idcs};
ghost use Rattle.media_types.specs.H264ProfileLevel.{HasOneRow, fallback, profile_level_of};
ghost use Rattle.media_types.specs.H264ProfileLevel.{read_level_idc, read_profile_idc};
ghost use Rattle.media_types.specs.H264ProfileLevel.{read_profile_level};

use crate::h264_tables::{H264_LEVELS, H264_PROFILE_IDCS};
use crate::numbered::{Numbered, find_number};
use serde::{Deserialize, Serialize};
use thiserror::Error;

/// Why a number of H.264 is refused.
#[derive(Clone, Copy, Debug, PartialEq, Eq, Drop, Error)]
pub enum H264ProfileError {
    /// No row of the profile table has this profile_idc.
    #[error("no profile has profile_idc {0}")]
    UnknownProfileIdc(u8),
    /// No level has this level_idc.
    #[error("no level has level_idc {0}")]
    UnknownLevelIdc(u8),
    /// The profile-level-id has more than three bytes, or no profile or no level is known for it.
    #[error("profile-level-id {0} is not known")]
    UnknownProfileLevelId(u32),
}

/// A profile of H.264 (RFC 6184 8.1, table 5).
#[derive(Clone, Copy, Debug, PartialEq, Eq, Drop, Serialize, Deserialize)]
pub enum H264Profile {
    /// Constrained baseline.
    ConstrainedBaseline,
    /// Baseline.
    Baseline,
    /// Main.
    Main,
    /// High.
    High,
    /// Constrained high.
    ConstrainedHigh,
    /// High 4:4:4 predictive.
    High444Predictive,
}

/// The profile_idc byte of a profile, named by its hexadecimal digits.
#[derive(Clone, Copy, Debug, PartialEq, Eq, Drop, Serialize, Deserialize)]
pub enum H264ProfileIdc {
    /// profile_idc 66, in rows of baseline and constrained baseline.
    X42,
    /// profile_idc 77, in rows of main and constrained baseline.
    X4D,
    /// profile_idc 88, in rows of baseline and constrained baseline.
    X58,
    /// profile_idc 100, in rows of high and constrained high.
    X64,
    /// profile_idc 244, in rows of high 4:4:4 predictive.
    XF4,
}

impl Numbered for H264ProfileIdc {
    ghost number = { profile_idc };

    fn number(self) -> u8 {
        match self {
            H264ProfileIdc::X42 => 0x42,
            H264ProfileIdc::X4D => 0x4D,
            H264ProfileIdc::X58 => 0x58,
            H264ProfileIdc::X64 => 0x64,
            H264ProfileIdc::XF4 => 0xF4,
        }
    }
}

/// The profile_idc of a byte; `UnknownProfileIdc` if no profile has it.
impl TryFrom<u8> for H264ProfileIdc {
    type Error = H264ProfileError;

    ghost try_from_gives = { λ byte read. read ≡ read_profile_idc byte };

    fn try_from(byte: u8) -> Result<Self, H264ProfileError> {
        find_number(&H264_PROFILE_IDCS, byte).ok_or(H264ProfileError::UnknownProfileIdc(byte))
    }
}

/// A level of H.264; level_idc is ten times the level; levels are ordered.
#[derive(Clone, Copy, Debug, PartialEq, Eq, PartialOrd, Ord, Drop, Serialize, Deserialize)]
pub enum H264LevelIdc {
    /// Level 1, level_idc 10.
    Level1,
    /// Level 1.1, level_idc 11.
    Level1_1,
    /// Level 1.2, level_idc 12.
    Level1_2,
    /// Level 1.3, level_idc 13.
    Level1_3,
    /// Level 2, level_idc 20.
    Level2,
    /// Level 2.1, level_idc 21.
    Level2_1,
    /// Level 2.2, level_idc 22.
    Level2_2,
    /// Level 3, level_idc 30.
    Level3,
    /// Level 3.1, level_idc 31.
    Level3_1,
    /// Level 3.2, level_idc 32.
    Level3_2,
    /// Level 4, level_idc 40.
    Level4,
    /// Level 4.1, level_idc 41.
    Level4_1,
    /// Level 4.2, level_idc 42.
    Level4_2,
    /// Level 5, level_idc 50.
    Level5,
    /// Level 5.1, level_idc 51.
    Level5_1,
    /// Level 5.2, level_idc 52.
    Level5_2,
    /// Level 6, level_idc 60.
    Level6,
    /// Level 6.1, level_idc 61.
    Level6_1,
    /// Level 6.2, level_idc 62.
    Level6_2,
}

impl H264LevelIdc {
    /// Its index among the levels.
    pub fn ordinal(self) -> usize
        ensures { result ≡ place_of level_idc levels self }
    {
        self as usize
    }
}

impl Numbered for H264LevelIdc {
    ghost number = { level_idc };

    fn number(self) -> u8 {
        match self {
            H264LevelIdc::Level1 => 10,
            H264LevelIdc::Level1_1 => 11,
            H264LevelIdc::Level1_2 => 12,
            H264LevelIdc::Level1_3 => 13,
            H264LevelIdc::Level2 => 20,
            H264LevelIdc::Level2_1 => 21,
            H264LevelIdc::Level2_2 => 22,
            H264LevelIdc::Level3 => 30,
            H264LevelIdc::Level3_1 => 31,
            H264LevelIdc::Level3_2 => 32,
            H264LevelIdc::Level4 => 40,
            H264LevelIdc::Level4_1 => 41,
            H264LevelIdc::Level4_2 => 42,
            H264LevelIdc::Level5 => 50,
            H264LevelIdc::Level5_1 => 51,
            H264LevelIdc::Level5_2 => 52,
            H264LevelIdc::Level6 => 60,
            H264LevelIdc::Level6_1 => 61,
            H264LevelIdc::Level6_2 => 62,
        }
    }
}

/// The level of a level_idc byte; `UnknownLevelIdc` if no level has it.
impl TryFrom<u8> for H264LevelIdc {
    type Error = H264ProfileError;

    ghost try_from_gives = { λ byte read. read ≡ read_level_idc byte };

    fn try_from(byte: u8) -> Result<Self, H264ProfileError> {
        find_number(&H264_LEVELS, byte).ok_or(H264ProfileError::UnknownLevelIdc(byte))
    }
}

// A row of the profile table: of profile_iop the bits of the mask have these values.
struct ProfileRow {
    idc: u8,
    mask: u8,
    bits: u8,
    profile: H264Profile,
}

const ROWS: [ProfileRow; 9] = [
    ProfileRow {
        idc: 0x42,
        mask: 0b0100_1111,
        bits: 0b0100_0000,
        profile: H264Profile::ConstrainedBaseline,
    },
    ProfileRow {
        idc: 0x4D,
        mask: 0b1000_1111,
        bits: 0b1000_0000,
        profile: H264Profile::ConstrainedBaseline,
    },
    ProfileRow {
        idc: 0x58,
        mask: 0b1100_1111,
        bits: 0b1100_0000,
        profile: H264Profile::ConstrainedBaseline,
    },
    ProfileRow {
        idc: 0x42,
        mask: 0b0100_1111,
        bits: 0b0000_0000,
        profile: H264Profile::Baseline,
    },
    ProfileRow {
        idc: 0x58,
        mask: 0b1100_1111,
        bits: 0b1000_0000,
        profile: H264Profile::Baseline,
    },
    ProfileRow {
        idc: 0x4D,
        mask: 0b1010_1111,
        bits: 0b0000_0000,
        profile: H264Profile::Main,
    },
    ProfileRow {
        idc: 0x64,
        mask: 0b1111_1111,
        bits: 0b0000_0000,
        profile: H264Profile::High,
    },
    ProfileRow {
        idc: 0x64,
        mask: 0b1111_1111,
        bits: 0b0000_1100,
        profile: H264Profile::ConstrainedHigh,
    },
    ProfileRow {
        idc: 0xF4,
        mask: 0b1111_1111,
        bits: 0b0000_0000,
        profile: H264Profile::High444Predictive,
    },
];

/// The profile of the row whose masked bits the two bytes match.
fn masked_profile(idc: u8, iop: u8) -> Option<H264Profile>
    ensures { result ≡ masked_profile ROWS idc iop }
{
    ROWS.iter()
        .find(|row| row.idc == idc && iop & row.mask == row.bits)
        .map(|row| row.profile)
}

/// The same by the table's digits, which the masks encode.
fn profile_of(idc: u8, iop: u8) -> Option<H264Profile>
    ensures { result ≡ profile_of idc iop }
{
    masked_profile(idc, iop)
}

/// A profile and a level of H.264.
#[derive(Clone, Copy, Debug, PartialEq, Eq, Drop, Serialize, Deserialize)]
pub struct H264ProfileLevel {
    pub(crate) profile: H264Profile,
    pub(crate) level: H264LevelIdc,
}

impl H264ProfileLevel {
    /// The default if SDP gives none: baseline at level 1.
    pub const FALLBACK: Self = H264ProfileLevel {
        profile: H264Profile::Baseline,
        level: H264LevelIdc::Level1,
    };

    /// The profile.
    pub fn profile(&self) -> H264Profile
        ensures { result ≡ self.now.profile }
    {
        self.profile
    }

    /// The level.
    pub fn level(&self) -> H264LevelIdc
        ensures { result ≡ self.now.level }
    {
        self.level
    }
}

/// What a number of three bytes means.
fn profile_level_of(number: u32) -> Option<H264ProfileLevel>
    ensures { result ≡ profile_level_of number }
{
    if number > 0xFF_FFFF {
        return None;
    }
    let profile = profile_of((number / 65_536) as u8, (number / 256 % 256) as u8)?;
    let level = H264LevelIdc::try_from((number % 256) as u8).ok()?;
    Some(H264ProfileLevel { profile, level })
}

/// What a profile-level-id means, a number of three bytes: profile_idc, profile_iop and level_idc;
/// `UnknownProfileLevelId` for a greater one, and for one that is off the tables.
impl TryFrom<u32> for H264ProfileLevel {
    type Error = H264ProfileError;

    ghost try_from_gives = { λ number read. read ≡ read_profile_level number };

    fn try_from(number: u32) -> Result<Self, H264ProfileError> {
        profile_level_of(number).ok_or(H264ProfileError::UnknownProfileLevelId(number))
    }
}

/// Properties of the H.264 tables: two bytes match at most one row of the profile table; a number
/// finds the profile_idc or level it belongs to, and no other; levels are ordered by index and by
/// number alike; and the default is baseline at level 1.
pub fn h264_tables_law()
    ensures one_row { HasOneRow }
    ensures profile_idcs { IsTable profile_idc profile_idcs }
    ensures levels { IsTable level_idc levels }
    ensures rising { IsRising level_idc levels ⟦<H264LevelIdc as Ord>⟧.cmp }
    ensures fallback { H264ProfileLevel.FALLBACK ≡ fallback }
{}

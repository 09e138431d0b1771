//! Tiers of H.265 and H.266, whose flags are the same (RFC 7798 7.1, RFC 9328 7.2).

ghost use Rattle.std.specs.Prelude.{◌≡◌};
ghost use Rattle.media_types.specs.Tables.{IsTable, with_number};
ghost use Rattle.media_types.specs.Tier.{tier_flag, tiers};

use serde::{Deserialize, Serialize};

/// A tier of H.265 or H.266.
#[derive(Clone, Copy, Debug, PartialEq, Eq, Drop, Serialize, Deserialize)]
pub enum Tier {
    /// The main tier, flag 0.
    Main,
    /// The high tier, flag 1.
    High,
}

/// Both tiers.
pub const TIERS: [Tier; 2] = [Tier::Main, Tier::High];

impl Tier {
    /// The tier of a `tier-flag`; None for one above 1.
    pub fn from_flag(flag: u8) -> Option<Self>
        ensures { result ≡ with_number tier_flag tiers flag }
    {
        match flag {
            0 => Some(Tier::Main),
            1 => Some(Tier::High),
            _ => None,
        }
    }

    /// Its `tier-flag`.
    pub fn to_flag(self) -> u8
        ensures { result ≡ tier_flag self }
    {
        match self {
            Tier::Main => 0,
            Tier::High => 1,
        }
    }
}

/// Properties of the tiers: a flag finds the tier it belongs to, and no other.
pub fn tiers_law()
    ensures tiers { IsTable tier_flag tiers }
{}

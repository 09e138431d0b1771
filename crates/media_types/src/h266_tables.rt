//! The profiles and levels of H.266, each in a list.

use crate::h266::{H266Level, H266Profile};

/// Every profile.
pub const H266_PROFILES: [H266Profile; 2] = [H266Profile::Main10, H266Profile::Main10_444];

/// Every level, in rising order.
pub const H266_LEVELS: [H266Level; 15] = [
    H266Level::Level1,
    H266Level::Level2,
    H266Level::Level2_1,
    H266Level::Level3,
    H266Level::Level3_1,
    H266Level::Level4,
    H266Level::Level4_1,
    H266Level::Level5,
    H266Level::Level5_1,
    H266Level::Level5_2,
    H266Level::Level6,
    H266Level::Level6_1,
    H266Level::Level6_2,
    H266Level::Level6_3,
    H266Level::Level15_5,
];

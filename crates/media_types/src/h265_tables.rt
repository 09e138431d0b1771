//! The profiles and levels of H.265, each in a list.

use crate::h265::{H265Level, H265Profile};

/// Every profile.
pub const H265_PROFILES: [H265Profile; 11] = [
    H265Profile::Main,
    H265Profile::Main10,
    H265Profile::MainStillPicture,
    H265Profile::FormatRangeExtensions,
    H265Profile::HighThroughput,
    H265Profile::MultiviewMain,
    H265Profile::ScalableMain,
    H265Profile::ThreeDMain,
    H265Profile::ScreenContentCoding,
    H265Profile::ScreenContentCodingExtensions,
    H265Profile::HighThroughputScreenContentCoding,
];

/// Every level, in rising order.
pub const H265_LEVELS: [H265Level; 13] = [
    H265Level::Level1,
    H265Level::Level2,
    H265Level::Level2_1,
    H265Level::Level3,
    H265Level::Level3_1,
    H265Level::Level4,
    H265Level::Level4_1,
    H265Level::Level5,
    H265Level::Level5_1,
    H265Level::Level5_2,
    H265Level::Level6,
    H265Level::Level6_1,
    H265Level::Level6_2,
];

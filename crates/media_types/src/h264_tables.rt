//! The profiles and levels of H.264, each in a list.

use crate::h264::{H264LevelIdc, H264Profile, H264ProfileIdc};

/// Every profile.
pub const H264_PROFILES: [H264Profile; 6] = [
    H264Profile::ConstrainedBaseline,
    H264Profile::Baseline,
    H264Profile::Main,
    H264Profile::High,
    H264Profile::ConstrainedHigh,
    H264Profile::High444Predictive,
];

/// Every profile_idc.
pub const H264_PROFILE_IDCS: [H264ProfileIdc; 5] = [
    H264ProfileIdc::X42,
    H264ProfileIdc::X4D,
    H264ProfileIdc::X58,
    H264ProfileIdc::X64,
    H264ProfileIdc::XF4,
];

/// Every level, in rising order.
pub const H264_LEVELS: [H264LevelIdc; 19] = [
    H264LevelIdc::Level1,
    H264LevelIdc::Level1_1,
    H264LevelIdc::Level1_2,
    H264LevelIdc::Level1_3,
    H264LevelIdc::Level2,
    H264LevelIdc::Level2_1,
    H264LevelIdc::Level2_2,
    H264LevelIdc::Level3,
    H264LevelIdc::Level3_1,
    H264LevelIdc::Level3_2,
    H264LevelIdc::Level4,
    H264LevelIdc::Level4_1,
    H264LevelIdc::Level4_2,
    H264LevelIdc::Level5,
    H264LevelIdc::Level5_1,
    H264LevelIdc::Level5_2,
    H264LevelIdc::Level6,
    H264LevelIdc::Level6_1,
    H264LevelIdc::Level6_2,
];

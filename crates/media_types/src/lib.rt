//! What session texts and payload formats both name: codecs and kinds of media, and the profiles, tiers and
//! levels of H.264, H.265 and H.266. Each has JSON by serde: an enum the name of its variant, a struct an object.
#![tactic(auto)]

mod codec;
mod h264;
mod h264_tables;
mod h265;
mod h265_tables;
mod h266;
mod h266_tables;
mod numbered;
mod profile_tier_level;
mod tier;
mod values;

pub use codec::{CODECS, Codec, MediaKind};
pub use h264::{
    H264LevelIdc, H264Profile, H264ProfileError, H264ProfileIdc, H264ProfileLevel, h264_tables_law,
};
pub use h264_tables::{H264_LEVELS, H264_PROFILE_IDCS, H264_PROFILES};
pub use h265::{H265Level, H265Profile, H265ProfileTierLevel, H265Tier, h265_tables_law};
pub use h265_tables::{H265_LEVELS, H265_PROFILES};
pub use h266::{H266Level, H266Profile, H266ProfileTierLevel, H266Tier, h266_tables_law};
pub use h266_tables::{H266_LEVELS, H266_PROFILES};
pub use numbered::{Numbered, find_number};
pub use profile_tier_level::{InTable, Level, ProfileTierLevel};
pub use tier::{TIERS, Tier, tiers_law};

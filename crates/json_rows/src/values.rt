//! What rows hold, by itself and in values of one's own.

use crate::rows::{every_field, row_of};
use media_types::{
    Codec, H264_LEVELS, H264_PROFILE_IDCS, H264_PROFILES, H264LevelIdc, H264Profile,
    H264ProfileIdc, H264ProfileLevel, H265_LEVELS, H265_PROFILES, H265Level, H265Profile,
    H266_LEVELS, H266_PROFILES, H266Level, H266Profile, TIERS, Tier,
};
use rtp_wire::{Frequency, Pt};
use sdp_formats_rows::PayloadParams;
use serde::{Deserialize, Serialize};
use std::alloc::Global;

/// What a recorder keeps of a stream: its payload type, its clock rate, its codec, and the profile, by itself and with
/// the level.
type Track = (
    Pt,
    Frequency,
    Codec,
    (H264ProfileIdc, Option<H264ProfileLevel>),
);

/// Each profile, tier and level.
#[derive(PartialEq, Drop, Serialize, Deserialize)]
struct Tables {
    h264_profiles: Vec<H264Profile>,
    h264_profile_idcs: Vec<H264ProfileIdc>,
    h264_levels: Vec<H264LevelIdc>,
    tiers: Vec<Tier>,
    h265_profiles: Vec<H265Profile>,
    h265_levels: Vec<H265Level>,
    h266_profiles: Vec<H266Profile>,
    h266_levels: Vec<H266Level>,
}

fn all_tables(alloc: Global) -> anyhow::Result<Tables> {
    Ok(Tables {
        h264_profiles: Vec::from_array(alloc, H264_PROFILES)?,
        h264_profile_idcs: Vec::from_array(alloc, H264_PROFILE_IDCS)?,
        h264_levels: Vec::from_array(alloc, H264_LEVELS)?,
        tiers: Vec::from_array(alloc, TIERS)?,
        h265_profiles: Vec::from_array(alloc, H265_PROFILES)?,
        h265_levels: Vec::from_array(alloc, H265_LEVELS)?,
        h266_profiles: Vec::from_array(alloc, H266_PROFILES)?,
        h266_levels: Vec::from_array(alloc, H266_LEVELS)?,
    })
}

/// Prints the JSON of each profile, tier and level, and whether all are read back as they are.
pub(crate) fn print_tables(rt: &HostRuntime) -> anyhow::Result<()> {
    let tables = all_tables(rt.alloc())?;
    let text = serde_json::to_string(rt.alloc(), &tables)?;
    let again: Tables = serde_json::from_str(rt.alloc(), text.as_str())?;
    let same = again == tables;
    Ok(println!(*rt; "tables {text}\n  read back as they are: {same}")?)
}

/// Prints the JSON of a track, and whether it is read back as it is.
pub(crate) fn print_track(rt: &HostRuntime) -> anyhow::Result<()> {
    let level = H264ProfileLevel::try_from(0x42E01F).ok();
    let profile = (H264ProfileIdc::X42, level);
    let track: Track = (Pt::from(102), Frequency::NINETY_KHZ, Codec::H264, profile);
    let text = serde_json::to_string(rt.alloc(), &track)?;
    let again: Track = serde_json::from_str(rt.alloc(), text.as_str())?;
    let same = again == track;
    Ok(println!(*rt; "track: {text}, read back as it is: {same}")?)
}

/// Prints how long the JSON of a list of rows is, and whether the list is read back as it is.
pub(crate) fn print_list(rt: &HostRuntime) -> anyhow::Result<()> {
    let rows = vec![in rt.alloc(); row_of(Codec::Opus), every_field()]?;
    let text = serde_json::to_string(rt.alloc(), &rows)?;
    let again: Vec<PayloadParams> = serde_json::from_str(rt.alloc(), text.as_str())?;
    let same = serde_json::to_string(rt.alloc(), &again)? == text;
    let (count, len) = (rows.len(), text.len());
    Ok(println!(*rt; "list: {count} rows in {len} bytes\n  read back as it is: {same}")?)
}

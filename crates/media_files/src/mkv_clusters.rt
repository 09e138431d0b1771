//! The clusters of a Matroska file, written one by one, and what is in front of them (RFC 9559).

ghost use Rattle.std.specs.Prelude.{◌≡◌, ◌≢◌, ◌+◌, ◌*◌, ◌/◌, ◌<◌, ◌≤◌, ◌^◌, ◌++◌, ◌⊎◌, [], IfErr, OnOk, length, map};
ghost use Rattle.media_files.specs.Mkv.{closed, cluster, kept, mkv_front, segment_front, simple_block};
ghost use Rattle.media_files.specs.MkvViews.{block_shown, track_shown};

use crate::ebml::{push_element, push_element_front};
use crate::errors::RecordingError;
use crate::mkv::{
    MkvBlock, SEGMENT, TRACKS, close_cluster, push_block, push_cluster, push_header, push_info,
};
use crate::mkv_tracks::{MkvTrack, push_tracks};
use std::alloc::{AllocError, Global};

/// The blocks of a second whose cluster isn't written yet.
#[derive(Debug, Drop)]
pub struct MkvClusters {
    second: u64,
    blocks: Vec<u8>,
    ghost early: { 1000 * second < 2 ^ 64 },
}

impl MkvClusters {
    /// No blocks yet.
    pub fn new(alloc: Global) -> MkvClusters
        ensures second { result.second ≡ 0 }
        ensures blocks { result.blocks.items ≡ [] }
    {
        MkvClusters {
            second: 0,
            blocks: Vec::new(alloc),
        }
    }

    /// Takes a block, and writes the cluster of those before it if it is of another second.
    ///
    /// # Errors
    /// There is no memory for it; then a part of the cluster may be written.
    pub fn push(
        &mut self,
        alloc: Global,
        block: &MkvBlock<'_>,
        out: &mut Vec<u8>,
    ) -> Result<(), AllocError>
        ensures written { OnOk result (out.new.items ≡ out.old.items
            ++ closed self.old.second (block.now.time / 1000) self.old.blocks.items) }
        ensures second { OnOk result (self.new.second ≡ block.now.time / 1000) }
        ensures blocks { OnOk result (self.new.blocks.items
            ≡ kept self.old.second (block.now.time / 1000) self.old.blocks.items
            ++ simple_block (block_shown block.now)) }
    {
        let next = block.time / 1000;
        close_cluster(alloc, self.second, next, &mut self.blocks, out)?;
        self.second = next;
        push_block(alloc, block, &mut self.blocks)
    }

    /// Writes the last cluster.
    ///
    /// # Errors
    /// There is no memory for it.
    pub fn finish(self, alloc: Global, out: &mut Vec<u8>) -> Result<(), AllocError>
        ensures { OnOk result (out.new.items ≡ out.old.items ++ cluster self.second self.blocks.items) }
    {
        push_cluster(alloc, self.second, &self.blocks, out)
    }
}

/// Writes what a segment has in front of its clusters.
#[tactic(auto, unfolding(crate::specs::Mkv::segment_front))]
fn push_segment_front(
    alloc: Global,
    duration: u64,
    tracks: &[MkvTrack<'_>],
    out: &mut Vec<u8>,
) -> Result<(), AllocError>
    requires short { duration < 2 ^ 53 }
    requires few { length tracks.now < 127 }
    ensures { OnOk result (out.new.items ≡ out.old.items ++ segment_front duration (map track_shown tracks.now)) }
{
    let mut entries = Vec::new(alloc);
    push_tracks(alloc, tracks, &mut entries)?;
    push_info(alloc, duration, out)?;
    push_element(&TRACKS, &entries, out)
}

/// Writes what a file has in front of its clusters, which have this many bytes: its header, and of its segment the
/// information and the tracks. The file lasts so many milliseconds.
///
/// # Errors
/// There are more than 126 tracks, the duration has more than 53 bits, the segment has 2^56 - 1 bytes or more, or there
/// is no memory for it.
#[tactic(auto, unfolding(crate::specs::Mkv::mkv_front))]
pub fn push_mkv_front(
    alloc: Global,
    duration: u64,
    tracks: &[MkvTrack<'_>],
    clusters_len: u64,
    out: &mut Vec<u8>,
) -> Result<(), RecordingError>
    ensures written { OnOk result (out.new.items ≡ out.old.items
        ++ mkv_front duration (map track_shown tracks.now) clusters_len) }
    ensures few { OnOk result (length tracks.now < 127) }
    ensures short { OnOk result (duration < 2 ^ 53) }
    ensures fits { OnOk result (length (segment_front duration (map track_shown tracks.now)) + clusters_len
        < 72057594037927935) }
    ensures refused { IfErr result (λ e. e ≢ RecordingError.Memory → (e ≡ RecordingError.TooLong)
        × ((127 ≤ length tracks.now) ⊎ (9007199254740992 ≤ duration)
        ⊎ (72057594037927935 ≤ length (segment_front duration (map track_shown tracks.now)) + clusters_len))) }
{
    if tracks.len() > 126 || duration >= 9007199254740992 {
        return Err(RecordingError::TooLong);
    }
    let mut front = Vec::new(alloc);
    push_segment_front(alloc, duration, tracks, &mut front)?;
    let len = (front.len() as u64).saturating_add(clusters_len);
    if len >= 72057594037927935 {
        return Err(RecordingError::TooLong);
    }
    push_header(alloc, out)?;
    push_element_front(&SEGMENT, len, out)?;
    out.extend_from_slice(&front)?;
    Ok(())
}

//! Matroska files (RFC 9559).

ghost use Rattle.std.specs.Prelude.{◌≡◌, ◌≢◌, ◌*◌, ◌<◌, ◌++◌, ◌^◌, [], IfErr, IfOk, OnOk, length, map};
ghost use Rattle.media_files.specs.Mkv.{IsTooMuch, clock_of, closed, cluster, clusters_after, document_type};
ghost use Rattle.media_files.specs.Mkv.{ebml_header, ebml_versions, info, kept, mkv_file, segment, simple_block};
ghost use Rattle.media_files.specs.Mkv.{writers};
ghost use Rattle.media_files.specs.MkvViews.{block_shown, track_shown};

use crate::ebml::{push_double, push_element, push_u16_be, push_uint};
use crate::errors::RecordingError;
use crate::mkv_tracks::{MkvTrack, push_tracks};
use std::alloc::{AllocError, Global};

// The IDs of elements that hold others.
const HEADER: [u8; 4] = [0x1a, 0x45, 0xdf, 0xa3];

pub(crate) const SEGMENT: [u8; 4] = [0x18, 0x53, 0x80, 0x67];

const INFO: [u8; 4] = [0x15, 0x49, 0xa9, 0x66];

pub(crate) const TRACKS: [u8; 4] = [0x16, 0x54, 0xae, 0x6b];

const CLUSTER: [u8; 4] = [0x1f, 0x43, 0xb6, 0x75];

/// A frame of a track.
#[derive(Debug, Clone, Copy)]
pub struct MkvBlock<'a> {
    /// The number of its track, from 1.
    pub track: u8,
    /// When it is seen or heard, in milliseconds.
    pub time: u64,
    /// Whether it can be decoded alone.
    pub is_key: bool,
    /// Its bytes.
    pub bytes: &'a [u8],
}

/// Writes the versions of the header.
#[tactic(auto, unfolding(crate::specs::Mkv::ebml_versions))]
fn push_versions(out: &mut Vec<u8>) -> Result<(), AllocError>
    ensures { OnOk result (out.new.items ≡ out.old.items ++ ebml_versions) }
{
    push_uint(&[0x42, 0x86], 1, out)?;
    push_uint(&[0x42, 0xf7], 1, out)?;
    push_uint(&[0x42, 0xf2], 4, out)?;
    push_uint(&[0x42, 0xf3], 8, out)
}

/// Writes the document type of the header.
#[tactic(auto, unfolding(crate::specs::Mkv::document_type))]
fn push_document_type(out: &mut Vec<u8>) -> Result<(), AllocError>
    ensures { OnOk result (out.new.items ≡ out.old.items ++ document_type) }
{
    push_element(&[0x42, 0x82], b"matroska", out)?;
    push_uint(&[0x42, 0x87], 4, out)?;
    push_uint(&[0x42, 0x85], 2, out)
}

/// Writes the header.
#[tactic(auto, unfolding(crate::specs::Mkv::ebml_header))]
pub(crate) fn push_header(alloc: Global, out: &mut Vec<u8>) -> Result<(), AllocError>
    ensures { OnOk result (out.new.items ≡ out.old.items ++ ebml_header) }
{
    let mut inner = Vec::new(alloc);
    push_versions(&mut inner)?;
    push_document_type(&mut inner)?;
    push_element(&HEADER, &inner, out)
}

/// Writes what a tick is, and the duration.
#[tactic(auto, unfolding(crate::specs::Mkv::clock_of))]
fn push_clock(duration: u64, out: &mut Vec<u8>) -> Result<(), AllocError>
    requires { duration < 2 ^ 53 }
    ensures { OnOk result (out.new.items ≡ out.old.items ++ clock_of duration) }
{
    push_uint(&[0x2a, 0xd7, 0xb1], 1000000, out)?;
    push_double(&[0x44, 0x89], duration, out)
}

/// Writes what wrote the file.
#[tactic(auto, unfolding(crate::specs::Mkv::writers))]
fn push_writers(out: &mut Vec<u8>) -> Result<(), AllocError>
    ensures { OnOk result (out.new.items ≡ out.old.items ++ writers) }
{
    push_element(&[0x4d, 0x80], b"media_files", out)?;
    push_element(&[0x57, 0x41], b"media_files", out)
}

/// Writes the information.
#[tactic(auto, unfolding(crate::specs::Mkv::info))]
pub(crate) fn push_info(alloc: Global, duration: u64, out: &mut Vec<u8>) -> Result<(), AllocError>
    requires { duration < 2 ^ 53 }
    ensures { OnOk result (out.new.items ≡ out.old.items ++ info duration) }
{
    let mut inner = Vec::new(alloc);
    push_clock(duration, &mut inner)?;
    push_writers(&mut inner)?;
    push_element(&INFO, &inner, out)
}

/// Writes a block.
#[tactic(auto, unfolding(crate::specs::Mkv::simple_block))]
pub(crate) fn push_block(
    alloc: Global,
    block: &MkvBlock<'_>,
    out: &mut Vec<u8>,
) -> Result<(), AllocError>
    ensures { OnOk result (out.new.items ≡ out.old.items ++ simple_block (block_shown block.now)) }
{
    let mut inner = Vec::new(alloc);
    inner.push(128 + block.track % 128)?;
    push_u16_be((block.time % 1000) as u16, &mut inner)?;
    inner.push(if block.is_key { 128 } else { 0 })?;
    inner.extend_from_slice(block.bytes)?;
    push_element(&[0xa3], &inner, out)
}

/// Writes a cluster of blocks that are written already.
#[tactic(auto, unfolding(crate::specs::Mkv::cluster))]
pub(crate) fn push_cluster(
    alloc: Global,
    second: u64,
    blocks: &[u8],
    out: &mut Vec<u8>,
) -> Result<(), AllocError>
    requires { 1000 * second < 2 ^ 64 }
    ensures { OnOk result (out.new.items ≡ out.old.items ++ cluster second blocks.now) }
{
    let mut inner = Vec::new(alloc);
    push_uint(&[0xe7], 1000 * second, &mut inner)?;
    inner.extend_from_slice(blocks)?;
    push_element(&CLUSTER, &inner, out)
}

/// Writes the cluster of a second if the next block is of another one, and begins anew.
pub(crate) fn close_cluster(
    alloc: Global,
    second: u64,
    next: u64,
    blocks: &mut Vec<u8>,
    out: &mut Vec<u8>,
) -> Result<(), AllocError>
    requires { 1000 * second < 2 ^ 64 }
    ensures written { OnOk result (out.new.items ≡ out.old.items ++ closed second next blocks.old.items) }
    ensures kept { OnOk result (blocks.new.items ≡ kept second next blocks.old.items) }
{
    if next == second {
        return Ok(());
    }
    push_cluster(alloc, second, blocks, out)?;
    blocks.clear();
    Ok(())
}

/// Writes the clusters of blocks.
fn push_clusters(
    alloc: Global,
    blocks: &[MkvBlock<'_>],
    out: &mut Vec<u8>,
) -> Result<(), AllocError>
    ensures { OnOk result (out.new.items ≡ out.old.items ++ clusters_after 0 [] (map block_shown blocks.now)) }
{
    let mut second = 0;
    let mut inner = Vec::new(alloc);
    for block in blocks {
        let next = block.time / 1000;
        close_cluster(alloc, second, next, &mut inner, out)?;
        push_block(alloc, block, &mut inner)?;
        second = next;
    }
    push_cluster(alloc, second, &inner, out)
}

/// Writes what a segment holds.
#[tactic(auto, unfolding(crate::specs::Mkv::segment))]
fn push_segment(
    alloc: Global,
    duration: u64,
    tracks: &[MkvTrack<'_>],
    blocks: &[MkvBlock<'_>],
    out: &mut Vec<u8>,
) -> Result<(), AllocError>
    requires short { duration < 2 ^ 53 }
    requires few { length tracks.now < 127 }
    ensures { OnOk result (out.new.items
        ≡ out.old.items ++ segment duration (map track_shown tracks.now) (map block_shown blocks.now)) }
{
    let mut entries = Vec::new(alloc);
    push_tracks(alloc, tracks, &mut entries)?;
    push_info(alloc, duration, out)?;
    push_element(&TRACKS, &entries, out)?;
    push_clusters(alloc, blocks, out)
}

/// The Matroska file of these tracks, numbered from 1 on, and of these blocks, in their order, which is that of their
/// times; it lasts so many milliseconds. A cluster has the blocks of a second.
///
/// # Errors
/// There are more than 126 tracks, the duration has more than 53 bits, the file has 2^56 bytes or more, or there is no
/// memory for it.
#[tactic(auto, unfolding(crate::specs::Mkv::mkv_file))]
pub fn mkv_file(
    alloc: Global,
    duration: u64,
    tracks: &[MkvTrack<'_>],
    blocks: &[MkvBlock<'_>],
) -> Result<Vec<u8>, RecordingError>
    ensures value { IfOk result (λ v. v.items
        ≡ mkv_file duration (map track_shown tracks.now) (map block_shown blocks.now)) }
    ensures few { OnOk result (length tracks.now < 127) }
    ensures short { OnOk result (duration < 2 ^ 53) }
    ensures fits { OnOk result (length (segment duration (map track_shown tracks.now) (map block_shown blocks.now))
        < 72057594037927935) }
    ensures refused { IfErr result (λ e. e ≢ RecordingError.Memory → (e ≡ RecordingError.TooLong)
        × IsTooMuch duration (map track_shown tracks.now) (map block_shown blocks.now)) }
{
    if tracks.len() > 126 || duration >= 9007199254740992 {
        return Err(RecordingError::TooLong);
    }
    let mut segment = Vec::new(alloc);
    push_segment(alloc, duration, tracks, blocks, &mut segment)?;
    if segment.len() as u64 >= 72057594037927935 {
        return Err(RecordingError::TooLong);
    }
    let mut out = Vec::new(alloc);
    push_header(alloc, &mut out)?;
    push_element(&SEGMENT, &segment, &mut out)?;
    Ok(out)
}

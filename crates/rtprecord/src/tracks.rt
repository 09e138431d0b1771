//! The tracks that streams become in a Matroska file.

use crate::files::PRE_SKIP;
use crate::heads::Heads;
use crate::sizes::Size;
use crate::stream::Stream;
use h26x_payload::{Codec, nal_units};
use media_files::{MkvCodec, MkvMedia};
use std::alloc::{AllocError, Global};

/// What a track is made of.
#[derive(Drop)]
pub(crate) struct Track {
    pub(crate) codec: MkvCodec,
    pub(crate) private: Vec<u8>,
    /// Nanoseconds that are not heard, and those to decode after a seek.
    pub(crate) delay: u64,
    pub(crate) preroll: u64,
    pub(crate) media: MkvMedia,
}

impl Track {
    /// A track of pictures.
    fn of_pictures(codec: MkvCodec, size: Size, private: Vec<u8>) -> Track {
        Track {
            codec,
            private,
            delay: 0,
            preroll: 0,
            media: MkvMedia::Video(size.0, size.1),
        }
    }
}

/// Writes parameter sets, each after its length.
pub(crate) fn push_sets(sets: &[Vec<u8>], out: &mut Vec<u8>) -> Result<(), AllocError> {
    for set in sets {
        let len = u16::try_from(set.len()).unwrap_or(u16::MAX);
        out.extend_from_slice(&len.to_be_bytes())?;
        out.extend_from_slice(set)?;
    }
    Ok(())
}

/// The first of them, if they are more than so many.
pub(crate) fn at_most(sets: &[Vec<u8>], most: usize) -> &[Vec<u8>] {
    sets.get(..most).unwrap_or(sets)
}

/// The track of H.264: what its first parameter sets say, and these (ISO/IEC 14496-15 5.3.3).
fn h264_track(alloc: Global, heads: &Heads) -> Result<Option<Track>, AllocError> {
    let Some(first) = heads.sps.first() else {
        return Ok(None);
    };
    let (Some(profile), Some(size)) = (first.get(1..4), heads.size) else {
        return Ok(None);
    };
    if heads.pps.is_empty() {
        return Ok(None);
    }
    let (sps, pps) = (at_most(&heads.sps, 31), at_most(&heads.pps, 255));
    let mut private = Vec::from_slice(alloc, &[1u8])?;
    private.extend_from_slice(profile)?;
    let count = u8::try_from(sps.len()).unwrap_or(31);
    private.extend_from_slice(&[0xffu8, 0xe0 | count])?;
    push_sets(sps, &mut private)?;
    private.push(u8::try_from(pps.len()).unwrap_or(u8::MAX))?;
    push_sets(pps, &mut private)?;
    Ok(Some(Track::of_pictures(MkvCodec::Avc, size, private)))
}

/// The track of H.265: what its first parameter sets say, and these.
fn h265_track(alloc: Global, heads: &Heads) -> Result<Option<Track>, AllocError> {
    let Some(sequence) = heads.hevc else {
        return Ok(None);
    };
    if heads.vps.is_empty() || heads.pps.is_empty() {
        return Ok(None);
    }
    let private = sequence.told(alloc, [&heads.vps, &heads.sps, &heads.pps])?;
    Ok(Some(Track::of_pictures(MkvCodec::Hevc, sequence.size, private)))
}

/// The track of Opus, whose private data is the header of a file (RFC 7845 5.1).
fn opus_track(alloc: Global, channels: u8) -> Result<Track, AllocError> {
    let mut private = Vec::from_slice(alloc, b"OpusHead")?;
    private.extend_from_slice(&[1, channels])?;
    private.extend_from_slice(&PRE_SKIP.to_le_bytes())?;
    private.extend_from_slice(&48000u32.to_le_bytes())?;
    private.extend_from_slice(&[0u8, 0, 0])?;
    Ok(Track {
        codec: MkvCodec::Opus,
        private,
        delay: PRE_SKIP as u64 * 1_000_000_000 / 48000,
        preroll: 80_000_000,
        media: MkvMedia::Audio(48000, channels),
    })
}

/// The track of sound of 8,000 bytes a second, whose private data is a WAVEFORMATEX.
fn sound_track(alloc: Global, tag: u16, rate: u32, bits: u16) -> Result<Track, AllocError> {
    let mut private = Vec::from_slice(alloc, &tag.to_le_bytes())?;
    private.extend_from_slice(&[1u8, 0])?;
    private.extend_from_slice(&rate.to_le_bytes())?;
    private.extend_from_slice(&8000u32.to_le_bytes())?;
    private.extend_from_slice(&[1u8, 0])?;
    private.extend_from_slice(&bits.to_le_bytes())?;
    private.extend_from_slice(&[0u8, 0])?;
    Ok(Track {
        codec: MkvCodec::Acm,
        private,
        delay: 0,
        preroll: 0,
        media: MkvMedia::Audio(rate, 1),
    })
}

/// A track of pictures whose size is known.
fn pictures(codec: MkvCodec, heads: &Heads, private: Vec<u8>) -> Option<Track> {
    Some(Track::of_pictures(codec, heads.size?, private))
}

/// The track of a stream, with the parameter sets that its units lack; None if its codec has none here, or neither says
/// what it needs.
pub(crate) fn track_of(
    alloc: Global,
    stream: &Stream,
    sets: &[Vec<u8>],
) -> Result<Option<Track>, AllocError> {
    let codec = stream.row.codec;
    let told = Heads::of_sets(alloc, codec, sets)?;
    let heads = if told.lack_sets(codec) {
        &stream.heads
    } else {
        &told
    };
    match codec {
        Codec::Vp8 => Ok(pictures(MkvCodec::Vp8, heads, Vec::new(alloc))),
        Codec::Vp9 => Ok(pictures(MkvCodec::Vp9, heads, Vec::new(alloc))),
        Codec::Av1 => Ok(pictures(MkvCodec::Av1, heads, heads.sequence.clone()?)),
        Codec::H264 => h264_track(alloc, heads),
        Codec::H265 => h265_track(alloc, heads),
        Codec::Opus => Ok(Some(opus_track(alloc, stream.row.channels.clamp(1, 2))?)),
        Codec::PCMU => Ok(Some(sound_track(alloc, 7, 8000, 8)?)),
        Codec::PCMA => Ok(Some(sound_track(alloc, 6, 8000, 8)?)),
        Codec::G722 => Ok(Some(sound_track(alloc, 0x028f, 16000, 4)?)),
        _ => Ok(None),
    }
}

/// The bytes of a unit in a track: of H.264 and H.265 each NAL unit after its length in four bytes.
pub(crate) fn framed(alloc: Global, codec: Codec, unit: Vec<u8>) -> Result<Vec<u8>, AllocError> {
    if !matches!(codec, Codec::H264 | Codec::H265) {
        return Ok(unit);
    }
    let mut bytes = Vec::new(alloc);
    for nal in nal_units(&unit) {
        let len = u32::try_from(nal.len()).unwrap_or(u32::MAX);
        bytes.extend_from_slice(&len.to_be_bytes())?;
        bytes.extend_from_slice(nal)?;
    }
    Ok(bytes)
}

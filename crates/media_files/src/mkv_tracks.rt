//! Tracks of Matroska files (RFC 9559 5.1.4).

ghost use Rattle.std.specs.Prelude.{◌≡◌, ◌+◌, ◌++◌, ◌<◌, OnOk, length, map};
ghost use Rattle.media_files.specs.Mkv.{codec_id, kind_of, media_element, private_element, track_codec, track_entries};
ghost use Rattle.media_files.specs.Mkv.{track_entry, track_front};
ghost use Rattle.media_files.specs.MkvViews.{track_shown};

use crate::ebml::{push_double, push_element, push_uint};
use std::alloc::{AllocError, Global};

/// The codec of a track.
#[derive(Debug, Clone, Copy, PartialEq, Eq)]
pub enum MkvCodec {
    /// VP8.
    Vp8,
    /// VP9.
    Vp9,
    /// AV1: temporal units without a temporal delimiter.
    Av1,
    /// H.264: units that each follow their length in four bytes.
    Avc,
    /// H.265: units that each follow their length in four bytes.
    Hevc,
    /// Opus.
    Opus,
    /// A format of WAVEFORMATEX.
    Acm,
}

/// What a track carries.
#[derive(Debug, Clone, Copy, PartialEq, Eq)]
pub enum MkvMedia {
    /// Pictures of this many pixels in width and height.
    Video(u32, u32),
    /// So many samples a second, of this many channels.
    Audio(u32, u8),
}

/// A track of a file.
#[derive(Debug, Clone, Copy)]
pub struct MkvTrack<'a> {
    /// Its codec.
    pub codec: MkvCodec,
    /// What a decoder needs beside the blocks, as the codec's mapping says.
    pub private: &'a [u8],
    /// How many nanoseconds of its front are not heard.
    pub delay: u64,
    /// How many nanoseconds have to be decoded after a seek.
    pub preroll: u64,
    /// What it carries.
    pub media: MkvMedia,
}

/// The name of a codec.
fn codec_id(codec: MkvCodec) -> &'static [u8]
    ensures { result.now ≡ codec_id codec }
{
    match codec {
        MkvCodec::Vp8 => b"V_VP8",
        MkvCodec::Vp9 => b"V_VP9",
        MkvCodec::Av1 => b"V_AV1",
        MkvCodec::Avc => b"V_MPEG4/ISO/AVC",
        MkvCodec::Hevc => b"V_MPEGH/ISO/HEVC",
        MkvCodec::Opus => b"A_OPUS",
        MkvCodec::Acm => b"A_MS/ACM",
    }
}

/// The number of what a track carries.
fn kind_of(media: MkvMedia) -> u64
    ensures { result ≡ kind_of media }
{
    match media {
        MkvMedia::Video(_, _) => 1,
        MkvMedia::Audio(_, _) => 2,
    }
}

/// Writes what a track carries.
#[tactic(auto, unfolding(crate::specs::Mkv::media_element))]
fn push_media(alloc: Global, media: MkvMedia, out: &mut Vec<u8>) -> Result<(), AllocError>
    ensures { OnOk result (out.new.items ≡ out.old.items ++ media_element media) }
{
    let mut inner = Vec::new(alloc);
    match media {
        MkvMedia::Video(width, height) => {
            push_uint(&[0xb0], width as u64, &mut inner)?;
            push_uint(&[0xba], height as u64, &mut inner)?;
            push_element(&[0xe0], &inner, out)
        }
        MkvMedia::Audio(rate, channels) => {
            push_double(&[0xb5], rate as u64, &mut inner)?;
            push_uint(&[0x9f], channels as u64, &mut inner)?;
            push_element(&[0xe1], &inner, out)
        }
    }
}

/// Writes what a codec needs, if it needs something.
fn push_private(private: &[u8], out: &mut Vec<u8>) -> Result<(), AllocError>
    ensures { OnOk result (out.new.items ≡ out.old.items ++ private_element private.now) }
{
    if private.is_empty() {
        return Ok(());
    }
    push_element(&[0x63, 0xa2], private, out)
}

/// Writes a track's number and kind.
#[tactic(auto, unfolding(crate::specs::Mkv::track_front))]
fn push_track_front(number: u64, track: &MkvTrack<'_>, out: &mut Vec<u8>) -> Result<(), AllocError>
    ensures { OnOk result (out.new.items ≡ out.old.items ++ track_front number (track_shown track.now)) }
{
    push_uint(&[0xd7], number, out)?;
    push_uint(&[0x73, 0xc5], number, out)?;
    push_uint(&[0x83], kind_of(track.media), out)?;
    push_uint(&[0x9c], 0, out)
}

/// Writes a track's codec.
#[tactic(auto, unfolding(crate::specs::Mkv::track_codec))]
fn push_track_codec(track: &MkvTrack<'_>, out: &mut Vec<u8>) -> Result<(), AllocError>
    ensures { OnOk result (out.new.items ≡ out.old.items ++ track_codec (track_shown track.now)) }
{
    push_element(&[0x86], codec_id(track.codec), out)?;
    push_private(track.private, out)?;
    push_uint(&[0x56, 0xaa], track.delay, out)?;
    push_uint(&[0x56, 0xbb], track.preroll, out)
}

/// Writes a track.
#[tactic(auto, unfolding(crate::specs::Mkv::track_entry))]
fn push_track(
    alloc: Global,
    number: u64,
    track: &MkvTrack<'_>,
    out: &mut Vec<u8>,
) -> Result<(), AllocError>
    ensures { OnOk result (out.new.items ≡ out.old.items ++ track_entry number (track_shown track.now)) }
{
    let mut inner = Vec::new(alloc);
    push_track_front(number, track, &mut inner)?;
    push_track_codec(track, &mut inner)?;
    push_media(alloc, track.media, &mut inner)?;
    push_element(&[0xae], &inner, out)
}

/// Writes tracks, numbered from 1 on.
pub fn push_tracks(
    alloc: Global,
    tracks: &[MkvTrack<'_>],
    out: &mut Vec<u8>,
) -> Result<(), AllocError>
    requires { length tracks.now < 127 }
    ensures { OnOk result (out.new.items ≡ out.old.items ++ track_entries 1 (map track_shown tracks.now)) }
{
    let mut number = 1;
    for track in tracks {
        push_track(alloc, number, track, out)?;
        number += 1;
    }
    Ok(())
}

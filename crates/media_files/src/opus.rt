//! Opus packets (RFC 6716 3) in Ogg files (RFC 7845).

ghost use Rattle.std.specs.Prelude.{◌≡◌, ◌≢◌, ◌+◌, ◌*◌, ◌^◌, ◌++◌, ◌<◌, ◌≤◌, IfErr, IfOk, OnOk, drop, length, map};
ghost use Rattle.std.specs.Prelude.{take};
ghost use Rattle.std.specs.Prelude.{[], false, Any, option_map, slice_index};
ghost use Rattle.media_files.specs.Opus.{at_most_120_ms, frame_samples, from_sound, head_page, heard_of, is_sound};
ghost use Rattle.media_files.specs.Opus.{IsLong, IsTooMuch, item, kept_of, opus_duration, opus_file, opus_frames};
ghost use Rattle.media_files.specs.Opus.{opus_head};
ghost use Rattle.media_files.specs.Opus.{opus_tags, playing, silence_of, sound, sound_pages, tags_page};
ghost use Rattle.media_files.specs.Ogg.{flags_of, page};
ghost use Rattle.media_files.specs.OggViews.{place_shown};
ghost use Rattle.media_files.specs.OpusViews.{stream_shown};

use crate::errors::RecordingError;
use crate::ogg::{LONGEST_PACKET, PagePlace, push_page};
use media_files_captures::{push_u16, push_u32};
use std::alloc::{AllocError, Global};

// The most samples of a packet, 120 ms at 48,000 a second.
const LONGEST: usize = 5760;

// With the two pages in front, this many packets have pages of their own numbers.
const MOST_PACKETS: usize = 4294967293;

/// A stream of Opus.
#[derive(Debug, Clone, Copy)]
pub struct OpusStream {
    /// 1 or 2 channels.
    pub channels: u8,
    /// How many samples, at 48,000 a second, a player skips in front.
    pub pre_skip: u16,
    /// The serial number of the stream in its file.
    pub serial: u32,
}

/// How many samples, at 48,000 a second, a frame of a configuration has (RFC 6716 3.1).
#[tactic(auto, unfolding(crate::specs::Opus::frame_samples))]
fn frame_samples(config: u8) -> usize
    requires { config < 32 }
    ensures value { result ≡ frame_samples config }
    ensures few { result ≤ 2880 }
{
    match config {
        0 | 4 | 8 | 12 | 14 => 480,
        1 | 5 | 9 | 13 | 15 => 960,
        2 | 6 | 10 => 1920,
        3 | 7 | 11 => 2880,
        16 | 20 | 24 | 28 => 120,
        17 | 21 | 25 | 29 => 240,
        18 | 22 | 26 | 30 => 480,
        _ => 960,
    }
}

/// How many frames a packet has; 0 if it doesn't say (RFC 6716 3.2).
#[tactic(auto, unfolding(crate::specs::Opus::opus_frames))]
fn opus_frames(packet: &[u8]) -> usize
    ensures value { result ≡ opus_frames packet.now }
    ensures few { result < 64 }
    ensures some { 0 < result → 0 < length packet.now }
{
    if packet.is_empty() {
        return 0;
    }
    match packet[0] % 4 {
        0 => 1,
        3 => {
            if packet.len() < 2 {
                return 0;
            }
            (packet[1] % 64) as usize
        }
        _ => 2,
    }
}

/// How many samples, at 48,000 a second, a packet of Opus has; 0 if it is none, as one of more than 120 ms (RFC 6716
/// 3.2.5).
#[tactic(auto, unfolding(crate::specs::Opus::opus_duration))]
pub fn opus_duration(packet: &[u8]) -> usize
    ensures value { result ≡ opus_duration packet.now }
    ensures few { result ≤ 5760 }
{
    let frames = opus_frames(packet);
    if frames == 0 {
        return 0;
    }
    let samples = frames * frame_samples(packet[0] / 8);
    if samples <= LONGEST { samples } else { 0 }
}

/// A packet without sound that is as long as another: its bytes, and how many they are.
#[tactic(auto, unfolding(crate::specs::Opus::silence_of))]
fn silence_of(packet: &[u8]) -> ([u8; 2], usize)
    ensures value { take result.1 result.0 ≡ silence_of packet.now }
    ensures few { result.1 ≤ 2 }
{
    if packet.is_empty() {
        return ([0, 0], 0);
    }
    let first = packet[0];
    if first % 4 == 2 {
        return ([first - 1, 0], 1);
    }
    if first % 4 == 3 && packet.len() > 1 {
        return ([first, packet[1] % 64], 2);
    }
    ([first, 0], 1)
}

/// A packet with a valid duration.
#[tactic(auto, unfolding(crate::specs::Opus::sound))]
pub(crate) fn sound<'a>(packet: Option<&'a [u8]>) -> Option<&'a [u8]>
    ensures { item result ≡ sound (item packet.entry) }
{
    let Some(bytes) = packet else {
        return None;
    };
    if opus_duration(bytes) == 0 {
        return None;
    }
    Some(bytes)
}

/// How many packets precede the first valid one.
fn lost_in_front(packets: &[Option<&[u8]>]) -> usize
    ensures value { map item (drop result packets.now) ≡ from_sound (map item packets.now) }
    ensures within { result ≤ length packets.now }
{
    for (i, packet) in packets.iter().enumerate() {
        if sound(*packet).is_some() {
            return i;
        }
    }
    packets.len()
}

/// Writes the header.
#[tactic(auto, unfolding(crate::specs::Opus::opus_head))]
fn push_head(stream: OpusStream, out: &mut Vec<u8>) -> Result<(), AllocError>
    ensures { OnOk result (out.new.items ≡ out.old.items ++ opus_head (stream_shown stream)) }
{
    out.extend_from_slice(b"OpusHead")?;
    out.extend_from_slice(&[1, stream.channels])?;
    push_u16(out, stream.pre_skip)?;
    push_u32(out, 48000)?;
    push_u16(out, 0)?;
    out.extend_from_slice(&[0])
}

/// Writes the comments.
#[tactic(auto, unfolding(crate::specs::Opus::opus_tags))]
fn push_tags(out: &mut Vec<u8>) -> Result<(), AllocError>
    ensures { OnOk result (out.new.items ≡ out.old.items ++ opus_tags) }
{
    out.extend_from_slice(b"OpusTags")?;
    push_u32(out, 11)?;
    out.extend_from_slice(b"media_files")?;
    push_u32(out, 0)
}

/// Writes the page of the header.
pub(crate) fn push_head_page(
    alloc: Global,
    stream: OpusStream,
    out: &mut Vec<u8>,
) -> Result<(), AllocError>
    ensures { OnOk result (out.new.items ≡ out.old.items ++ head_page (stream_shown stream)) }
{
    let mut head = Vec::new(alloc);
    push_head(stream, &mut head)?;
    let place = PagePlace {
        flags: 2,
        granule: 0,
        serial: stream.serial,
        sequence: 0,
    };
    push_page(alloc, &place, &head, out)
}

/// The flag of the last page of a stream.
pub(crate) fn last_flag(is_last: bool) -> u8
    ensures { result ≡ flags_of false is_last }
{
    if is_last { 4 } else { 0 }
}

/// Writes the page of the comments.
pub(crate) fn push_tags_page(
    alloc: Global,
    serial: u32,
    is_last: bool,
    out: &mut Vec<u8>,
) -> Result<(), AllocError>
    ensures { OnOk result (out.new.items ≡ out.old.items ++ tags_page serial is_last) }
{
    let mut tags = Vec::new(alloc);
    push_tags(&mut tags)?;
    let place = PagePlace {
        flags: last_flag(is_last),
        granule: 0,
        serial,
        sequence: 1,
    };
    push_page(alloc, &place, &tags, out)
}

/// Writes the page of a packet, or of silence as long as the one before.
pub(crate) fn push_heard(
    alloc: Global,
    place: &PagePlace,
    packet: Option<&[u8]>,
    previous: &[u8],
    out: &mut Vec<u8>,
) -> Result<(), RecordingError>
    ensures value { OnOk result (out.new.items ≡ out.old.items
        ++ page (place_shown place.now) (heard_of (item packet.entry) previous.now)) }
    ensures refused { IfErr result (λ e. e ≢ RecordingError.Memory → (e ≡ RecordingError.TooLong)
        × IsLong (item packet.entry)) }
{
    let Some(bytes) = packet else {
        let (silence, len) = silence_of(previous);
        push_page(alloc, place, &silence[..len], out)?;
        return Ok(());
    };
    if bytes.len() > LONGEST_PACKET {
        return Err(RecordingError::TooLong);
    }
    push_page(alloc, place, bytes, out)?;
    Ok(())
}

/// The Ogg Opus file of these packets, in their order, of which None is one that was lost (RFC 7845). A packet that
/// is lost or no packet of Opus becomes silence as long as the one before it, so that time goes on; those in front of
/// the first packet are left out. The granule positions begin with 0 in front of the first packet, and count what a
/// player skips.
///
/// # Errors
/// A packet has more than 65,024 bytes, there are 2^32 - 2 packets or more, or there is no memory for the file.
pub fn opus_file(
    alloc: Global,
    stream: OpusStream,
    packets: &[Option<&[u8]>],
) -> Result<Vec<u8>, RecordingError>
    ensures value { IfOk result (λ v. v.items ≡ opus_file (stream_shown stream) (map item packets.now)) }
    ensures few { OnOk result (length packets.now ≤ 4294967293) }
    ensures refused { IfErr result (λ e. e ≢ RecordingError.Memory
        → (e ≡ RecordingError.TooLong) × IsTooMuch (map item packets.now)) }
{
    if packets.len() > MOST_PACKETS {
        return Err(RecordingError::TooLong);
    }
    let (_lost, packets) = packets.split_at(lost_in_front(packets));
    let mut out = Vec::new(alloc);
    push_head_page(alloc, stream, &mut out)?;
    push_tags_page(alloc, stream.serial, packets.is_empty(), &mut out)?;
    push_sounds(alloc, stream.serial, packets, &mut out)?;
    Ok(out)
}

/// Writes the pages of packets.
fn push_sounds(
    alloc: Global,
    serial: u32,
    packets: &[Option<&[u8]>],
    out: &mut Vec<u8>,
) -> Result<(), RecordingError>
    requires { length packets.now ≤ 4294967293 }
    ensures value { OnOk result (out.new.items ≡ out.old.items
        ++ sound_pages serial (playing [] 0 2) (map item packets.now)) }
    ensures refused { IfErr result (λ e. e ≢ RecordingError.Memory
        → (e ≡ RecordingError.TooLong) × Any IsLong (map item packets.now)) }
{
    let mut previous: &[u8] = &[];
    let mut granule = 0;
    let mut sequence = 2;
    for (i, packet) in packets.iter().enumerate() {
        let found = sound(*packet);
        let kept = found.unwrap_or(previous);
        granule += opus_duration(kept) as u64;
        let place = PagePlace {
            flags: last_flag(i + 1 == packets.len()),
            granule,
            serial,
            sequence,
        };
        push_heard(alloc, &place, found, previous, out)?;
        previous = kept;
        sequence += 1;
    }
    Ok(())
}

//! IVF files of VP8, VP9 and AV1.

ghost use Rattle.std.specs.Prelude.{◌≡◌, ◌≢◌, ◌+◌, ◌-◌, ◌^◌, ◌++◌, ◌<◌, ◌≤◌, IfErr, IfOk, OnOk, fold, length, map};
ghost use Rattle.media_files.specs.Ivf.{AllFit, first_time, first_vp8_size, fourcc, framed, IsTooMuch, ivf_file};
ghost use Rattle.media_files.specs.Ivf.{ivf_frame, ivf_header};
ghost use Rattle.media_files.specs.Ivf.{clock, nearest_time, picture_size, size_of, signature, sized, span_of};
ghost use Rattle.media_files.specs.Ivf.{ticks_of, time_after, vp8_size};
ghost use Rattle.media_files.specs.Units.{timed};

use crate::errors::RecordingError;
use crate::units::{TEMPORAL_DELIMITER, TimedUnit};
use media_files_captures::{ByteOrder, push_u16, push_u32, push_u64, u16_at};
use std::alloc::{AllocError, Global};

/// The codec of a file.
#[derive(Debug, Clone, Copy, PartialEq, Eq)]
pub enum IvfCodec {
    /// VP8 (RFC 6386).
    Vp8,
    /// VP9.
    Vp9,
    /// AV1, whose temporal units get a temporal delimiter in front.
    Av1,
}

/// The four characters of a codec.
fn fourcc(codec: IvfCodec) -> [u8; 4]
    ensures { result ≡ fourcc codec }
{
    match codec {
        IvfCodec::Vp8 => *b"VP80",
        IvfCodec::Vp9 => *b"VP90",
        IvfCodec::Av1 => *b"AV01",
    }
}

/// Width and height in a key frame of VP8 (RFC 6386 9.1).
#[tactic(auto, unfolding(crate::specs::Ivf::vp8_size))]
fn vp8_size(frame: &[u8]) -> Option<(u16, u16)>
    ensures { sized result ≡ vp8_size frame.now }
{
    if frame.len() < 10 {
        return None;
    }
    if frame[0] % 2 != 0 || frame[3] != 0x9d || frame[4] != 1 || frame[5] != 0x2a {
        return None;
    }
    Some((
        u16_at(ByteOrder::Little, frame, 6) % 16384,
        u16_at(ByteOrder::Little, frame, 8) % 16384,
    ))
}

/// Width and height in the first key frame of VP8, and 0 if there is none.
fn first_vp8_size(frames: &[TimedUnit<'_>]) -> (u16, u16)
    ensures { size_of result.0 result.1 ≡ first_vp8_size (map timed frames.now) }
{
    for frame in frames {
        if let Some(size) = vp8_size(frame.bytes) {
            return size;
        }
    }
    (0, 0)
}

/// Width and height of the pictures, if the frames say it in their first bytes, else 0.
fn picture_size(codec: IvfCodec, frames: &[TimedUnit<'_>]) -> (u16, u16)
    ensures { size_of result.0 result.1 ≡ picture_size codec (map timed frames.now) }
{
    match codec {
        IvfCodec::Vp8 => first_vp8_size(frames),
        IvfCodec::Vp9 | IvfCodec::Av1 => (0, 0),
    }
}

/// Writes what a header has in front of the width: signature, version, length and codec.
#[tactic(auto, unfolding(crate::specs::Ivf::signature))]
fn push_signature(codec: IvfCodec, out: &mut Vec<u8>) -> Result<(), AllocError>
    ensures { OnOk result (out.new.items ≡ out.old.items ++ signature codec) }
{
    out.extend_from_slice(b"DKIF")?;
    push_u16(out, 0)?;
    push_u16(out, 32)?;
    out.extend_from_slice(&fourcc(codec))
}

/// Writes what a header has after the height: the clock, the length in ticks and four bytes that are not used.
#[tactic(auto, unfolding(crate::specs::Ivf::clock))]
fn push_clock(rate: u32, ticks: u32, out: &mut Vec<u8>) -> Result<(), AllocError>
    ensures { OnOk result (out.new.items ≡ out.old.items ++ clock rate ticks) }
{
    push_u32(out, rate)?;
    push_u32(out, 1)?;
    push_u32(out, ticks)?;
    push_u32(out, 0)
}

/// Writes the header of a file.
#[tactic(auto, unfolding(crate::specs::Ivf::ivf_header))]
pub(crate) fn push_header(
    codec: IvfCodec,
    size: (u16, u16),
    rate: u32,
    ticks: u32,
    out: &mut Vec<u8>,
) -> Result<(), AllocError>
    ensures { OnOk result (out.new.items ≡ out.old.items ++ ivf_header codec (size_of size.0 size.1) rate ticks) }
{
    push_signature(codec, out)?;
    push_u16(out, size.0)?;
    push_u16(out, size.1)?;
    push_clock(rate, ticks, out)
}

/// How many bytes a unit has in a file.
fn framed_len(codec: IvfCodec, unit: &[u8]) -> usize
    requires { length unit.now < 2 ^ 63 }
    ensures { result ≡ length (framed codec unit.now) }
{
    match codec {
        IvfCodec::Vp8 | IvfCodec::Vp9 => unit.len(),
        IvfCodec::Av1 => unit.len() + 2,
    }
}

/// Writes the bytes of a unit, of AV1 after a temporal delimiter.
fn push_framed(codec: IvfCodec, unit: &[u8], out: &mut Vec<u8>) -> Result<(), RecordingError>
    ensures value { OnOk result (out.new.items ≡ out.old.items ++ framed codec unit.now) }
    ensures refused { IfErr result (λ e. e ≡ RecordingError.Memory) }
{
    if codec == IvfCodec::Av1 {
        out.extend_from_slice(&TEMPORAL_DELIMITER)?;
    }
    out.extend_from_slice(unit)?;
    Ok(())
}

/// Writes a frame.
pub(crate) fn push_frame(
    codec: IvfCodec,
    time: u64,
    unit: &[u8],
    out: &mut Vec<u8>,
) -> Result<(), RecordingError>
    ensures value { OnOk result (out.new.items ≡ out.old.items ++ ivf_frame time (framed codec unit.now)) }
    ensures fits { OnOk result (length (framed codec unit.now) < 4294967296) }
    ensures refused { IfErr result (λ e. e ≢ RecordingError.Memory → (e ≡ RecordingError.TooLong)
        × (2 ^ 32 ≤ length (framed codec unit.now))) }
{
    let Ok(len) = u32::try_from(framed_len(codec, unit)) else {
        return Err(RecordingError::TooLong);
    };
    push_u32(out, len)?;
    push_u64(out, time)?;
    push_framed(codec, unit, out)?;
    Ok(())
}

/// The time nearest to the previous one with these low 32 bits, but never below 0.
#[tactic(auto, unfolding(crate::specs::Ivf::nearest_time))]
pub(crate) fn nearest_time(previous: u64, low: u32) -> u64
    requires { previous + 2147483648 < 2 ^ 64 }
    ensures value { result ≡ nearest_time previous low }
    ensures near { result < previous + 2147483648 }
{
    let ahead = low.wrapping_sub((previous % 4294967296) as u32) as u64;
    if ahead < 2147483648 {
        previous + ahead
    } else {
        previous.saturating_sub(4294967296 - ahead)
    }
}

/// The time of the first frame, on a clock that has room for earlier ones.
fn first_time(frames: &[TimedUnit<'_>]) -> u64
    ensures value { result ≡ first_time (map timed frames.now) }
    ensures low { result < 8589934592 }
{
    match frames.first() {
        Some(frame) => 4294967296 + frame.time as u64,
        None => 0,
    }
}

/// The time of the last frame, on the clock of the first.
fn last_time(first: u64, frames: &[TimedUnit<'_>]) -> u64
    requires start { first < 8589934592 }
    requires few { length frames.now < 4294967296 }
    ensures { result ≡ fold time_after first (map timed frames.now) }
{
    let mut previous = first;
    for frame in frames {
        previous = nearest_time(previous, frame.time);
    }
    previous
}

/// How many ticks this many frames last, of which the last one begins so many after the first.
#[tactic(auto, unfolding(crate::specs::Ivf::ticks_of))]
pub(crate) fn ticks_of(count: u32, span: u64) -> u32
    ensures { result ≡ ticks_of count span }
{
    if count < 2 {
        return 0;
    }
    let ticks = span as u128 + (span / (count - 1) as u64) as u128;
    ticks.min(4294967295) as u32
}

/// The IVF file of these frames, in their order, at so many ticks a second (90,000 for video over RTP). Times are
/// unwrapped and counted from the first frame, and are 0 for what lies before it. The header has the width and height
/// of the first key frame of VP8, else 0, and how many ticks the frames last, the last one as long as the others are
/// on average.
///
/// # Errors
/// A frame has 2^32 bytes or more, there are 2^32 frames or more, or there is no memory for the file.
pub fn ivf_file(
    alloc: Global,
    codec: IvfCodec,
    rate: u32,
    frames: &[TimedUnit<'_>],
) -> Result<Vec<u8>, RecordingError>
    ensures value { IfOk result (λ v. v.items ≡ ivf_file codec rate (map timed frames.now)) }
    ensures few { OnOk result (length frames.now < 4294967296) }
    ensures fits { OnOk result (AllFit codec (map timed frames.now)) }
    ensures refused { IfErr result (λ e. e ≢ RecordingError.Memory
        → (e ≡ RecordingError.TooLong) × IsTooMuch codec (map timed frames.now)) }
{
    if frames.len() > u32::MAX as usize {
        return Err(RecordingError::TooLong);
    }
    let first = first_time(frames);
    let span = last_time(first, frames).saturating_sub(first);
    let ticks = ticks_of(frames.len() as u32, span);
    let mut out = Vec::new(alloc);
    push_header(codec, picture_size(codec, frames), rate, ticks, &mut out)?;
    let mut previous = first;
    for frame in frames {
        let time = nearest_time(previous, frame.time);
        push_frame(codec, time.saturating_sub(first), frame.bytes, &mut out)?;
        previous = time;
    }
    Ok(out)
}

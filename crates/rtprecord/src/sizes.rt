//! Sizes of pictures in the headers of VP8, VP9 and H.264.

use crate::bits::Bits;
use std::alloc::{AllocError, Global};

/// Width and height in pixels.
pub(crate) type Size = (u32, u32);

/// The size in a key frame of VP8 (RFC 6386 9.1).
pub(crate) fn vp8_size(frame: &[u8]) -> Option<Size> {
    let start = frame.get(3..6)?;
    if *frame.first()? % 2 != 0 || start != [0x9du8, 1, 0x2a].as_slice() {
        return None;
    }
    let width = *frame.get(6)? as u32 | (*frame.get(7)? as u32 % 64) << 8;
    let height = *frame.get(8)? as u32 | (*frame.get(9)? as u32 % 64) << 8;
    Some((width, height))
}

/// The size in a key frame of VP9 (VP9 bitstream specification 6.2).
pub(crate) fn vp9_size(frame: &[u8]) -> Option<Size> {
    let mut bits = Bits::new(frame);
    if bits.take(2)? != 2 {
        return None;
    }
    let profile = bits.take(1)? | bits.take(1)? << 1;
    if profile == 3 {
        bits.skip(1)?;
    }
    if bits.flag()? || bits.flag()? {
        return None;
    }
    bits.skip(2)?;
    if bits.take(24)? != 0x49_83_42 {
        return None;
    }
    skip_color(&mut bits, profile)?;
    Some((
        bits.take(16)?.checked_add(1)?,
        bits.take(16)?.checked_add(1)?,
    ))
}

/// Passes over what a key frame of VP9 says of colours.
fn skip_color(bits: &mut Bits<'_>, profile: u32) -> Option<()> {
    if profile >= 2 {
        bits.skip(1)?;
    }
    let is_rgb = bits.take(3)? == 7;
    if !is_rgb {
        bits.skip(1)?;
    }
    if profile % 2 == 1 {
        bits.skip(if is_rgb { 1 } else { 3 })?;
    }
    Some(())
}

/// Whether a frame of VP9 is a key frame.
pub(crate) fn is_vp9_key(frame: &[u8]) -> bool {
    vp9_size(frame).is_some()
}

/// A NAL unit without the bytes that keep start codes out of it (H.264 7.4.1).
pub(crate) fn without_emulation(alloc: Global, unit: &[u8]) -> Result<Vec<u8>, AllocError> {
    let mut bytes = Vec::new(alloc);
    let mut zeros = 0u8;
    for byte in unit {
        if zeros >= 2 && *byte == 3 {
            zeros = 0;
            continue;
        }
        zeros = if *byte == 0 {
            zeros.saturating_add(1)
        } else {
            0
        };
        bytes.push(*byte)?;
    }
    Ok(bytes)
}

/// Passes over a list of scaling factors (H.264 7.3.2.1.1.1).
fn skip_scaling(bits: &mut Bits<'_>, count: u32) -> Option<()> {
    let (mut last, mut next) = (8i64, 8i64);
    for _ in 0..count {
        if next != 0 {
            let code = bits.code()?;
            let half = (code / 2) as i64;
            let ahead = if code % 2 == 1 {
                half.saturating_add(1)
            } else {
                half.saturating_neg()
            };
            next = last.saturating_add(ahead).rem_euclid(256);
        }
        if next != 0 {
            last = next;
        }
    }
    Some(())
}

/// Passes over so many lists of this many scaling factors, each if it is there.
fn skip_lists(bits: &mut Bits<'_>, lists: u8, count: u32) -> Option<()> {
    for _ in 0..lists {
        if bits.flag()? {
            skip_scaling(bits, count)?;
        }
    }
    Some(())
}

/// The format of the colours in a set of sequence parameters, 1 if its profile has no other.
fn chroma_format(bits: &mut Bits<'_>, profile: u32) -> Option<u32> {
    if !matches!(
        profile,
        100 | 110 | 122 | 244 | 44 | 83 | 86 | 118 | 128 | 138 | 139 | 134 | 135
    ) {
        return Some(1);
    }
    let format = bits.code()?;
    if format == 3 {
        bits.skip(1)?;
    }
    bits.skip_codes(2)?;
    bits.skip(1)?;
    if bits.flag()? {
        let large = if format == 3 { 6u8 } else { 2 };
        skip_lists(bits, 6, 16)?;
        skip_lists(bits, large, 64)?;
    }
    Some(format)
}

/// Passes over the order of pictures in a set of sequence parameters.
fn skip_order(bits: &mut Bits<'_>) -> Option<()> {
    match bits.code()? {
        0 => bits.skip_codes(1),
        1 => {
            bits.skip(1)?;
            bits.skip_codes(2)?;
            let count = bits.code()?;
            bits.skip_codes(count.min(255))
        }
        _ => Some(()),
    }
}

/// The size in the fields of a set of sequence parameters (H.264 7.3.2.1.1).
fn sps_size(bytes: &[u8]) -> Option<Size> {
    let mut bits = Bits::new(bytes);
    bits.skip(8)?;
    let profile = bits.take(8)?;
    bits.skip(16)?;
    bits.skip_codes(1)?;
    let format = chroma_format(&mut bits, profile)?;
    bits.skip_codes(1)?;
    skip_order(&mut bits)?;
    bits.skip_codes(1)?;
    bits.skip(1)?;
    let (columns, rows) = (bits.code()?, bits.code()?);
    let fields = if bits.flag()? { 1u32 } else { 2 };
    if fields == 2 {
        bits.skip(1)?;
    }
    bits.skip(1)?;
    let (across, down) = cropped(&mut bits)?;
    let (unit_across, unit_down) = match format {
        1 => (2u32, 2u32),
        2 => (2, 1),
        _ => (1, 1),
    };
    let width = columns.checked_add(1)?.checked_mul(16)?;
    let height = rows.checked_add(1)?.checked_mul(16)?.checked_mul(fields)?;
    Some((
        width.checked_sub(across.checked_mul(unit_across)?)?,
        height.checked_sub(down.checked_mul(unit_down)?.checked_mul(fields)?)?,
    ))
}

/// How much of a picture is cut off, left and right, and above and below.
pub(crate) fn cropped(bits: &mut Bits<'_>) -> Option<Size> {
    if !bits.flag()? {
        return Some((0, 0));
    }
    let across = bits.code()?.checked_add(bits.code()?)?;
    Some((across, bits.code()?.checked_add(bits.code()?)?))
}

/// The size in a set of sequence parameters of H.264.
pub(crate) fn h264_size(alloc: Global, sps: &[u8]) -> Result<Option<Size>, AllocError> {
    Ok(sps_size(&without_emulation(alloc, sps)?))
}

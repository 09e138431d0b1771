//! What a sequence header of AV1 says (AV1 bitstream specification 5.5).

use crate::bits::Bits;
use crate::sizes::Size;

/// What a track needs of a sequence header.
#[derive(Clone, Copy)]
pub(crate) struct Sequence {
    pub(crate) size: Size,
    /// The first four bytes of what a decoder is told (AV1 codec ISO media file format binding 2.3).
    pub(crate) told: [u8; 4],
}

/// Profile, level and tier of the first operating point, and whether only still pictures' fields follow.
#[derive(Clone, Copy)]
struct Point {
    profile: u32,
    level: u32,
    tier: u32,
    is_reduced: bool,
}

/// Passes over a number of varying length (4.10.3).
fn skip_uvlc(bits: &mut Bits<'_>) -> Option<()> {
    let mut zeros = 0u8;
    for _ in 0..32 {
        if bits.flag()? {
            break;
        }
        zeros = zeros.saturating_add(1);
    }
    if zeros < 32 {
        bits.skip(zeros)
    } else {
        Some(())
    }
}

/// Passes over times; returns how many bits a delay has, if decoders are described.
fn skip_timing(bits: &mut Bits<'_>) -> Option<Option<u8>> {
    if !bits.flag()? {
        return Some(None);
    }
    bits.skip(64)?;
    if bits.flag()? {
        skip_uvlc(bits)?;
    }
    if !bits.flag()? {
        return Some(None);
    }
    let width = (bits.take(5)? % 32) as u8;
    bits.skip(42)?;
    Some(Some(width.saturating_add(1)))
}

/// Reads an operating point: its level and tier.
fn level_and_tier(bits: &mut Bits<'_>, delay: Option<u8>, has_display: bool) -> Option<(u32, u32)> {
    bits.skip(12)?;
    let level = bits.take(5)?;
    let tier = if level > 7 { bits.take(1)? } else { 0 };
    if let Some(width) = delay {
        if bits.flag()? {
            bits.skip(width)?;
            bits.skip(width)?;
            bits.skip(1)?;
        }
    }
    if has_display && bits.flag()? {
        bits.skip(4)?;
    }
    Some((level, tier))
}

/// Reads the operating points, and what is before them.
fn points(bits: &mut Bits<'_>) -> Option<Point> {
    let profile = bits.take(3)?;
    bits.skip(1)?;
    if bits.flag()? {
        let level = bits.take(5)?;
        return Some(Point {
            profile,
            level,
            tier: 0,
            is_reduced: true,
        });
    }
    let delay = skip_timing(bits)?;
    let has_display = bits.flag()?;
    let more = bits.take(5)?;
    let (level, tier) = level_and_tier(bits, delay, has_display)?;
    for _ in 0..more {
        level_and_tier(bits, delay, has_display)?;
    }
    Some(Point {
        profile,
        level,
        tier,
        is_reduced: false,
    })
}

/// Passes over the tools that a whole header tells of.
fn skip_tools(bits: &mut Bits<'_>) -> Option<()> {
    bits.skip(4)?;
    let has_order = bits.flag()?;
    if has_order {
        bits.skip(2)?;
    }
    let is_chosen = bits.flag()?;
    let has_screen = is_chosen || bits.flag()?;
    if has_screen && !bits.flag()? {
        bits.skip(1)?;
    }
    if has_order {
        bits.skip(3)?;
    }
    Some(())
}

/// The six flags of colours: high depth, twelve bits, no colours, both samplings, and in two bits the place.
fn color(bits: &mut Bits<'_>, profile: u32) -> Option<u8> {
    let is_high = bits.flag()?;
    let is_twelve = profile == 2 && is_high && bits.flag()?;
    let is_mono = profile != 1 && bits.flag()?;
    let mut described = (2, 2, 2);
    if bits.flag()? {
        described = (bits.take(8)?, bits.take(8)?, bits.take(8)?);
    }
    let depth = (is_high as u8) << 6 | (is_twelve as u8) << 5 | (is_mono as u8) << 4;
    if is_mono {
        return Some(depth | 12);
    }
    if described == (1, 13, 0) {
        return Some(depth);
    }
    bits.skip(1)?;
    let (across, down) = sampling(bits, profile, is_twelve)?;
    let place = if across && down {
        (bits.take(2)? % 4) as u8
    } else {
        0
    };
    Some(depth | (across as u8) << 3 | (down as u8) << 2 | place)
}

/// Whether colours are sampled at half the width, and at half the height.
fn sampling(bits: &mut Bits<'_>, profile: u32, is_twelve: bool) -> Option<(bool, bool)> {
    match profile {
        0 => Some((true, true)),
        1 => Some((false, false)),
        _ if !is_twelve => Some((true, false)),
        _ => {
            let across = bits.flag()?;
            Some((across, across && bits.flag()?))
        }
    }
}

/// Reads what is in a sequence header after its OBU header.
fn sequence_of(content: &[u8]) -> Option<Sequence> {
    let mut bits = Bits::new(content);
    let point = points(&mut bits)?;
    let (across, down) = ((bits.take(4)? % 16) as u8, (bits.take(4)? % 16) as u8);
    let size = (
        bits.take(across.saturating_add(1))?.checked_add(1)?,
        bits.take(down.saturating_add(1))?.checked_add(1)?,
    );
    if !point.is_reduced && bits.flag()? {
        bits.skip(7)?;
    }
    bits.skip(3)?;
    if !point.is_reduced {
        skip_tools(&mut bits)?;
    }
    bits.skip(3)?;
    let flags = color(&mut bits, point.profile)?;
    let first = (point.profile % 8 * 32 + point.level % 32) as u8;
    Some(Sequence {
        size,
        told: [0x81, first, (point.tier % 2 * 128) as u8 | flags, 0],
    })
}

/// A number of seven bits a byte, and how many bytes it has (4.10.5).
fn leb128(bytes: &[u8]) -> Option<(usize, usize)> {
    let (mut number, mut scale) = (0usize, 1usize);
    for place in 0..8usize {
        let byte = *bytes.get(place)?;
        let part = scale.saturating_mul((byte % 128) as usize);
        number = number.saturating_add(part);
        scale = scale.saturating_mul(128);
        if byte < 128 {
            return Some((number, place.saturating_add(1)));
        }
    }
    None
}

/// The first sequence header in a unit whose OBUs have sizes, whole, and what it says.
pub(crate) fn sequence_in(unit: &[u8]) -> Option<(&[u8], Sequence)> {
    let mut rest = unit;
    for _ in 0..unit.len() {
        let header = *rest.first()?;
        let front = if header & 4 != 0 { 2usize } else { 1 };
        let (len, digits) = leb128(rest.get(front..)?)?;
        let start = front.checked_add(digits)?;
        let end = start.checked_add(len)?;
        if header / 8 % 16 == 1 {
            return Some((rest.get(..end)?, sequence_of(rest.get(start..end)?)?));
        }
        rest = rest.get(end..)?;
    }
    None
}

//! What a file needs of H.265's parameter sets.

use crate::bits::Bits;
use crate::sizes::{Size, cropped, without_emulation};
use crate::tracks::{at_most, push_sets};
use std::alloc::{AllocError, Global};

/// What a set of sequence parameters says (H.265 7.3.2.2).
#[derive(Clone, Copy)]
pub(crate) struct HevcSequence {
    pub(crate) size: Size,
    /// Profile, tier, constraints and level, as the set has them.
    general: [u8; 12],
    /// How many temporal layers there are, and whether their switching points nest.
    layers: u8,
    is_nested: bool,
    /// The format of the colours, and by how many bits more than 8 each kind of sample is told.
    colours: u8,
    luma: u8,
    chroma: u8,
}

/// Passes over what is said of temporal layers one by one (H.265 7.3.3).
fn skip_layers(bits: &mut Bits<'_>, count: u8) -> Option<()> {
    let mut told = [(false, false); 8];
    for layer in told.iter_mut().take(count as usize) {
        *layer = (bits.flag()?, bits.flag()?);
    }
    if count > 0 {
        for _ in count..8 {
            bits.skip(2)?;
        }
    }
    for (has_profile, has_level) in told {
        if has_profile {
            bits.skip(88)?;
        }
        if has_level {
            bits.skip(8)?;
        }
    }
    Some(())
}

/// The size of pictures of this many samples, after the parts that are cut off.
fn shown(bits: &mut Bits<'_>, colours: u8) -> Option<Size> {
    let (width, height) = (bits.code()?, bits.code()?);
    let (across, down) = cropped(bits)?;
    let (unit_across, unit_down) = match colours {
        1 => (2u32, 2u32),
        2 => (2, 1),
        _ => (1, 1),
    };
    Some((
        width.checked_sub(across.checked_mul(unit_across)?)?,
        height.checked_sub(down.checked_mul(unit_down)?)?,
    ))
}

/// A number of at most so much.
fn small(number: u32, most: u8) -> Option<u8> {
    let number = u8::try_from(number).ok()?;
    if number > most {
        return None;
    }
    Some(number)
}

/// The fields of a set of sequence parameters.
fn sequence_of(bytes: &[u8]) -> Option<HevcSequence> {
    let mut bits = Bits::new(bytes);
    bits.skip(20)?;
    let above = small(bits.take(3)?, 7)?;
    let is_nested = bits.flag()?;
    let mut general = [0u8; 12];
    for byte in general.iter_mut() {
        *byte = small(bits.take(8)?, 255)?;
    }
    skip_layers(&mut bits, above)?;
    bits.skip_codes(1)?;
    let colours = small(bits.code()?, 3)?;
    if colours == 3 {
        bits.skip(1)?;
    }
    Some(HevcSequence {
        size: shown(&mut bits, colours)?,
        general,
        layers: above.saturating_add(1),
        is_nested,
        colours,
        luma: small(bits.code()?, 7)?,
        chroma: small(bits.code()?, 7)?,
    })
}

/// What a set of sequence parameters of H.265 says.
pub(crate) fn hevc_sequence(alloc: Global, sps: &[u8]) -> Result<Option<HevcSequence>, AllocError> {
    Ok(sequence_of(&without_emulation(alloc, sps)?))
}

impl HevcSequence {
    /// What a decoder is told in front (ISO/IEC 14496-15 8.3.3.1): units after their lengths in four bytes, and these
    /// sets of parameters.
    pub(crate) fn told(
        &self,
        alloc: Global,
        kinds: [&[Vec<u8>]; 3],
    ) -> Result<Vec<u8>, AllocError> {
        let mut out = Vec::from_slice(alloc, &[1u8])?;
        out.extend_from_slice(&self.general)?;
        out.extend_from_slice(&[0xf0u8, 0, 0xfc])?;
        out.extend_from_slice(&[
            0xfc | self.colours,
            0xf8 | self.luma,
            0xf8 | self.chroma,
            0,
            0,
        ])?;
        let nested = if self.is_nested { 4u8 } else { 0 };
        out.extend_from_slice(&[(self.layers % 8) << 3 | nested | 3, 3])?;
        for (place, sets) in kinds.iter().enumerate() {
            let sets = at_most(sets, 65535);
            let count = u16::try_from(sets.len()).unwrap_or(u16::MAX);
            out.push(32u8.saturating_add(place.min(2) as u8))?;
            out.extend_from_slice(&count.to_be_bytes())?;
            push_sets(sets, &mut out)?;
        }
        Ok(out)
    }
}

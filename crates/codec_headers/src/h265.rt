//! Sequence parameter sets of H.265.

ghost use Rattle.std.specs.Prelude.{◌≡◌, ◌<◌, ◌≤◌, ◌*◌, IfOk, IfSome};
ghost use Rattle.codec_headers.specs.Bits.{bits, gives};
ghost use Rattle.codec_headers.specs.H265.{chroma_format, code_to, general, hevc_sequence, layer_bits, layer_flags};
ghost use Rattle.codec_headers.specs.H265.{layers_above, sequence_after, sequence_front, sps, sub_layers};
ghost use Rattle.codec_headers.specs.H265.{picture};

use crate::bits::Bits;
use crate::nal::nal_payload;
use crate::picture::{PictureSize, cropping, shown, sub_height, sub_width};
use std::alloc::{AllocError, Global};

/// The general profile, tier and level of a sequence, as its parameter set has them (H.265 7.3.3).
#[derive(Debug, Clone, Copy, PartialEq, Eq)]
pub struct HevcProfile {
    /// Profile space, tier and profile.
    pub profile: u8,
    /// The compatibility flags.
    pub compatibility: u32,
    /// The first 32 of the 48 bits of constraint flags.
    pub constraints: u32,
    /// The last 16 of them.
    pub more_constraints: u16,
    /// The level, in thirtieths.
    pub level: u8,
}

/// What is in front of the chroma format in a sequence parameter set.
#[derive(Debug, Clone, Copy, PartialEq, Eq)]
pub struct HevcLayers {
    /// How many temporal sub-layers there are, from 1 to 7.
    pub count: u8,
    /// Whether pictures can be switched up to a higher sub-layer anywhere (sps_temporal_id_nesting_flag).
    pub is_nested: bool,
    /// The general profile, tier and level.
    pub profile: HevcProfile,
}

/// What a sequence parameter set of H.265 says.
#[derive(Debug, Clone, Copy, PartialEq, Eq)]
pub struct HevcSequence {
    /// The temporal sub-layers, with profile and level.
    pub layers: HevcLayers,
    /// The size of pictures in luma samples, after cropping.
    pub size: PictureSize,
    /// The chroma format, from 0 to 3: monochrome, 4:2:0, 4:2:2, 4:4:4.
    pub format: u8,
    /// By how many bits luma samples are wider than 8, at most 7.
    pub luma: u8,
    /// By how many bits chroma samples are wider than 8, at most 7.
    pub chroma: u8,
}

/// The next Exp-Golomb code, of at most this much.
#[tactic(auto, unfolding(crate::specs::H265::code_to))]
fn code_to(bits: &mut Bits<'_>, most: u8) -> Option<u8>
    ensures value { code_to most bits.old ≡ gives result bits.new }
    ensures small { IfSome result (λ code. code ≤ most) }
{
    let code = bits.code()?;
    if code > most as u32 {
        return None;
    }
    Some(code as u8)
}

/// The general profile, tier and level.
#[tactic(auto, unfolding(crate::specs::H265::general))]
fn general(bits: &mut Bits<'_>) -> Option<HevcProfile>
    ensures { general bits.old ≡ gives result bits.new }
{
    let profile = bits.take(8)? as u8;
    let compatibility = bits.take(32)?;
    let constraints = bits.take(32)?;
    let more_constraints = bits.take(16)? as u16;
    let level = bits.take(8)? as u8;
    Some(HevcProfile {
        profile,
        compatibility,
        constraints,
        more_constraints,
        level,
    })
}

/// How many bits a sub-layer has by its two flags.
fn layer_bits(flags: u32) -> u16
    requires { flags < 4 }
    ensures value { result ≡ layer_bits flags }
    ensures few { result ≤ 96 }
{
    (88 * (flags / 2) + 8 * (flags % 2)) as u16
}

/// How many bits this many sub-layers have, by their flags.
fn layer_flags(bits: &mut Bits<'_>, count: u8) -> Option<u16>
    requires { count ≤ 7 }
    ensures { layer_flags count 0 bits.old ≡ gives result bits.new }
{
    let mut sum = 0u16;
    for _passed in 0..count {
        let flags = bits.take(2)?;
        sum += layer_bits(flags);
    }
    Some(sum)
}

/// Passes over what is said of this many sub-layers.
#[tactic(auto, unfolding(crate::specs::H265::sub_layers))]
fn skip_sub_layers(bits: &mut Bits<'_>, count: u8) -> Option<()>
    requires { count ≤ 7 }
    ensures { sub_layers count bits.old ≡ gives result bits.new }
{
    let sum = layer_flags(bits, count)?;
    bits.skip_if(count > 0, 2 * (8 - count) as u16)?;
    bits.skip(sum)
}

/// How many sub-layers there are above the lowest.
#[tactic(auto, unfolding(crate::specs::H265::layers_above))]
fn layers_above(bits: &mut Bits<'_>) -> Option<u8>
    ensures value { layers_above bits.old ≡ gives result bits.new }
    ensures few { IfSome result (λ above. above ≤ 6) }
{
    let above = bits.take(3)?;
    if above > 6 {
        return None;
    }
    Some(above as u8)
}

/// What is in front of the chroma format.
#[tactic(auto, unfolding(crate::specs::H265::sequence_front))]
fn sequence_front(bits: &mut Bits<'_>) -> Option<HevcLayers>
    ensures { sequence_front bits.old ≡ gives result bits.new }
{
    bits.skip(20)?;
    let above = layers_above(bits)?;
    let is_nested = bits.flag()?;
    let profile = general(bits)?;
    skip_sub_layers(bits, above)?;
    bits.skip_code()?;
    Some(HevcLayers {
        count: above + 1,
        is_nested,
        profile,
    })
}

/// The chroma format.
#[tactic(auto, unfolding(crate::specs::H265::chroma_format))]
fn chroma_format(bits: &mut Bits<'_>) -> Option<u8>
    ensures value { chroma_format bits.old ≡ gives result bits.new }
    ensures small { IfSome result (λ format. format ≤ 3) }
{
    let format = code_to(bits, 3)?;
    bits.skip_if(format == 3, 1)?;
    Some(format)
}

/// The size of pictures.
#[tactic(auto, unfolding(crate::specs::H265::picture))]
fn picture(bits: &mut Bits<'_>, format: u8) -> Option<PictureSize>
    ensures { picture format bits.old ≡ gives result bits.new }
{
    let width = bits.code()?;
    let height = bits.code()?;
    let cut = cropping(bits)?;
    let (across, down) = (sub_width(format as u32), sub_height(format as u32));
    shown(width as u64, across * cut.0, height as u64, down * cut.1)
}

/// What is said from the chroma format on.
#[tactic(auto, unfolding(crate::specs::H265::sequence_after))]
fn sequence_after(bits: &mut Bits<'_>, layers: HevcLayers) -> Option<HevcSequence>
    ensures { sequence_after layers bits.old ≡ gives result bits.new }
{
    let format = chroma_format(bits)?;
    let size = picture(bits, format)?;
    let luma = code_to(bits, 7)?;
    let chroma = code_to(bits, 7)?;
    Some(HevcSequence {
        layers,
        size,
        format,
        luma,
        chroma,
    })
}

/// What the payload of a sequence parameter set says.
#[tactic(auto, unfolding(crate::specs::H265::sps))]
fn sps(payload: &[u8]) -> Option<HevcSequence>
    ensures { result ≡ sps (bits payload.now) }
{
    let mut bits = Bits::new(payload);
    let layers = sequence_front(&mut bits)?;
    sequence_after(&mut bits, layers)
}

/// What a sequence parameter set of H.265 says (H.265 7.3.2.2). None if the set ends before its bit depths, has 7
/// sub-layers above the lowest, says another chroma format or samples of more than 15 bits, or leaves nothing of a
/// picture. Its type isn't checked.
///
/// # Errors
/// There is no memory for the set's payload.
pub fn hevc_sequence(alloc: Global, unit: &[u8]) -> Result<Option<HevcSequence>, AllocError>
    ensures { IfOk result (λ sequence. sequence ≡ hevc_sequence unit.now) }
{
    let payload = nal_payload(alloc, unit)?;
    Ok(sps(&payload))
}

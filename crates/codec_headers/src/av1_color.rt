//! Colours in sequence headers of AV1.

ghost use Rattle.std.specs.Prelude.{◌≡◌};
ghost use Rattle.codec_headers.specs.Bits.{gives};
ghost use Rattle.codec_headers.specs.Av1Color.{chroma, color_config, description, flag_if, is_srgb, position, sampled};
ghost use Rattle.codec_headers.specs.Av1Color.{sampling, subsampled};

use crate::bits::Bits;

/// How chroma is sampled.
#[derive(Debug, Clone, Copy, PartialEq, Eq)]
pub struct Av1Chroma {
    /// Whether at half the width.
    pub is_half_across: bool,
    /// Whether at half the height.
    pub is_half_down: bool,
    /// chroma_sample_position, at most 3.
    pub position: u8,
}

/// The colours of a sequence.
#[derive(Debug, Clone, Copy, PartialEq, Eq)]
pub struct Av1Color {
    /// Whether samples have more than 8 bits.
    pub is_high: bool,
    /// Whether they have 12.
    pub is_twelve: bool,
    /// Whether there is only luma.
    pub is_mono: bool,
    /// How chroma is sampled.
    pub chroma: Av1Chroma,
}

/// A flag that may be missing.
#[tactic(auto, unfolding(crate::specs::Av1Color::flag_if))]
fn flag_if(bits: &mut Bits<'_>, is_there: bool) -> Option<bool>
    ensures { flag_if is_there bits.old ≡ gives result bits.new }
{
    if !is_there {
        return Some(false);
    }
    bits.flag()
}

/// Whether the colours are those of sRGB.
#[tactic(auto, unfolding(crate::specs::Av1Color::is_srgb))]
fn is_srgb(bits: &mut Bits<'_>) -> Option<bool>
    ensures { is_srgb bits.old ≡ gives result bits.new }
{
    let primaries = bits.take(8)?;
    let transfer = bits.take(8)?;
    let matrix = bits.take(8)?;
    Some(primaries == 1 && transfer == 13 && matrix == 0)
}

/// Whether the colours are said to be those of sRGB.
#[tactic(auto, unfolding(crate::specs::Av1Color::description))]
fn description(bits: &mut Bits<'_>) -> Option<bool>
    ensures { description bits.old ≡ gives result bits.new }
{
    if !bits.flag()? {
        return Some(false);
    }
    is_srgb(bits)
}

/// The two flags of sampling.
#[tactic(auto, unfolding(crate::specs::Av1Color::sampled))]
fn sampled(bits: &mut Bits<'_>) -> Option<(bool, bool)>
    ensures { sampled bits.old ≡ gives result bits.new }
{
    let across = bits.flag()?;
    let down = flag_if(bits, across)?;
    Some((across, down))
}

/// Whether chroma is sampled at half the width, and at half the height.
#[tactic(auto, unfolding(crate::specs::Av1Color::sampling))]
fn sampling(bits: &mut Bits<'_>, profile: u8, is_twelve: bool) -> Option<(bool, bool)>
    ensures { sampling profile is_twelve bits.old ≡ gives result bits.new }
{
    if profile == 0 {
        return Some((true, true));
    }
    if profile == 1 {
        return Some((false, false));
    }
    if !is_twelve {
        return Some((true, false));
    }
    sampled(bits)
}

/// Where chroma samples are.
#[tactic(auto, unfolding(crate::specs::Av1Color::position))]
fn position(bits: &mut Bits<'_>, across: bool, down: bool) -> Option<u8>
    ensures { position across down bits.old ≡ gives result bits.new }
{
    if !across || !down {
        return Some(0);
    }
    Some(bits.take(2)? as u8)
}

/// How chroma is sampled, if it is neither missing nor that of sRGB.
#[tactic(auto, unfolding(crate::specs::Av1Color::subsampled))]
fn subsampled(bits: &mut Bits<'_>, profile: u8, is_twelve: bool) -> Option<Av1Chroma>
    ensures { subsampled profile is_twelve bits.old ≡ gives result bits.new }
{
    bits.skip(1)?;
    let (is_half_across, is_half_down) = sampling(bits, profile, is_twelve)?;
    let position = position(bits, is_half_across, is_half_down)?;
    Some(Av1Chroma {
        is_half_across,
        is_half_down,
        position,
    })
}

/// How chroma is sampled.
#[tactic(auto, unfolding(crate::specs::Av1Color::chroma))]
fn chroma(
    bits: &mut Bits<'_>,
    profile: u8,
    is_twelve: bool,
    is_mono: bool,
    is_srgb: bool,
) -> Option<Av1Chroma>
    ensures { chroma profile is_twelve is_mono is_srgb bits.old ≡ gives result bits.new }
{
    if is_mono || is_srgb {
        return Some(Av1Chroma {
            is_half_across: is_mono,
            is_half_down: is_mono,
            position: 0,
        });
    }
    subsampled(bits, profile, is_twelve)
}

/// The colours.
#[tactic(auto, unfolding(crate::specs::Av1Color::color_config))]
pub(crate) fn color_config(bits: &mut Bits<'_>, profile: u8) -> Option<Av1Color>
    ensures { color_config profile bits.old ≡ gives result bits.new }
{
    let is_high = bits.flag()?;
    let is_twelve = flag_if(bits, profile == 2 && is_high)?;
    let is_mono = flag_if(bits, profile != 1)?;
    let is_srgb = description(bits)?;
    let chroma = chroma(bits, profile, is_twelve, is_mono, is_srgb)?;
    Some(Av1Color {
        is_high,
        is_twelve,
        is_mono,
        chroma,
    })
}

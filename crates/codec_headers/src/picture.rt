//! Sizes of pictures.

ghost use Rattle.std.specs.Prelude.{◌≡◌, ◌<◌, IfSome};
ghost use Rattle.codec_headers.specs.Bits.{gives};
ghost use Rattle.codec_headers.specs.Picture.{cropping, cuts, fitting, shown, sub_height, sub_width};

use crate::bits::Bits;

/// Width and height of a picture in samples.
#[derive(Debug, Clone, Copy, PartialEq, Eq)]
pub struct PictureSize {
    /// How many samples a row has.
    pub width: u32,
    /// How many rows there are.
    pub height: u32,
}

/// The size of this many samples and rows; None if either has more than 32 bits.
#[tactic(auto, unfolding(crate::specs::Picture::fitting))]
fn fitting(width: u64, height: u64) -> Option<PictureSize>
    ensures { result ≡ fitting width height }
{
    if width > 4294967295 || height > 4294967295 {
        return None;
    }
    Some(PictureSize {
        width: width as u32,
        height: height as u32,
    })
}

/// The size of a picture whose edges are cut off; None if nothing is left.
#[tactic(auto, unfolding(crate::specs::Picture::shown))]
pub(crate) fn shown(width: u64, across: u64, height: u64, down: u64) -> Option<PictureSize>
    ensures { result ≡ shown width across height down }
{
    if width <= across || height <= down {
        return None;
    }
    fitting(width - across, height - down)
}

/// How many luma samples there are to a chroma sample, across.
pub(crate) fn sub_width(format: u32) -> u64
    ensures { result ≡ sub_width format }
{
    match format {
        1 | 2 => 2,
        _ => 1,
    }
}

/// How many luma samples there are to a chroma sample, down.
pub(crate) fn sub_height(format: u32) -> u64
    ensures { result ≡ sub_height format }
{
    match format {
        1 => 2,
        _ => 1,
    }
}

/// The four edges that are cut off, as sums across and down.
#[tactic(auto, unfolding(crate::specs::Picture::cuts))]
fn cuts(bits: &mut Bits<'_>) -> Option<(u64, u64)>
    ensures value { cuts bits.old ≡ gives result bits.new }
    ensures small { IfSome result (λ cut. (cut.0 < 8589934592) × (cut.1 < 8589934592)) }
{
    let left = bits.code()? as u64;
    let right = bits.code()? as u64;
    let top = bits.code()? as u64;
    let bottom = bits.code()? as u64;
    Some((left + right, top + bottom))
}

/// How much is cut off, across and down.
#[tactic(auto, unfolding(crate::specs::Picture::cropping))]
pub(crate) fn cropping(bits: &mut Bits<'_>) -> Option<(u64, u64)>
    ensures value { cropping bits.old ≡ gives result bits.new }
    ensures small { IfSome result (λ cut. (cut.0 < 8589934592) × (cut.1 < 8589934592)) }
{
    if !bits.flag()? {
        return Some((0, 0));
    }
    cuts(bits)
}

//! Key frames of VP9.

ghost use Rattle.std.specs.Prelude.{◌≡◌};
ghost use Rattle.codec_headers.specs.Bits.{bits, gives};
ghost use Rattle.codec_headers.specs.Vp9.{color_config, frame_size, key_frame, profile_of, vp9_size};

use crate::bits::Bits;
use crate::picture::PictureSize;

/// The profile.
#[tactic(auto, unfolding(crate::specs::Vp9::profile_of))]
fn profile_of(bits: &mut Bits<'_>) -> Option<u32>
    ensures { profile_of bits.old ≡ gives result bits.new }
{
    let low = bits.take(1)?;
    let high = bits.take(1)?;
    let profile = 2 * high + low;
    bits.skip_if(profile == 3, 1)?;
    Some(profile)
}

/// Passes over what is said of colours.
#[tactic(auto, unfolding(crate::specs::Vp9::color_config))]
fn skip_color_config(bits: &mut Bits<'_>, profile: u32) -> Option<()>
    ensures { color_config profile bits.old ≡ gives result bits.new }
{
    bits.skip_if(profile >= 2, 1)?;
    let space = bits.take(3)?;
    bits.skip_if(space != 7, 1)?;
    if profile % 2 == 0 {
        return Some(());
    }
    bits.skip(if space == 7 { 1 } else { 3 })
}

/// The size of the frame.
#[tactic(auto, unfolding(crate::specs::Vp9::frame_size))]
fn frame_size(bits: &mut Bits<'_>) -> Option<PictureSize>
    ensures { frame_size bits.old ≡ gives result bits.new }
{
    let width = bits.take(16)?;
    let height = bits.take(16)?;
    Some(PictureSize {
        width: width + 1,
        height: height + 1,
    })
}

/// The size in the header of a key frame.
#[tactic(auto, unfolding(crate::specs::Vp9::key_frame))]
fn key_frame(bits: &mut Bits<'_>) -> Option<PictureSize>
    ensures { key_frame bits.old ≡ gives result bits.new }
{
    bits.only(2, 2)?;
    let profile = profile_of(bits)?;
    bits.only(2, 0)?;
    bits.skip(2)?;
    bits.only(24, 0x49_83_42)?;
    skip_color_config(bits, profile)?;
    frame_size(bits)
}

/// The size of pictures that a key frame of VP9 says (VP9 bitstream specification 6.2). None if the frame is no key
/// frame, shows a frame that was decoded before, or ends before its size.
pub fn vp9_size(frame: &[u8]) -> Option<PictureSize>
    ensures { result ≡ vp9_size frame.now }
{
    key_frame(&mut Bits::new(frame))
}

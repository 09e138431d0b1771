//! Key frames of VP8.

ghost use Rattle.std.specs.Prelude.{◌≡◌, ◌+◌, ◌<◌, length};
ghost use Rattle.codec_headers.specs.Vp8.{fourteen_bits, vp8_size};

use crate::picture::PictureSize;

/// A number of 14 bits, the less significant byte first.
fn fourteen_bits(frame: &[u8], at: usize) -> u32
    requires { at + 1 < length frame.now }
    ensures { result ≡ fourteen_bits frame.now at }
{
    frame[at] as u32 + 256 * (frame[at + 1] as u32 % 64)
}

/// The size of pictures that a key frame of VP8 says (RFC 6386 9.1), without its scale. None if the frame is no key
/// frame, or ends before its size.
#[tactic(auto, unfolding(crate::specs::Vp8::vp8_size))]
pub fn vp8_size(frame: &[u8]) -> Option<PictureSize>
    ensures { result ≡ vp8_size frame.now }
{
    if frame.len() < 10 {
        return None;
    }
    if frame[0] % 2 != 0 || frame[3] != 0x9d || frame[4] != 1 || frame[5] != 0x2a {
        return None;
    }
    Some(PictureSize {
        width: fourteen_bits(frame, 6),
        height: fourteen_bits(frame, 8),
    })
}

//! What a packet says of its frame.

ghost use Rattle.std.specs.Prelude.{◌≡◌};
ghost use Rattle.packet_info.specs.Layers.{layers_in};
ghost use Rattle.packet_info.specs.Packets.{is_head, is_tail, shows_key_frame};

use crate::layers::{Layers, layers_in};
use crate::packets::{is_head, is_tail, shows_key_frame};
use media_types::Codec;

/// What a packet says of its frame.
#[derive(Clone, Copy, Debug, PartialEq, Eq, Drop)]
pub struct PacketInfo {
    /// Whether a frame can begin with it. A packet of H.264, H.265 or H.266 begins a NAL unit: it begins a frame if the
    /// packet before it ended one.
    pub is_head: bool,
    /// Whether a frame ends with it.
    pub is_tail: bool,
    /// Whether it shows that its frame is a key frame. VP8 and AV1 show it in the frame's first packet, VP9 in each
    /// one, H.264, H.265 and H.266 in those that show a slice of the picture. VP9 doesn't tell an intra-only frame from
    /// a key frame. Audio has no key frames: a receiver can begin with any packet.
    pub shows_key_frame: bool,
    /// The layers that it tells.
    pub layers: Layers,
}

/// What a packet with this payload and marker bit says of its frame. RED and RTX are to be unwrapped before; H.265 and
/// H.266 are read as without decoding order numbers.
pub fn packet_info(codec: Codec, payload: &[u8], marker: bool) -> PacketInfo
    ensures head { result.is_head ≡ is_head codec payload.now }
    ensures tail { result.is_tail ≡ is_tail codec marker }
    ensures key_frame { result.shows_key_frame ≡ shows_key_frame codec payload.now }
    ensures layers { result.layers ≡ layers_in codec payload.now }
{
    PacketInfo {
        is_head: is_head(codec, payload),
        is_tail: is_tail(codec, marker),
        shows_key_frame: shows_key_frame(codec, payload),
        layers: layers_in(codec, payload),
    }
}

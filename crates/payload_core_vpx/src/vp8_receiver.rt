//! Reading VP8 payloads (RFC 7741 4).

ghost use Rattle.payload_core_vpx.specs.Vp8.{vp8_format, was_keyframe};
ghost use Rattle.std.specs.Prelude.{◌≡◌, None};

use crate::vp8_descriptor::{Vp8Descriptor, Vp8DescriptorError};
use payload_core_base::{CodecExtra, Depacketizer, PacketError, Vp8CodecExtra, has_bit};

/// Hands out the frames of VP8 packets (RFC 7741 4).
#[derive(Clone, Copy, Debug, Drop)]
pub struct Vp8Depacketizer;

impl Vp8Depacketizer {
    /// A depacketizer, which keeps nothing between packets.
    pub fn new() -> Self
        ensures { result ≡ record {} }
    {
        Vp8Depacketizer
    }
}

fn was_keyframe(extra: &CodecExtra) -> bool
    ensures { result ≡ was_keyframe extra.now }
{
    match extra {
        CodecExtra::Vp8(extra) => extra.is_keyframe,
        _ => false,
    }
}

impl Depacketizer for Vp8Depacketizer {
    ghost format = { λ _. vp8_format };

    ghost fragment = { λ _. None };

    fn depacketize(
        &mut self,
        packet: &[u8],
        out: &mut Vec<u8>,
        extra: &mut CodecExtra,
    ) -> Result<(), PacketError> {
        let descriptor = match Vp8Descriptor::parse(packet) {
            Ok(descriptor) => descriptor,
            Err(Vp8DescriptorError::ShortPayload) => return Err(PacketError::ErrShortPacket),
            Err(Vp8DescriptorError::MalformedDescriptor) => {
                return Err(PacketError::ErrVP8CorruptedPacket);
            }
        };
        out.extend_from_slice(descriptor.frame_of(packet))?;
        *extra = CodecExtra::Vp8(Vp8CodecExtra {
            is_keyframe: was_keyframe(extra) || descriptor.starts_keyframe(packet),
            picture_id: descriptor.picture_id(),
            tl0_pic_idx: descriptor.tl0_pic_idx(),
        });
        Ok(())
    }

    fn is_partition_head(&self, packet: &[u8]) -> bool {
        match packet.first() {
            Some(first) => has_bit(*first, 16),
            None => false,
        }
    }

    fn is_partition_tail(&self, marker: bool, _packet: &[u8]) -> bool {
        marker
    }
}

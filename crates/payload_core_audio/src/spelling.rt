//! Writing payloads one beside the other (RFC 2198 3).

ghost use Rattle.payload_core_audio.specs.Red.{HasRoom, IsRed, header};
ghost use Rattle.payload_core_audio.specs.RedSending.{masked};
ghost use Rattle.payload_core_audio.specs.RedViews.{old_block};
ghost use Rattle.std.specs.Prelude.{◌≡◌, ◌+◌, ◌%◌, ◌<◌, ◌≤◌, ◌++◌, ◌&&◌, All, IfOk, OnOk, length, map, nat_le};

use std::alloc::{AllocError, Global};

/// The blocks that a packet has beside its primary payload, at most.
pub const MAX_BLOCKS: usize = 32;

/// An older payload.
#[derive(Clone, Copy, Drop)]
pub struct OldPayload<'a> {
    pub pt: u8,
    pub timestamp_offset: u32,
    pub payload: &'a [u8],
}

/// Whether 14 bits have room for the offset, and 10 for the length.
pub fn fields_fit(timestamp_offset: u32, payload: &[u8]) -> bool
    ensures { result ≡ (nat_le timestamp_offset 16383 && nat_le (length payload.now) 1023) }
{
    timestamp_offset <= 16_383 && payload.len() <= 1_023
}

/// Writes the header of a block.
pub fn push_header(packet: &mut Vec<u8>, block: &OldPayload<'_>) -> Result<(), AllocError>
    requires { HasRoom (masked (old_block block.now)) }
    ensures { OnOk result (packet.new.items ≡ packet.old.items ++ header (masked (old_block block.now))) }
{
    let size = block.payload.len();
    let middle = (block.timestamp_offset % 64 * 4) as u8 + (size / 256) as u8;
    packet.push(128 + block.pt % 128)?;
    packet.push((block.timestamp_offset / 64) as u8)?;
    packet.push(middle)?;
    packet.push((size % 256) as u8)?;
    Ok(())
}

/// A packet of these blocks and this primary payload.
pub fn spell(
    alloc: Global,
    blocks: &[OldPayload<'_>],
    pt: u8,
    primary: &[u8],
) -> Result<Vec<u8>, AllocError>
    requires room { All (λ b. HasRoom (masked (old_block b))) blocks.now }
    requires few { length blocks.now ≤ 32 }
    ensures { IfOk result (λ packet. IsRed packet.items (map masked (map old_block blocks.now)) (pt % 128)
        primary.now) }
{
    let mut len = primary.len().saturating_add(1);
    for each in blocks {
        len = len.saturating_add(each.payload.len()).saturating_add(4);
    }
    let mut packet = Vec::with_capacity(alloc, len)?;
    for block in blocks {
        push_header(&mut packet, block)?;
    }
    packet.push(pt % 128)?;
    for old in blocks {
        packet.extend_from_slice(old.payload)?;
    }
    packet.extend_from_slice(primary)?;
    Ok(packet)
}

//! Sending VP8 payloads (RFC 7741 4).

ghost use Rattle.payload_core_base.specs.Frames.{next_id};
ghost use Rattle.payload_core_base.specs.Packing.{with_prefix};
ghost use Rattle.payload_core_vpx.specs.Vp8.{described, descriptor, descriptor_size, pack_vp8, tells_id};
ghost use Rattle.payload_core_vpx.specs.Vp8.{vp8_packing};
ghost use Rattle.payload_core_base.specs.Pieces.{pieces};
ghost use Rattle.std.specs.Prelude.{◌≡◌, ◌-◌, ◌++◌, ◌<◌, ◌≤◌, [], IfOk, Some, false, is_some, map};
ghost use Rattle.std.specs.Prelude.{true, unwrap_or};

use payload_core_base::{PacketError, Packetizer};
use std::alloc::{AllocError, Global};

/// How many bytes a descriptor without an id has (RFC 7741 4.2).
pub const VP8_HEADER_SIZE: usize = 1;

/// Cuts VP8 frames into packets that fill the limit (RFC 7741 4).
#[derive(Clone, Copy, Debug, Drop)]
pub struct Vp8Packetizer {
    has_id: bool,
    zero_id: bool,
    id: u16,
    ghost in_range: { id < 32768 },
}

/// How many bytes the descriptor has.
fn descriptor_size(tells: bool, id: u16) -> usize
    ensures value { result ≡ descriptor_size tells id }
    ensures few { result ≤ 4 }
{
    if !tells {
        VP8_HEADER_SIZE
    } else if id < 128 {
        3
    } else {
        4
    }
}

/// The packet of a piece: the prefix, the descriptor, and the piece after it.
fn packet(
    alloc: Global,
    prefix: &[u8],
    tells: bool,
    id: u16,
    first: bool,
    piece: &[u8],
) -> Result<Vec<u8>, AllocError>
    requires { id < 32768 }
    ensures { IfOk result (λ p. p.items ≡ prefix.now ++ (descriptor tells id first ++ piece.now)) }
{
    let start: u8 = if first { 0x10 } else { 0 };
    let mut packet = Vec::with_capacity(
        alloc,
        prefix.len().saturating_add(piece.len()).saturating_add(4),
    )?;
    packet.extend_from_slice(prefix)?;
    if !tells {
        packet.push(start)?;
    } else if id < 128 {
        packet.extend_from_slice(&[0x80 + start, 0x80, id as u8])?;
    } else {
        let high = 0x80 + (id / 256) as u8;
        packet.extend_from_slice(&[0x80 + start, 0x80, high, (id % 256) as u8])?;
    }
    packet.extend_from_slice(piece)?;
    Ok(packet)
}

/// The packets of a frame, cut into pieces of this size, each after the prefix.
fn packets(
    alloc: Global,
    prefix: &[u8],
    tells: bool,
    id: u16,
    size: usize,
    bytes: &[u8],
) -> Result<Vec<Vec<u8>>, AllocError>
    requires id { id < 32768 }
    requires size { 0 < size }
    ensures { IfOk result (λ ps. map (λ p. p.items) ps.items
        ≡ with_prefix prefix.now (described tells id true (pieces size bytes.now))) }
{
    let mut packets = Vec::with_capacity(alloc, bytes.len().div_ceil(size))?;
    let mut first = true;
    for piece in bytes.chunks(size) {
        packets.push(packet(alloc, prefix, tells, id, first, piece)?)?;
        first = false;
    }
    Ok(packets)
}

impl Vp8Packetizer {
    /// A packetizer that sends ids from this one on, modulo 32,768, or none. The id 0 is left out.
    ///
    /// # Conditions
    ///
    /// The id is below 32,768.
    pub fn with_picture_id(picture_id: Option<u16>) -> Self
        requires { unwrap_or picture_id 0 < 32768 }
        ensures has_id { result.has_id ≡ is_some picture_id }
        ensures zero_id { result.zero_id ≡ false }
        ensures id { result.id ≡ unwrap_or picture_id 0 }
    {
        Vp8Packetizer {
            has_id: picture_id.is_some(),
            zero_id: false,
            id: picture_id.unwrap_or(0),
        }
    }

    /// The same packetizer, but the id 0 is written like any other: browsers treat a frame without
    /// an id among frames with ids as a gap, and freeze until the next keyframe. Without ids it
    /// changes nothing that is sent.
    pub fn with_zero_id(self) -> Self
        ensures has_id { result.has_id ≡ self.has_id }
        ensures zero_id { result.zero_id ≡ true }
        ensures id { result.id ≡ self.id }
    {
        Vp8Packetizer {
            has_id: self.has_id,
            zero_id: true,
            id: self.id,
        }
    }

    /// Whether the next frame's packets tell its id.
    fn tells_id(&self) -> bool
        ensures { result ≡ tells_id self.now.has_id self.now.zero_id self.now.id }
    {
        self.has_id && (self.zero_id || self.id != 0)
    }
}

impl Packetizer for Vp8Packetizer {
    ghost packing = { λ p. vp8_packing p.has_id p.zero_id };

    ghost sender = { λ p. record { number = p.id; waiting = [] } };

    fn packetize_with_prefix(
        &mut self,
        alloc: Global,
        prefix: &[u8],
        mtu: usize,
        bytes: &[u8],
    ) -> Result<Vec<Vec<u8>>, PacketError> {
        let tells = self.tells_id();
        let size = descriptor_size(tells, self.id);
        if bytes.is_empty() || mtu <= size {
            return Ok(Vec::new(alloc));
        }
        let packets = packets(alloc, prefix, tells, self.id, mtu - size, bytes)?;
        self.id = if self.id < 32767 { self.id + 1 } else { 0 };
        Ok(packets)
    }

    fn is_marker(&mut self, _bytes: &[u8], _previous: Option<&[u8]>, last: bool) -> bool {
        last
    }
}

//! Sending VP9 payloads in flexible mode (RFC 9628 4.2).

ghost use Rattle.payload_core_base.specs.Frames.{after_frame, next_id};
ghost use Rattle.payload_core_base.specs.Packing.{with_prefix};
ghost use Rattle.payload_core_vpx.specs.Vp9.{described, descriptor, descriptor_size};
ghost use Rattle.payload_core_vpx.specs.Vp9.{vp9_packing};
ghost use Rattle.payload_core_vpx.specs.Vp9Frame.{is_predicted};
ghost use Rattle.payload_core_base.specs.Pieces.{pieces};
ghost use Rattle.std.specs.Prelude.{◌≡◌, ◌++◌, ◌<◌, ◌≤◌, [], IfOk, false, map, true};

use payload_core_base::{PacketError, Packetizer};
use std::alloc::{AllocError, Global};

// The reference to the frame before: P_DIFF 1, and N clear.
const PREVIOUS_FRAME: u8 = 0x02;

/// Cuts VP9 frames into packets that fill the limit, in flexible mode (RFC 9628 4.2).
#[derive(Clone, Copy, Debug, Drop)]
pub struct Vp9Packetizer {
    prediction: bool,
    id: u16,
    ghost in_range: { id < 32768 },
}

/// Whether the frame's own header says that it isn't a key frame (VP9 bitstream specification 6.2).
fn is_predicted(frame: &[u8]) -> bool
    ensures { result ≡ is_predicted frame.now }
{
    let Some(byte) = frame.first() else {
        return false;
    };
    let has_marker = *byte / 64 == 2;
    let is_profile_3 = *byte / 16 % 4 == 3;
    // show_existing_frame and frame_type
    let bits = if is_profile_3 {
        *byte / 2 % 4
    } else {
        *byte / 4 % 4
    };
    has_marker && bits != 0
}

/// How many bytes the descriptor has that is sent: flags, a picture id of 15 bits, and a reference if the frame is
/// told to be predicted.
fn descriptor_size(told: bool) -> usize
    ensures value { result ≡ descriptor_size told }
    ensures few { result ≤ 4 }
{
    if told { 4 } else { 3 }
}

/// The packet of a piece: the prefix, the descriptor, and the piece after it.
fn packet(
    alloc: Global,
    prefix: &[u8],
    told: bool,
    id: u16,
    first: bool,
    last: bool,
    piece: &[u8],
) -> Result<Vec<u8>, AllocError>
    requires { id < 32768 }
    ensures { IfOk result (λ p. p.items ≡ prefix.now ++ (descriptor told id first last ++ piece.now)) }
{
    let predicted: u8 = if told { 0x40 } else { 0 };
    let begins: u8 = if first { 0x08 } else { 0 };
    let ends: u8 = if last { 0x04 } else { 0 };
    let mut packet = Vec::with_capacity(
        alloc,
        prefix.len().saturating_add(piece.len()).saturating_add(4),
    )?;
    packet.extend_from_slice(prefix)?;
    let flags = 0x90 + predicted + begins + ends;
    packet.extend_from_slice(&[flags, 0x80 + (id / 256) as u8, (id % 256) as u8])?;
    if told {
        packet.push(PREVIOUS_FRAME)?;
    }
    packet.extend_from_slice(piece)?;
    Ok(packet)
}

/// The packets of a frame, cut into pieces of this size, each after the prefix.
fn packets(
    alloc: Global,
    prefix: &[u8],
    told: bool,
    id: u16,
    size: usize,
    bytes: &[u8],
) -> Result<Vec<Vec<u8>>, AllocError>
    requires id { id < 32768 }
    requires size { 0 < size }
    ensures { IfOk result (λ ps. map (λ p. p.items) ps.items
        ≡ with_prefix prefix.now (described told id true (pieces size bytes.now))) }
{
    let mut packets = Vec::with_capacity(alloc, bytes.len().div_ceil(size))?;
    let mut first = true;
    let mut left = bytes.len();
    for piece in bytes.chunks(size) {
        left -= piece.len();
        packets.push(packet(alloc, prefix, told, id, first, left == 0, piece)?)?;
        first = false;
    }
    Ok(packets)
}

impl Vp9Packetizer {
    /// A packetizer that sends ids from 0 on, modulo 32,768.
    pub fn new() -> Self
        ensures prediction { result.prediction ≡ false }
        ensures id { result.id ≡ 0 }
    {
        Self::with_picture_id(0)
    }

    /// A packetizer that sends ids from this one on, modulo 32,768. No frame is told to be predicted.
    ///
    /// # Conditions
    ///
    /// The id is below 32,768.
    pub fn with_picture_id(picture_id: u16) -> Self
        requires { picture_id < 32768 }
        ensures prediction { result.prediction ≡ false }
        ensures id { result.id ≡ picture_id }
    {
        Vp9Packetizer {
            prediction: false,
            id: picture_id,
        }
    }

    /// The same packetizer, but each frame whose own header says that it isn't a key frame is
    /// marked as predicted from the frame before: P, and one reference with P_DIFF 1 (RFC 9628
    /// 4.2). Browsers treat every frame without P as a key frame. The descriptor of such a frame
    /// has one more byte.
    pub fn with_prediction(self) -> Self
        ensures prediction { result.prediction ≡ true }
        ensures id { result.id ≡ self.id }
    {
        Vp9Packetizer {
            prediction: true,
            id: self.id,
        }
    }
}

impl Packetizer for Vp9Packetizer {
    ghost packing = { λ p. vp9_packing p.prediction };

    ghost sender = { λ p. record { number = p.id; waiting = [] } };

    fn packetize_with_prefix(
        &mut self,
        alloc: Global,
        prefix: &[u8],
        mtu: usize,
        bytes: &[u8],
    ) -> Result<Vec<Vec<u8>>, PacketError> {
        let told = self.prediction && is_predicted(bytes);
        let size = descriptor_size(told);
        if bytes.is_empty() || mtu <= size {
            return Ok(Vec::new(alloc));
        }
        let packets = packets(alloc, prefix, told, self.id, mtu - size, bytes)?;
        self.id = if self.id < 32767 { self.id + 1 } else { 0 };
        Ok(packets)
    }

    fn is_marker(&mut self, _bytes: &[u8], _previous: Option<&[u8]>, last: bool) -> bool {
        last
    }
}

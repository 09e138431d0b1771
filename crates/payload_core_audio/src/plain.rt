//! Payloads that are samples: Opus (RFC 7587 4.2), G.711 and G.722 (RFC 3551 4.5), and comfort noise as it is read
//! (RFC 3389 4).

ghost use Rattle.payload_core_audio.specs.Plain.{is_one_piece, pieces_packing, plain_format};
ghost use Rattle.payload_core_base.specs.Stateless.{idle_sender};
ghost use Rattle.payload_core_base.specs.Packing.{Sends};
ghost use Rattle.std.specs.Prelude.{◌≡◌, ◌∷◌, [], None, true};

use crate::cut::{cut, is_one_piece};
use payload_core_base::{CodecExtra, Depacketizer, PacketError, Packetizer};
use std::alloc::Global;

/// Cuts samples into pieces of at most the limit, without any header.
#[derive(Clone, Copy, Debug, Drop)]
pub struct PlainPacketizer;

/// Cuts Opus samples (RFC 7587 4.2). Browsers drop a sample sent in several packets: choose a limit
/// above the longest sample.
pub type OpusPacketizer = PlainPacketizer;

/// Cuts G.711 and G.722 samples (RFC 3551 4.5.14 and 4.5.2).
pub type G7xxPacketizer = PlainPacketizer;

/// Cuts PCMU and PCMA samples.
pub type G711Packetizer = PlainPacketizer;

/// Cuts G.722 samples.
pub type G722Packetizer = PlainPacketizer;

impl PlainPacketizer {
    /// A packetizer, which keeps nothing between samples.
    pub fn new() -> Self
        ensures { result ≡ record {} }
    {
        PlainPacketizer
    }
}

impl Packetizer for PlainPacketizer {
    ghost packing = { λ _. pieces_packing };

    ghost sender = { λ _. idle_sender };

    fn packetize_with_prefix(
        &mut self,
        alloc: Global,
        prefix: &[u8],
        mtu: usize,
        bytes: &[u8],
    ) -> Result<Vec<Vec<u8>>, PacketError> {
        Ok(cut(alloc, prefix, mtu, bytes)?)
    }

    fn is_marker(&mut self, _bytes: &[u8], _previous: Option<&[u8]>, _last: bool) -> bool {
        false
    }

    /// Whether it has a byte, and fits the limit.
    fn is_own_payload(&self, mtu: usize, bytes: &[u8]) -> bool
        ensures exactly { result ≡ is_one_piece mtu bytes.now }
        ensures own { result ≡ true → Sends (pieces_packing.pack idle_sender mtu bytes.now) (bytes.now ∷ [])
            idle_sender }
    {
        is_one_piece(mtu, bytes)
    }
}

/// Hands out each packet as a unit.
#[derive(Clone, Copy, Debug, Drop)]
pub struct PlainDepacketizer;

/// Hands out each Opus packet as a unit (RFC 7587 4.2).
pub type OpusDepacketizer = PlainDepacketizer;

/// Hands out each G.711 or G.722 packet as a unit (RFC 3551 4.5).
pub type G711Depacketizer = PlainDepacketizer;

/// Hands out each comfort noise packet as a unit (RFC 3389 4).
pub type ComfortNoiseDepacketizer = PlainDepacketizer;

impl PlainDepacketizer {
    /// A depacketizer, which keeps nothing between packets.
    pub fn new() -> Self
        ensures { result ≡ record {} }
    {
        PlainDepacketizer
    }
}

impl Depacketizer for PlainDepacketizer {
    ghost format = { λ _. plain_format };

    ghost fragment = { λ _. None };

    fn depacketize(
        &mut self,
        packet: &[u8],
        out: &mut Vec<u8>,
        _extra: &mut CodecExtra,
    ) -> Result<(), PacketError> {
        if packet.is_empty() {
            return Err(PacketError::ErrShortPacket);
        }
        out.extend_from_slice(packet)?;
        Ok(())
    }

    fn is_plain(&self) -> bool {
        true
    }

    fn is_partition_head(&self, _packet: &[u8]) -> bool {
        true
    }

    fn is_partition_tail(&self, _marker: bool, _packet: &[u8]) -> bool {
        true
    }
}

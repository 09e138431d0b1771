//! Boxed objects that a caller hands in.

use crate::depacketizer::Depacketizer;
use crate::error::PacketError;
use crate::extra::CodecExtra;
use crate::packetizer::Packetizer;
use std::alloc::Global;

impl Packetizer for Box<dyn Packetizer + Drop> {
    ghost packing = { λ b. (Packetizer-box b).packing b.value };

    ghost sender = { λ b. (Packetizer-box b).sender b.value };

    fn packetize_with_prefix(
        &mut self,
        alloc: Global,
        prefix: &[u8],
        mtu: usize,
        bytes: &[u8],
    ) -> Result<Vec<Vec<u8>>, PacketError> {
        (**self).packetize_with_prefix(alloc, prefix, mtu, bytes)
    }

    fn is_marker(&mut self, bytes: &[u8], previous: Option<&[u8]>, last: bool) -> bool {
        (**self).is_marker(bytes, previous, last)
    }

    fn is_own_payload(&self, mtu: usize, bytes: &[u8]) -> bool {
        (**self).is_own_payload(mtu, bytes)
    }
}

impl Depacketizer for Box<dyn Depacketizer + Drop> {
    ghost format = { λ b. (Depacketizer-box b).format b.value };

    ghost fragment = { λ b. (Depacketizer-box b).fragment b.value };

    fn depacketize(
        &mut self,
        packet: &[u8],
        out: &mut Vec<u8>,
        extra: &mut CodecExtra,
    ) -> Result<(), PacketError> {
        (**self).depacketize(packet, out, extra)
    }

    fn is_partition_head(&self, packet: &[u8]) -> bool {
        (**self).is_partition_head(packet)
    }

    fn is_partition_tail(&self, marker: bool, packet: &[u8]) -> bool {
        (**self).is_partition_tail(marker, packet)
    }
}

//! In place of a caller's object.

use payload_core_base::{CodecExtra, Depacketizer, PacketError, Packetizer};
use std::alloc::Global;

/// Used where the caller supplies no object: it sends no packet, and accepts every packet without
/// output.
#[derive(Clone, Copy, Debug, PartialEq, Eq, Drop)]
pub struct NotBoxed;

impl Packetizer for NotBoxed {
    ghost use Rattle.h26x_payload.specs.Nothing.{no_packing};
    ghost use Rattle.payload_core_base.specs.Stateless.{idle_sender};

    ghost packing = { λ _. no_packing };

    ghost sender = { λ _. idle_sender };

    fn packetize_with_prefix(
        &mut self,
        alloc: Global,
        _prefix: &[u8],
        _mtu: usize,
        _bytes: &[u8],
    ) -> Result<Vec<Vec<u8>>, PacketError> {
        Ok(Vec::new(alloc))
    }

    fn is_marker(&mut self, _bytes: &[u8], _previous: Option<&[u8]>, _last: bool) -> bool {
        false
    }
}

impl Depacketizer for NotBoxed {
    ghost use Rattle.h26x_payload.specs.Nothing.{no_format};
    ghost use Rattle.std.specs.Prelude.{None};

    ghost format = { λ _. no_format };

    ghost fragment = { λ _. None };

    fn depacketize(
        &mut self,
        _packet: &[u8],
        _out: &mut Vec<u8>,
        _extra: &mut CodecExtra,
    ) -> Result<(), PacketError> {
        Ok(())
    }

    fn is_partition_head(&self, _packet: &[u8]) -> bool {
        false
    }

    fn is_partition_tail(&self, _marker: bool, _packet: &[u8]) -> bool {
        false
    }
}

//! Comfort noise payloads (RFC 3389).

ghost use Rattle.payload_core_audio.specs.Plain.{noise_packing};
ghost use Rattle.payload_core_base.specs.Stateless.{idle_sender};
ghost use Rattle.std.specs.Prelude.{◌≡◌};

use crate::cut::whole;
use payload_core_base::{PacketError, Packetizer};
use std::alloc::Global;

/// Sends each comfort noise sample as one packet (RFC 3389 4).
#[derive(Clone, Copy, Debug, Drop)]
pub struct ComfortNoisePacketizer;

impl ComfortNoisePacketizer {
    /// A packetizer, which keeps nothing between samples.
    pub fn new() -> Self
        ensures { result ≡ record {} }
    {
        ComfortNoisePacketizer
    }
}

impl Packetizer for ComfortNoisePacketizer {
    ghost packing = { λ _. noise_packing };

    ghost sender = { λ _. idle_sender };

    fn packetize_with_prefix(
        &mut self,
        alloc: Global,
        prefix: &[u8],
        mtu: usize,
        bytes: &[u8],
    ) -> Result<Vec<Vec<u8>>, PacketError> {
        whole(alloc, prefix, mtu, bytes)
    }

    fn is_marker(&mut self, _bytes: &[u8], _previous: Option<&[u8]>, _last: bool) -> bool {
        false
    }
}

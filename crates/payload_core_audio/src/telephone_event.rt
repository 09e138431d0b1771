//! Telephone event payloads (RFC 4733).

ghost use Rattle.payload_core_base.specs.Stateless.{idle_sender};
ghost use Rattle.payload_core_audio.specs.Telephone.{telephone_format, telephone_packing};
ghost use Rattle.std.specs.Int.NonZero.{non_zero_u32_get};
ghost use Rattle.std.specs.Prelude.{◌≡◌, None};

use crate::cut::whole;
use payload_core_base::{CodecExtra, Depacketizer, PacketError, Packetizer, TelephoneEvent};
use rtp_wire::ClockRate;
use std::alloc::Global;
use std::num::NonZeroU32;

/// Sends the reports of a telephone event as one packet (RFC 4733 2.3).
#[derive(Clone, Copy, Debug, Drop)]
pub struct TelephoneEventPacketizer;

impl TelephoneEventPacketizer {
    /// A packetizer, which keeps nothing between samples.
    pub fn new() -> Self
        ensures { result ≡ record {} }
    {
        TelephoneEventPacketizer
    }
}

impl Packetizer for TelephoneEventPacketizer {
    ghost packing = { λ _. telephone_packing };

    ghost sender = { λ _. idle_sender };

    fn packetize_with_prefix(
        &mut self,
        alloc: Global,
        prefix: &[u8],
        mtu: usize,
        bytes: &[u8],
    ) -> Result<Vec<Vec<u8>>, PacketError> {
        if bytes.len() % 4 != 0 {
            return Err(PacketError::InvalidTelephoneEvent);
        }
        whole(alloc, prefix, mtu, bytes)
    }

    fn is_marker(&mut self, _bytes: &[u8], _previous: Option<&[u8]>, _last: bool) -> bool {
        false
    }
}

/// Hands out the first report of each telephone event packet, with the R bit clear, and also
/// reports it as an event (RFC 4733 2.3).
#[derive(Clone, Copy, Debug, Drop)]
pub struct TelephoneEventDepacketizer {
    clock_rate: NonZeroU32,
}

impl TelephoneEventDepacketizer {
    /// A depacketizer of reports whose durations are in ticks of `clock_rate`.
    pub fn new<C: ClockRate>(clock_rate: C) -> Self
        ensures { non_zero_u32_get result.clock_rate ≡ C.hertz clock_rate }
    {
        TelephoneEventDepacketizer {
            clock_rate: clock_rate.hertz(),
        }
    }
}

impl Depacketizer for TelephoneEventDepacketizer {
    ghost format = { λ t. telephone_format (non_zero_u32_get t.clock_rate) };

    ghost fragment = { λ _. None };

    fn depacketize(
        &mut self,
        packet: &[u8],
        out: &mut Vec<u8>,
        extra: &mut CodecExtra,
    ) -> Result<(), PacketError> {
        if packet.len() % 4 != 0 {
            return Err(PacketError::InvalidTelephoneEvent);
        }
        let [event, flags, high, low, ..] = packet else {
            return Err(PacketError::InvalidTelephoneEvent);
        };
        let Some(report) = TelephoneEvent::parse(packet, self.clock_rate) else {
            return Err(PacketError::InvalidTelephoneEvent);
        };
        out.extend_from_slice(&[*event, *flags / 128 * 128 + *flags % 64, *high, *low])?;
        *extra = CodecExtra::Tele(report);
        Ok(())
    }

    fn is_partition_head(&self, _packet: &[u8]) -> bool {
        true
    }

    fn is_partition_tail(&self, _marker: bool, _packet: &[u8]) -> bool {
        true
    }
}

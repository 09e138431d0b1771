//! Payloads with redundancy.

use crate::measured::{Round, measure_packets};
use crate::tally::Tally;
use payload_core_audio::{RedDecoder, RedEncoder, RedSender, RedundantBlock};
use std::alloc::{AllocError, Global};
use std::io;

/// The limit of a payload in bytes.
const LIMIT: usize = 1200;

/// How often a sample is sent, and a packet read.
const ROUNDS: u32 = 50_000;

/// A sample of Opus that is sent with one older payload beside it.
#[derive(Drop)]
struct SendingRed {
    sender: RedSender,
}

/// Counts packets, and their bytes.
impl Round for SendingRed {
    ghost use Rattle.benchmarks.specs.Redundant.{CountsWrapped};

    ghost counts = { CountsWrapped };

    fn round(&mut self, _alloc: Global, time: u32, tally: &mut Tally) {
        if let Ok(packet) = self.sender.wrap(111, &[7; 120], time, LIMIT) {
            tally.add(1, packet.len());
        }
    }
}

/// A packet of redundant payloads, which is read.
#[derive(Drop)]
struct ReadingRed<'a> {
    packet: &'a [u8],
}

/// Counts payloads, and their bytes.
impl Round for ReadingRed<'_> {
    ghost use Rattle.benchmarks.specs.Redundant.{CountsPayloads};

    ghost counts = { CountsPayloads };

    fn round(&mut self, _alloc: Global, _number: u32, tally: &mut Tally) {
        if let Ok(blocks) = RedDecoder::decode(self.packet) {
            for block in blocks {
                tally.add(1, block.payload.len());
            }
        }
    }
}

/// A packet of Opus with one older payload.
fn redundant_packet(alloc: Global) -> Result<Vec<u8>, AllocError> {
    let old = RedundantBlock {
        pt: 111,
        timestamp_offset: 960,
        payload: Vec::from_slice(alloc, &[7; 120])?,
    };
    RedEncoder::encode(alloc, 111, &[7; 120], &[old])
}

/// Opus with one older payload beside each.
pub(crate) fn measure_all(rt: &HostRuntime) -> io::Result<()> {
    let sender = RedSender::new(rt.alloc(), &[1])?;
    measure_packets(rt, "RED", "sent", &mut SendingRed { sender }, ROUNDS)?;
    let packet = redundant_packet(rt.alloc())?;
    measure_packets(
        rt,
        "RED",
        "read",
        &mut ReadingRed { packet: &packet },
        ROUNDS,
    )
}

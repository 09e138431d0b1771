//! Packets through a buffer.

ghost use Rattle.benchmarks.specs.Buffered.{CountsUnit};

use crate::measured::Round;
use crate::tally::Tally;
use payload_core::{Depacketized, Depacketizer, DepacketizingBuffer, PacketError, RtpMeta};
use rtp_wire::{ExtensionValues, SeqNo};
use std::alloc::Global;

/// A sample's packets, pushed into a jitter buffer (the last with the marker bit); then a unit is
/// popped if one is due. With number steps above one, they wait for the missing numbers.
#[derive(Drop)]
pub(crate) struct Buffering<'a, D: Depacketizer> {
    pub(crate) buffer: DepacketizingBuffer<D>,
    pub(crate) packets: &'a [Vec<u8>],
    pub(crate) number: u64,
    pub(crate) step: u64,
}

/// Counts a unit and its bytes, if one was handed out.
fn count_unit(popped: Result<Option<Depacketized>, PacketError>, tally: &mut Tally)
    ensures { CountsUnit popped tally.old tally.new }
{
    match popped {
        Ok(Some(unit)) => tally.add(1, unit.bytes.len()),
        Ok(None) => {}
        Err(_) => {}
    }
}

/// Counts units, and their bytes.
impl<D: Depacketizer + Drop> Round for Buffering<'_, D> {
    ghost use Rattle.benchmarks.specs.Buffered.{CountsPopped};

    ghost counts = { CountsPopped D.format D.fragment };

    fn round(&mut self, _alloc: Global, time: u32, tally: &mut Tally) {
        let packets = self.packets;
        for (i, packet) in packets.iter().enumerate() {
            let meta = RtpMeta {
                seq_no: SeqNo::from(self.number),
                time,
                marker: i + 1 == packets.len(),
                ext_vals: ExtensionValues::absent(),
            };
            let _ = self.buffer.push(meta, packet);
            self.number = self.number.saturating_add(self.step);
        }
        count_unit(self.buffer.pop(), tally);
    }
}

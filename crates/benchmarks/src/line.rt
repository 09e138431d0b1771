//! A sink that takes payloads as a transport would.

use crate::formats::LIMIT;
use crate::tally::Tally;
use payload_core::{PacketError, PacketSink};
use rtp_wire::ExtensionValues;

/// A buffer for one payload, into which each payload is copied, and a count. It sums one byte of
/// each, a different one each time, so that no copy can be optimized away.
#[derive(Drop)]
pub(crate) struct Line {
    place: [u8; LIMIT],
    pub(crate) sum: u64,
    pub(crate) tally: Tally,
}

impl Line {
    /// Nothing was taken.
    pub(crate) fn new() -> Self {
        Line {
            place: [0; LIMIT],
            sum: 0,
            tally: Tally::new(),
        }
    }
}

/// Refuses what it can't count.
impl PacketSink for Line {
    ghost use Rattle.std.proofs.Common.{ap, sym, ◌∙◌};
    ghost use Rattle.std.proofs.lemmas.List.{replicate-append-replicate};
    ghost use Rattle.std.specs.Prelude.{replicate};
    ghost use Rattle.benchmarks.specs.Lines.{Refuses, Takes};

    ghost Entry = { Unit {0} };

    ghost entries = { λ l. replicate l.tally.packets tt };

    ghost becomes = { λ _ _ _. Unit {0} };

    ghost one_more = { λ old o new taken. (
      tt,
      tt,
      ap (λ n. replicate n tt) taken.one_more
          ∙ sym (replicate-append-replicate old.tally.packets 1 tt),
    ) };

    ghost none_more = { λ old new kept. ap (λ l. replicate l.tally.packets tt) kept.same };

    ghost takes = { Takes };

    ghost keeps = { Refuses };

    fn send(
        &mut self,
        payload: &[u8],
        _marker: bool,
        time: u32,
        _values: &ExtensionValues,
    ) -> Result<(), PacketError> {
        if self.tally.packets == u64::MAX {
            return Err(PacketError::Memory);
        }
        let len = payload.len().min(LIMIT);
        self.place[..len].copy_from_slice(&payload[..len]);
        self.place[0] = (time % 256) as u8;
        let byte = self.place[(time % 60) as usize];
        self.sum = self.sum.wrapping_add(byte as u64);
        self.tally.add(1, payload.len());
        Ok(())
    }
}

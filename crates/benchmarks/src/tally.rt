//! Payloads counted.

/// How many payloads there were, and how many bytes; both wrap at 64 bits.
#[derive(Clone, Copy, Drop)]
pub(crate) struct Tally {
    pub(crate) packets: u64,
    pub(crate) bytes: u64,
}

impl Tally {
    ghost use Rattle.std.specs.Prelude.{◌≡◌};
    ghost use Rattle.benchmarks.specs.Tallies.{empty_tally, tally_with};

    /// Nothing was counted.
    pub(crate) fn new() -> Self
        ensures { result ≡ empty_tally }
    {
        Tally {
            packets: 0,
            bytes: 0,
        }
    }

    /// Counts this many payloads, which have this many bytes together.
    pub(crate) fn add(&mut self, packets: usize, bytes: usize)
        ensures { self.new ≡ tally_with self.old packets bytes }
    {
        self.packets = self.packets.wrapping_add(packets as u64);
        self.bytes = self.bytes.wrapping_add(bytes as u64);
    }
}

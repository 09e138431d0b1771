//! Access units cut into NAL units.

use crate::h26x::H264_SETS;
use crate::measured::{Round, measure_packets};
use crate::samples::access_unit;
use crate::tally::Tally;
use h26x_payload_units::nal_units;
use std::alloc::Global;
use std::io;

/// How often an access unit is cut.
const ROUNDS: u32 = 2_000;

/// An access unit that is cut into its units.
#[derive(Drop)]
struct Cutting<'a> {
    sample: &'a [u8],
}

/// Counts units, and their bytes.
impl Round for Cutting<'_> {
    ghost use Rattle.benchmarks.specs.Cut.{CountsUnits};

    ghost counts = { CountsUnits };

    fn round(&mut self, _alloc: Global, _number: u32, tally: &mut Tally) {
        for unit in nal_units(self.sample) {
            tally.add(1, unit.len());
        }
    }
}

/// A keyframe of H.264, cut into its units.
pub(crate) fn measure_all(rt: &HostRuntime) -> io::Result<()> {
    let sample = access_unit(rt.alloc(), H264_SETS, b"\0\0\0\x01\x65")?;
    measure_packets(rt, "H.264", "cut", &mut Cutting { sample: &sample }, ROUNDS)
}

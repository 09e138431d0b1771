//! The units of a byte stream, one after the other.

ghost use Rattle.std.specs.Prelude.{◌≡◌};
ghost use Rattle.h26x_payload_units.specs.Units.{units_of};
ghost use Rattle.h26x_payload_units.specs.UnitsLeft.{units_left};

use crate::places::{code_place, first_stretch};

/// An iterator over the remaining NAL units of a byte stream, each a slice of it. No unit is empty.
/// It doesn't allocate.
#[derive(Clone, Debug, Drop)]
pub struct NalUnits<'a> {
    // What follows the start code that was read last, or the whole byte stream if it holds none.
    rest: &'a [u8],
}

/// The NAL units of a byte stream (ITU-T H.264 annex B): the bytes between its start codes, and
/// after the last one. A start code is 01 preceded by two or more zeros, all that are there. Bytes
/// before the first start code are skipped; a nonempty byte stream without a start code is one
/// unit.
pub fn nal_units(stream: &[u8]) -> NalUnits<'_>
    ensures { units_left result ≡ units_of stream.now }
{
    match code_place(stream) {
        Some(place) => NalUnits {
            rest: &stream[place + 3..],
        },
        None => NalUnits { rest: stream },
    }
}

impl<'a> Iterator for NalUnits<'a> {
    ghost use Rattle.h26x_payload_units.specs.UnitsLeft.{units_left};
    ghost use Rattle.std.specs.Iterator.{YieldsFirstRef, at_most};
    ghost use Rattle.std.specs.Prelude.{length};

    type Item = &'a [u8];

    ghost next_gives = { YieldsFirstRef units_left };

    ghost remaining = { λ units. at_most (length units.rest.now) };

    fn next(&mut self) -> Option<&'a [u8]> {
        while !self.rest.is_empty() {
            let (stretch, behind) = first_stretch(self.rest);
            self.rest = behind;
            if !stretch.is_empty() {
                return Some(stretch);
            }
        }
        None
    }
}

//! Units and datagrams that calls left, fetched into a caller's buffer.

ghost use Rattle.std.specs.Prelude.{◌≡◌};
ghost use Rattle.std.specs.List.{slice_get};
ghost use Rattle.jilqamur.specs.Codes.{nothing};
ghost use Rattle.jilqamur.specs.Copies.{IsFetched};
ghost use Rattle.jilqamur.specs.Fetched.{IsToldOf, bytes_of};

use crate::codes;
use crate::copying::copy_out;
use crate::payload_unit::{WireUnit, wire_unit};
use payload_core_buffer::Unit;
use rtp_media_streams::Datagram;

/// Copies the bytes of a unit to the front of a buffer, and tells what is told beside; `NOTHING` if there is none.
pub fn unit_at(
    unit: &Option<Unit>,
    buffer: &mut [u8],
    needed: &mut usize,
    told: &mut WireUnit,
) -> u32
    ensures bytes { IsFetched (bytes_of unit.now) buffer.old result needed.new buffer.new }
    ensures told { IsToldOf unit.now told.new }
    ensures nothing { result ≡ nothing → (needed.new ≡ needed.old) × (told.new ≡ told.old) }
{
    match unit {
        None => codes::NOTHING,
        Some(unit) => {
            *told = wire_unit(
                unit.first().get(),
                unit.last().get(),
                unit.time(),
                unit.extra(),
            );
            copy_out(unit.bytes(), buffer, needed)
        }
    }
}

/// Copies the datagram of this place to the front of a buffer; `NOTHING` if there is none of that place.
pub fn datagram_at(
    datagrams: &[Datagram],
    index: usize,
    buffer: &mut [u8],
    needed: &mut usize,
) -> u32
    ensures bytes { IsFetched (slice_get datagrams.now index) buffer.old result needed.new buffer.new }
    ensures nothing { result ≡ nothing → needed.new ≡ needed.old }
{
    match datagrams.get(index) {
        None => codes::NOTHING,
        Some(datagram) => copy_out(datagram.as_slice(), buffer, needed),
    }
}

//! What calls left, fetched into a caller's buffer.
//! Each call returns `CLOSED` at a closed handle, and changes nothing then.

ghost use Rattle.std.specs.Prelude.{◌≡◌};
ghost use Rattle.std.specs.List.{slice_get};
ghost use Rattle.jilqamur.specs.Codes.{closed, nothing};
ghost use Rattle.jilqamur.specs.Copies.{IsCopied, IsFetched};
ghost use Rattle.jilqamur.specs.Handles.{AtObject};
ghost use Rattle.jilqamur.specs.Fetched.{IsToldOf, bytes_of};
ghost use Rattle.jilqamur.specs.Told.{TellsValues};
ghost use Rattle.jilqamur.specs.Held.{end_in};

use crate::codes;
use crate::copying::copy_out;
use crate::handle::EndHandle;
use crate::object::Object;
use crate::payload_unit::WireUnit;
use crate::stream_fetch::{datagram_at, unit_at};
use crate::values::WireValues;

/// Copies the text that the last offer or answer left, and returns `OK`, or `TOO_SMALL`, and the buffer is
/// unchanged; `needed` is its length in bytes, 0 before the first.
#[unsafe(no_mangle)]
pub extern "C" fn jilqamur_end_text(
    end: &mut EndHandle,
    buffer: &mut [u8],
    needed: &mut usize,
) -> u32
    ensures text { AtObject (end_in end.old) (end_in end.new) result
        (λ p after. IsCopied p.text buffer.old result needed.new buffer.new) }
    ensures closed { result ≡ closed → (buffer.new ≡ buffer.old) × (needed.new ≡ needed.old) }
    ensures unchanged { end_in end.new ≡ end_in end.old }
{
    if !end.slot.is_open() {
        return codes::CLOSED;
    }
    let Object::End(held) = end.slot.place.held() else {
        unreachable!();
    };
    copy_out(&held.text, buffer, needed)
}

/// Copies the datagram with this index (from 0) left by the last sample, and returns `OK`; or
/// `TOO_SMALL`, leaving the buffer unchanged, with `needed` its length in bytes. `NOTHING` if there
/// is no such datagram.
#[unsafe(no_mangle)]
pub extern "C" fn jilqamur_end_datagram(
    end: &mut EndHandle,
    index: usize,
    buffer: &mut [u8],
    needed: &mut usize,
) -> u32
    ensures datagram { AtObject (end_in end.old) (end_in end.new) result
        (λ p after. IsFetched (slice_get p.datagrams index) buffer.old result needed.new buffer.new) }
    ensures closed { result ≡ closed → (buffer.new ≡ buffer.old) × (needed.new ≡ needed.old) }
    ensures nothing { result ≡ nothing → needed.new ≡ needed.old }
    ensures unchanged { end_in end.new ≡ end_in end.old }
{
    if !end.slot.is_open() {
        return codes::CLOSED;
    }
    let Object::End(held) = end.slot.place.held() else {
        unreachable!();
    };
    datagram_at(&held.datagrams, index, buffer, needed)
}

/// Copies the bytes of the unit that a poll left last, and returns `OK`, or `TOO_SMALL`, and the buffer is
/// unchanged; `needed` is their count, and `told` what is told beside. `NOTHING` before the first unit.
#[unsafe(no_mangle)]
pub extern "C" fn jilqamur_end_unit(
    end: &mut EndHandle,
    buffer: &mut [u8],
    needed: &mut usize,
    told: &mut WireUnit,
) -> u32
    ensures bytes { AtObject (end_in end.old) (end_in end.new) result
        (λ p after. IsFetched (bytes_of p.unit) buffer.old result needed.new buffer.new) }
    ensures told { AtObject (end_in end.old) (end_in end.new) result
        (λ p after. IsToldOf p.unit told.new) }
    ensures closed { result ≡ closed
        → (buffer.new ≡ buffer.old) × (needed.new ≡ needed.old) × (told.new ≡ told.old) }
    ensures nothing { result ≡ nothing → (needed.new ≡ needed.old) × (told.new ≡ told.old) }
    ensures unchanged { end_in end.new ≡ end_in end.old }
{
    if !end.slot.is_open() {
        return codes::CLOSED;
    }
    let Object::End(held) = end.slot.place.held() else {
        unreachable!();
    };
    unit_at(&held.unit, buffer, needed, told)
}

/// Tells the values of the header extensions of the last datagram of the unit that a poll left last, and returns
/// `OK`; `NOTHING` before the first unit, and `told` is unchanged.
#[unsafe(no_mangle)]
pub extern "C" fn jilqamur_end_values(end: &mut EndHandle, told: &mut WireValues) -> u32
    ensures values { AtObject (end_in end.old) (end_in end.new) result
        (λ p after. TellsValues p.unit told.old result told.new) }
    ensures closed { result ≡ closed → told.new ≡ told.old }
    ensures unchanged { end_in end.new ≡ end_in end.old }
{
    if !end.slot.is_open() {
        return codes::CLOSED;
    }
    let Object::End(held) = end.slot.place.held() else {
        unreachable!();
    };
    match &held.unit {
        None => codes::NOTHING,
        Some(unit) => {
            *told = WireValues::of(&unit.ext_vals());
            codes::OK
        }
    }
}

//! Handles of depacketizers: opened, fed with packets, and closed.
//! Each call returns `CLOSED` at a closed handle, and changes nothing then.

ghost use Rattle.std.specs.Prelude.{◌≡◌, ◌≢◌, None, Some, IsSome};
ghost use Rattle.payload_core_buffer.specs.Buffered.{holding_of};
ghost use Rattle.jilqamur.specs.Codes.{ok, memory, nothing, closed, in_use};
ghost use Rattle.jilqamur.specs.Copies.{IsFetched};
ghost use Rattle.jilqamur.specs.Handles.{AtObject, answer_of};
ghost use Rattle.jilqamur.specs.Formats.{inbox_outcome};
ghost use Rattle.jilqamur.specs.PacketInboxes.{new_packet_inbox, behind_push, PopsAt, bytes_of, IsToldOf};
ghost use Rattle.jilqamur.specs.Held.{depacketizer_in};

use crate::codes;
use crate::format::WireFormat;
use crate::handle::DepacketizerHandle;
use crate::object::Object;
use crate::packet_inbox::PacketInbox;
use crate::payload_unit::WireUnit;
use std::alloc::Global;

/// Holds a new depacketizer, and returns `OK`; or `IN_USE` if it already holds one, `OUT_OF_RANGE`
/// if `held` isn't 4,096 to 16,384, the reason the format is invalid, or `MEMORY`, and is
/// unchanged.
#[unsafe(no_mangle)]
pub extern "C" fn jilqamur_depacketizer_open(
    alloc: Global,
    depacketizer: &mut DepacketizerHandle,
    format: &WireFormat,
    codec: &[u8],
    hold_back: usize,
    held: usize,
) -> u32
    ensures opened { result ≡ ok
        → depacketizer_in depacketizer.new ≡ Some (new_packet_inbox format.now codec.now (holding_of hold_back held)) }
    ensures held_none { result ≡ ok → depacketizer_in depacketizer.old ≡ None }
    ensures accepted { result ≡ ok → inbox_outcome format.now codec.now held ≡ ok }
    ensures in_use { IsSome (depacketizer_in depacketizer.old) → result ≡ in_use }
    ensures only_in_use { result ≡ in_use → IsSome (depacketizer_in depacketizer.old) }
    ensures refusal { result ≢ ok → result ≢ memory → result ≢ in_use
        → result ≡ inbox_outcome format.now codec.now held }
    ensures unchanged { result ≢ ok → depacketizer_in depacketizer.new ≡ depacketizer_in depacketizer.old }
{
    if depacketizer.slot.is_open() {
        return codes::IN_USE;
    }
    let opened = match PacketInbox::new(alloc, format, codec, hold_back, held) {
        Ok(opened) => opened,
        Err(code) => return code,
    };
    match Box::new(alloc, Object::Depacketizer(opened)) {
        Ok(opened) => {
            depacketizer.slot.put(opened);
            codes::OK
        }
        Err(_) => codes::MEMORY,
    }
}

/// Frees the depacketizer, and returns `OK`, or `CLOSED` if it holds none; it holds nothing from now on.
#[unsafe(no_mangle)]
pub extern "C" fn jilqamur_depacketizer_close(
    alloc: Global,
    depacketizer: &mut DepacketizerHandle,
) -> u32
    ensures held { result ≡ answer_of (depacketizer_in depacketizer.old) }
    ensures empty { depacketizer_in depacketizer.new ≡ None }
{
    depacketizer.slot.close(alloc)
}

/// Takes a packet by its widened number, timestamp, marker bit and payload, and returns `OK`; or
/// `MEMORY`, and nothing has changed. A number already held, or not above that of the last unit, is
/// dropped; if too many packets wait, the one with the lowest number is dropped.
#[unsafe(no_mangle)]
pub extern "C" fn jilqamur_depacketizer_push(
    depacketizer: &mut DepacketizerHandle,
    number: u64,
    time: u32,
    marker: bool,
    payload: &[u8],
) -> u32
    ensures outcome { AtObject (depacketizer_in depacketizer.old) (depacketizer_in depacketizer.new) result
        (λ p after. result ≢ memory → result ≡ ok) }
    ensures taken { AtObject (depacketizer_in depacketizer.old) (depacketizer_in depacketizer.new) result
        (λ p after. result ≡ ok → after ≡ behind_push p number time marker payload.now) }
    ensures kept { result ≢ ok → depacketizer_in depacketizer.new ≡ depacketizer_in depacketizer.old }
{
    if !depacketizer.slot.is_open() {
        return codes::CLOSED;
    }
    let Object::Depacketizer(inbox) = depacketizer.slot.place.held() else {
        unreachable!();
    };
    inbox.push(number, time, marker, payload)
}

/// Returns `OK` if a unit is due; it is left to be fetched. `NOTHING` if none is; the error number
/// of a packet of the next frame that is refused (the frame is then dropped); or `MEMORY`, and the
/// frame stays.
#[unsafe(no_mangle)]
pub extern "C" fn jilqamur_depacketizer_pop(depacketizer: &mut DepacketizerHandle) -> u32
    ensures answer { AtObject (depacketizer_in depacketizer.old) (depacketizer_in depacketizer.new) result
        (λ p after. PopsAt p.holding.hold_back p result after) }
    ensures kept { AtObject (depacketizer_in depacketizer.old) (depacketizer_in depacketizer.new) result
        (λ p after. result ≢ ok → after.unit ≡ p.unit) }
{
    if !depacketizer.slot.is_open() {
        return codes::CLOSED;
    }
    let Object::Depacketizer(inbox) = depacketizer.slot.place.held() else {
        unreachable!();
    };
    inbox.pop()
}

/// The same, even if a packet before the first complete frame is missing.
#[unsafe(no_mangle)]
pub extern "C" fn jilqamur_depacketizer_drain(depacketizer: &mut DepacketizerHandle) -> u32
    ensures answer { AtObject (depacketizer_in depacketizer.old) (depacketizer_in depacketizer.new) result
        (λ p after. PopsAt 0 p result after) }
    ensures kept { AtObject (depacketizer_in depacketizer.old) (depacketizer_in depacketizer.new) result
        (λ p after. result ≢ ok → after.unit ≡ p.unit) }
{
    if !depacketizer.slot.is_open() {
        return codes::CLOSED;
    }
    let Object::Depacketizer(inbox) = depacketizer.slot.place.held() else {
        unreachable!();
    };
    inbox.drain()
}

/// Copies the bytes of the unit that was popped last, and returns `OK`, or `TOO_SMALL`, and the buffer is
/// unchanged; `needed` is their count, and `told` what is told beside. `NOTHING` before the first unit.
#[unsafe(no_mangle)]
pub extern "C" fn jilqamur_depacketizer_unit(
    depacketizer: &mut DepacketizerHandle,
    buffer: &mut [u8],
    needed: &mut usize,
    told: &mut WireUnit,
) -> u32
    ensures bytes { AtObject (depacketizer_in depacketizer.old) (depacketizer_in depacketizer.new) result
        (λ p after. IsFetched (bytes_of p.unit) buffer.old result needed.new buffer.new) }
    ensures told { AtObject (depacketizer_in depacketizer.old) (depacketizer_in depacketizer.new) result
        (λ p after. IsToldOf p.unit told.new) }
    ensures closed { result ≡ closed
        → (buffer.new ≡ buffer.old) × (needed.new ≡ needed.old) × (told.new ≡ told.old) }
    ensures nothing { result ≡ nothing → (needed.new ≡ needed.old) × (told.new ≡ told.old) }
    ensures unchanged { depacketizer_in depacketizer.new ≡ depacketizer_in depacketizer.old }
{
    if !depacketizer.slot.is_open() {
        return codes::CLOSED;
    }
    let Object::Depacketizer(inbox) = depacketizer.slot.place.held() else {
        unreachable!();
    };
    inbox.unit(buffer, needed, told)
}

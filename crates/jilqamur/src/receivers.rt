//! Receiving streams by codec: opened, given packets, polled, and closed.
//! Each call returns `CLOSED` at a closed handle, and changes nothing then.

ghost use Rattle.std.specs.Prelude.{◌≡◌, ◌≢◌, None, Some, IsSome};
ghost use Rattle.payload_core_buffer.specs.Buffered.{holding_of};
ghost use Rattle.jilqamur.specs.Codes.{ok, memory, nothing, closed, in_use};
ghost use Rattle.jilqamur.specs.Copies.{IsFetched};
ghost use Rattle.jilqamur.specs.Handles.{AtObject, answer_of};
ghost use Rattle.jilqamur.specs.Fetched.{IsToldOf, bytes_of};
ghost use Rattle.jilqamur.specs.Formats.{inbox_outcome};
ghost use Rattle.jilqamur.specs.Inboxes.{Takes, Polls, Drains, new_inbox};
ghost use Rattle.jilqamur.specs.Held.{receiver_in};

use crate::codes;
use crate::format::WireFormat;
use crate::handle::ReceiverHandle;
use crate::inbox::Inbox;
use crate::object::Object;
use crate::payload_unit::WireUnit;
use crate::stream_fetch::unit_at;
use std::alloc::Global;

/// Holds a stream that took nothing, and returns `OK`; or `IN_USE` if it is open, `OUT_OF_RANGE` if `held`
/// isn't 4,096 to 16,384, why the format is none, or `MEMORY`, and is unchanged.
#[unsafe(no_mangle)]
pub extern "C" fn jilqamur_receiver_open(
    alloc: Global,
    receiver: &mut ReceiverHandle,
    format: &WireFormat,
    codec: &[u8],
    hold_back: usize,
    held: usize,
) -> u32
    ensures opened { result ≡ ok
        → receiver_in receiver.new ≡ Some (new_inbox format.now codec.now (holding_of hold_back held)) }
    ensures held_none { result ≡ ok → receiver_in receiver.old ≡ None }
    ensures accepted { result ≡ ok → inbox_outcome format.now codec.now held ≡ ok }
    ensures in_use { IsSome (receiver_in receiver.old) → result ≡ in_use }
    ensures only_in_use { result ≡ in_use → IsSome (receiver_in receiver.old) }
    ensures refusal { result ≢ ok → result ≢ memory → result ≢ in_use
        → result ≡ inbox_outcome format.now codec.now held }
    ensures unchanged { result ≢ ok → receiver_in receiver.new ≡ receiver_in receiver.old }
{
    if receiver.slot.is_open() {
        return codes::IN_USE;
    }
    let opened = match Inbox::new(alloc, format, codec, hold_back, held) {
        Ok(opened) => opened,
        Err(code) => return code,
    };
    match Box::new(alloc, Object::Receiver(opened)) {
        Ok(opened) => {
            receiver.slot.put(opened);
            codes::OK
        }
        Err(_) => codes::MEMORY,
    }
}

/// Frees the stream, and returns `OK`, or `CLOSED` if it is closed; it is closed from now on.
#[unsafe(no_mangle)]
pub extern "C" fn jilqamur_receiver_close(alloc: Global, receiver: &mut ReceiverHandle) -> u32
    ensures held { result ≡ answer_of (receiver_in receiver.old) }
    ensures empty { receiver_in receiver.new ≡ None }
{
    receiver.slot.close(alloc)
}

/// Takes a packet by the low 16 bits of its number, its timestamp, marker bit and payload (maybe
/// empty), and returns `OK`: `number` is its widened number, which is recorded. `REFUSED` if it
/// came before, or is 1,024 or more below the greatest; or `MEMORY`; then nothing has changed.
#[unsafe(no_mangle)]
pub extern "C" fn jilqamur_receiver_push(
    receiver: &mut ReceiverHandle,
    low: u16,
    time: u32,
    marker: bool,
    payload: &[u8],
    number: &mut u64,
) -> u32
    ensures answer { AtObject (receiver_in receiver.old) (receiver_in receiver.new) result
        (λ p after. Takes p low time marker payload.now result number.new after) }
    ensures number { result ≢ ok → number.new ≡ number.old }
{
    if !receiver.slot.is_open() {
        return codes::CLOSED;
    }
    let Object::Receiver(inbox) = receiver.slot.place.held() else {
        unreachable!();
    };
    inbox.push(low, time, marker, payload, number)
}

/// Returns `OK` if a unit is ready, which is left to be fetched. `NOTHING` if none is, `PAYLOAD` if a
/// packet of the next frame is refused, which is then done with, or `MEMORY`, and the frame stays.
#[unsafe(no_mangle)]
pub extern "C" fn jilqamur_receiver_poll(receiver: &mut ReceiverHandle) -> u32
    ensures answer { AtObject (receiver_in receiver.old) (receiver_in receiver.new) result
        (λ p after. Polls p result after) }
    ensures kept { AtObject (receiver_in receiver.old) (receiver_in receiver.new) result
        (λ p after. result ≢ ok → after.unit ≡ p.unit) }
{
    if !receiver.slot.is_open() {
        return codes::CLOSED;
    }
    let Object::Receiver(inbox) = receiver.slot.place.held() else {
        unreachable!();
    };
    inbox.poll()
}

/// The same, whether or not a packet before the lowest complete unit is missing.
#[unsafe(no_mangle)]
pub extern "C" fn jilqamur_receiver_drain(receiver: &mut ReceiverHandle) -> u32
    ensures answer { AtObject (receiver_in receiver.old) (receiver_in receiver.new) result
        (λ p after. Drains p result after) }
    ensures kept { AtObject (receiver_in receiver.old) (receiver_in receiver.new) result
        (λ p after. result ≢ ok → after.unit ≡ p.unit) }
{
    if !receiver.slot.is_open() {
        return codes::CLOSED;
    }
    let Object::Receiver(inbox) = receiver.slot.place.held() else {
        unreachable!();
    };
    inbox.drain()
}

/// Copies the bytes of the unit that a poll left last, and returns `OK`, or `TOO_SMALL`, and the buffer is
/// unchanged; `needed` is their count, and `told` what is told beside. `NOTHING` before the first unit.
#[unsafe(no_mangle)]
pub extern "C" fn jilqamur_receiver_unit(
    receiver: &mut ReceiverHandle,
    buffer: &mut [u8],
    needed: &mut usize,
    told: &mut WireUnit,
) -> u32
    ensures bytes { AtObject (receiver_in receiver.old) (receiver_in receiver.new) result
        (λ p after. IsFetched (bytes_of p.unit) buffer.old result needed.new buffer.new) }
    ensures told { AtObject (receiver_in receiver.old) (receiver_in receiver.new) result
        (λ p after. IsToldOf p.unit told.new) }
    ensures closed { result ≡ closed
        → (buffer.new ≡ buffer.old) × (needed.new ≡ needed.old) × (told.new ≡ told.old) }
    ensures nothing { result ≡ nothing → (needed.new ≡ needed.old) × (told.new ≡ told.old) }
    ensures unchanged { receiver_in receiver.new ≡ receiver_in receiver.old }
{
    if !receiver.slot.is_open() {
        return codes::CLOSED;
    }
    let Object::Receiver(inbox) = receiver.slot.place.held() else {
        unreachable!();
    };
    unit_at(inbox.left(), buffer, needed, told)
}

//! Sending streams by codec: opened, given samples, and closed.
//! Each call returns `CLOSED` at a closed handle, and changes nothing then.

ghost use Rattle.std.specs.Prelude.{◌≡◌, ◌≢◌, length, None, Some, IsSome};
ghost use Rattle.std.specs.List.{slice_get};
ghost use Rattle.jilqamur.specs.Codes.{ok, memory, nothing, closed, in_use};
ghost use Rattle.jilqamur.specs.Copies.{IsFetched};
ghost use Rattle.jilqamur.specs.Handles.{AtObject, answer_of};
ghost use Rattle.jilqamur.specs.Outboxes.{Pushes, new_outbox, sender_outcome};
ghost use Rattle.jilqamur.specs.Held.{sender_in};

use crate::codes;
use crate::format::WireFormat;
use crate::handle::SenderHandle;
use crate::object::Object;
use crate::outbox::{Outbox, WireSender};
use std::alloc::Global;

/// Holds a stream that sent nothing, and returns `OK`; or `IN_USE` if it is open, why the parameters make none,
/// or `MEMORY`, and is unchanged.
#[unsafe(no_mangle)]
pub extern "C" fn jilqamur_sender_open(
    alloc: Global,
    sender: &mut SenderHandle,
    params: &WireSender,
    format: &WireFormat,
    codec: &[u8],
) -> u32
    ensures opened { result ≡ ok → sender_in sender.new ≡ Some (new_outbox params.now format.now codec.now) }
    ensures held_none { result ≡ ok → sender_in sender.old ≡ None }
    ensures accepted { result ≡ ok → sender_outcome params.now format.now codec.now ≡ ok }
    ensures in_use { IsSome (sender_in sender.old) → result ≡ in_use }
    ensures only_in_use { result ≡ in_use → IsSome (sender_in sender.old) }
    ensures refusal { result ≢ ok → result ≢ memory → result ≢ in_use
        → result ≡ sender_outcome params.now format.now codec.now }
    ensures unchanged { result ≢ ok → sender_in sender.new ≡ sender_in sender.old }
{
    if sender.slot.is_open() {
        return codes::IN_USE;
    }
    let opened = match Outbox::new(alloc, params, format, codec) {
        Ok(opened) => opened,
        Err(code) => return code,
    };
    match Box::new(alloc, Object::Sender(opened)) {
        Ok(opened) => {
            sender.slot.put(opened);
            codes::OK
        }
        Err(_) => codes::MEMORY,
    }
}

/// Frees the stream, and returns `OK`, or `CLOSED` if it is closed; it is closed from now on.
#[unsafe(no_mangle)]
pub extern "C" fn jilqamur_sender_close(alloc: Global, sender: &mut SenderHandle) -> u32
    ensures held { result ≡ answer_of (sender_in sender.old) }
    ensures empty { sender_in sender.new ≡ None }
{
    sender.slot.close(alloc)
}

/// Sends a sample under a time in ticks of the stream's clock, and returns `OK`: its datagrams are left to be
/// fetched in place of those before, and `count` is how many there are. Else the first that holds of
/// `STREAM_FAILED`, `TIME_TOO_LARGE`, `LIMIT_TOO_SMALL` and `PAYLOAD`, and nothing has changed; or `MEMORY`, and
/// the stream sends no more.
#[unsafe(no_mangle)]
pub extern "C" fn jilqamur_sender_push_sample(
    sender: &mut SenderHandle,
    ticks: u64,
    sample: &[u8],
    count: &mut usize,
) -> u32
    ensures answer { AtObject (sender_in sender.old) (sender_in sender.new) result
        (λ p after. Pushes p ticks sample.now result after) }
    ensures count { AtObject (sender_in sender.old) (sender_in sender.new) result
        (λ p after. count.new ≡ length after.datagrams) }
    ensures closed { result ≡ closed → count.new ≡ count.old }
{
    if !sender.slot.is_open() {
        return codes::CLOSED;
    }
    let Object::Sender(outbox) = sender.slot.place.held() else {
        unreachable!();
    };
    outbox.push_sample(ticks, sample, count)
}

/// Copies the datagram with this index (from 0) left by the last sample, and returns `OK`; or
/// `TOO_SMALL`, leaving the buffer unchanged, with `needed` its length in bytes. `NOTHING` if there
/// is no such datagram.
#[unsafe(no_mangle)]
pub extern "C" fn jilqamur_sender_datagram(
    sender: &mut SenderHandle,
    index: usize,
    buffer: &mut [u8],
    needed: &mut usize,
) -> u32
    ensures datagram { AtObject (sender_in sender.old) (sender_in sender.new) result
        (λ p after. IsFetched (slice_get p.datagrams index) buffer.old result needed.new buffer.new) }
    ensures closed { result ≡ closed → (buffer.new ≡ buffer.old) × (needed.new ≡ needed.old) }
    ensures nothing { result ≡ nothing → needed.new ≡ needed.old }
    ensures unchanged { sender_in sender.new ≡ sender_in sender.old }
{
    if !sender.slot.is_open() {
        return codes::CLOSED;
    }
    let Object::Sender(outbox) = sender.slot.place.held() else {
        unreachable!();
    };
    outbox.datagram(index, buffer, needed)
}

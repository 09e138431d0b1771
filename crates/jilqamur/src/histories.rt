//! What streams sent, kept to be sent again when a generic NACK asks for it (RFC 4585 6.2.1).
//! Each call but `open` returns `CLOSED` at a closed handle, and changes nothing then.

ghost use Rattle.std.specs.Prelude.{◌≡◌, ◌≢◌, None, Some, IsSome};
ghost use Rattle.rtp_media_nack.specs.Histories.{asked, kept, nothing_kept};
ghost use Rattle.jilqamur.specs.Codes.{closed, in_use, memory, nothing, ok};
ghost use Rattle.jilqamur.specs.Copies.{IsFetched};
ghost use Rattle.jilqamur.specs.Handles.{AtObject, answer_of};
ghost use Rattle.jilqamur.specs.Held.{history_in};

use crate::codes;
use crate::copying::copy_out;
use crate::handle::HistoryHandle;
use crate::object::Object;
use rtp_media_nack::PacketHistory;
use std::alloc::Global;

/// Holds a history that keeps nothing yet, and will keep at most `most` datagrams of at most `most_bytes` bytes
/// together, and returns `OK`; or `IN_USE` if it is open, or `MEMORY`, and is unchanged.
#[unsafe(no_mangle)]
pub extern "C" fn jilqamur_history_open(
    alloc: Global,
    history: &mut HistoryHandle,
    most: u32,
    most_bytes: u32,
) -> u32
    ensures opened { result ≡ ok → history_in history.new ≡ Some (nothing_kept most most_bytes) }
    ensures held_none { result ≡ ok → history_in history.old ≡ None }
    ensures in_use { IsSome (history_in history.old) → result ≡ in_use }
    ensures only_in_use { result ≡ in_use → IsSome (history_in history.old) }
    ensures refusal { result ≢ ok → result ≢ memory → result ≡ in_use }
    ensures unchanged { result ≢ ok → history_in history.new ≡ history_in history.old }
{
    if history.slot.is_open() {
        return codes::IN_USE;
    }
    let opened = PacketHistory::new(alloc, most, most_bytes);
    match Box::new(alloc, Object::History(opened)) {
        Ok(opened) => {
            history.slot.put(opened);
            codes::OK
        }
        Err(_) => codes::MEMORY,
    }
}

/// Frees the history, and returns `OK`, or `CLOSED` if it was closed; from now on it is closed.
#[unsafe(no_mangle)]
pub extern "C" fn jilqamur_history_close(alloc: Global, history: &mut HistoryHandle) -> u32
    ensures held { result ≡ answer_of (history_in history.old) }
    ensures empty { history_in history.new ≡ None }
{
    history.slot.close(alloc)
}

/// Keeps a copy of a datagram under its number, and returns `OK`; one that is held under this number stays. Of more
/// than fit the lowest numbers go, and up to a number that went nothing is kept any more. Or `MEMORY`, and nothing has
/// changed.
#[unsafe(no_mangle)]
pub extern "C" fn jilqamur_history_keep(
    alloc: Global,
    history: &mut HistoryHandle,
    number: u64,
    datagram: &[u8],
) -> u32
    ensures outcome { AtObject (history_in history.old) (history_in history.new) result
        (λ p after. result ≢ memory → result ≡ ok) }
    ensures kept { AtObject (history_in history.old) (history_in history.new) result
        (λ p after. result ≡ ok → after ≡ kept p number datagram.now) }
    ensures unchanged { result ≢ ok → history_in history.new ≡ history_in history.old }
{
    if !history.slot.is_open() {
        return codes::CLOSED;
    }
    let Object::History(held) = history.slot.place.held() else {
        unreachable!();
    };
    match held.keep(alloc, number, datagram) {
        Ok(()) => codes::OK,
        Err(_) => codes::MEMORY,
    }
}

/// Copies the datagram that a NACK asks for by the low 16 bits of its number (PID) to the front of a buffer, and
/// returns `OK`, or `TOO_SMALL`, and the buffer is unchanged; `needed` is the count of its bytes. The number is the
/// greatest one of these bits that isn't above the newest held: `NOTHING` if it isn't held.
#[unsafe(no_mangle)]
pub extern "C" fn jilqamur_history_asked(
    history: &mut HistoryHandle,
    low: u16,
    buffer: &mut [u8],
    needed: &mut usize,
) -> u32
    ensures asked { AtObject (history_in history.old) (history_in history.new) result
        (λ p after. IsFetched (asked p low) buffer.old result needed.new buffer.new) }
    ensures closed { result ≡ closed → (needed.new ≡ needed.old) × (buffer.new ≡ buffer.old) }
    ensures nothing { result ≡ nothing → needed.new ≡ needed.old }
    ensures unchanged { history_in history.new ≡ history_in history.old }
{
    if !history.slot.is_open() {
        return codes::CLOSED;
    }
    let Object::History(held) = history.slot.place.held() else {
        unreachable!();
    };
    match held.asked(low) {
        None => codes::NOTHING,
        Some(datagram) => copy_out(datagram, buffer, needed),
    }
}

//! Windows: opened, given datagrams, and closed.
//! Each call returns `CLOSED` at a closed handle, and changes nothing then.

ghost use Rattle.std.specs.Prelude.{◌≡◌, ◌≢◌, Some, None, IsSome, MatchOption};
ghost use Rattle.std.specs.Option.{option_map};
ghost use Rattle.rtp_wire.specs.Header.{header_in};
ghost use Rattle.rtp_wire.specs.Run.{reception_of};
ghost use Rattle.rtp_wire.specs.Maps.{empty_map};
ghost use Rattle.jilqamur.specs.Codes.{ok, memory, in_use, closed};
ghost use Rattle.jilqamur.specs.Handles.{answer_of};
ghost use Rattle.jilqamur.specs.Windows.{ReceivedAs, behind, fresh};
ghost use Rattle.jilqamur.specs.Held.{window_in};

use crate::codes;
use crate::handle::WindowHandle;
use crate::object::Object;
use crate::replay::{Replay, reception_code};
use std::alloc::Global;

/// Holds a new window, and returns `OK`; or `IN_USE` if it holds one already, or `MEMORY`, and is unchanged.
#[unsafe(no_mangle)]
pub extern "C" fn jilqamur_window_open(alloc: Global, window: &mut WindowHandle) -> u32
    ensures opened { result ≡ ok → window_in window.new ≡ Some fresh }
    ensures held_none { result ≡ ok → window_in window.old ≡ None }
    ensures in_use { IsSome (window_in window.old) → result ≡ in_use }
    ensures only_in_use { result ≡ in_use → IsSome (window_in window.old) }
    ensures refusal { result ≢ ok → result ≢ memory → result ≡ in_use }
    ensures unchanged { result ≢ ok → window_in window.new ≡ window_in window.old }
{
    if window.slot.is_open() {
        return codes::IN_USE;
    }
    match Box::new(alloc, Object::Window(Replay { window: None })) {
        Ok(replay) => {
            window.slot.put(replay);
            codes::OK
        }
        Err(_) => codes::MEMORY,
    }
}

/// Frees the window, and returns `OK`, or `CLOSED` if it holds none; it holds nothing from now on.
#[unsafe(no_mangle)]
pub extern "C" fn jilqamur_window_close(alloc: Global, window: &mut WindowHandle) -> u32
    ensures held { result ≡ answer_of (window_in window.old) }
    ensures empty { window_in window.new ≡ None }
{
    window.slot.close(alloc)
}

/// Takes a datagram in, and returns `OK`: `number` is its widened sequence number, which is recorded. `UNREADABLE`
/// if it doesn't begin with a header, or `REFUSED` if its number came before, or is 1,024 or more below the
/// greatest, and nothing has changed.
#[unsafe(no_mangle)]
pub extern "C" fn jilqamur_window_receive(
    window: &mut WindowHandle,
    datagram: &[u8],
    number: &mut u64,
) -> u32
    ensures closed { window_in window.old ≡ None → (result ≡ closed) × (number.new ≡ number.old) }
    ensures answer { MatchOption (window_in window.old) (result ≡ closed) (λ r. ReceivedAs
        (reception_of r.window (header_in empty_map datagram.now)) result number.old number.new) }
    ensures after { window_in window.new ≡ option_map (behind datagram.now) (window_in window.old) }
{
    if !window.slot.is_open() {
        return codes::CLOSED;
    }
    let Object::Window(replay) = window.slot.place.held() else {
        unreachable!();
    };
    let reception = replay.receive(datagram);
    reception_code(reception, number)
}

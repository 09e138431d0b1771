//! What receivers ask for by generic NACKs (RFC 4585 6.2.1).
//! Each call but `open` returns `CLOSED` at a closed handle, and changes nothing then.

ghost use Rattle.std.specs.Prelude.{◌≡◌, ◌≢◌, ◌<◌, ◌≤◌, ◌++◌, drop, length, None, Some, IsSome};
ghost use Rattle.std.specs.List.Sorted.{IsStrictlyIncreasing};
ghost use Rattle.rtp_media_nack.specs.Requests.{after_call, due, nothing_missing};
ghost use Rattle.jilqamur.specs.Codes.{closed, in_use, memory, ok, out_of_range, too_small};
ghost use Rattle.jilqamur.specs.Copies.{IsCopied};
ghost use Rattle.jilqamur.specs.Handles.{AtObject, answer_of};
ghost use Rattle.jilqamur.specs.Held.{requester_in};

use crate::codes;
use crate::copying::copy_numbers;
use crate::handle::RequesterHandle;
use crate::object::Object;
use rtp_media_nack::{NackRequester, is_rising};
use std::alloc::Global;

/// Holds a requester that asks for each missing number at most `most` times, the first time `delay` ticks after it is
/// missing, and returns `OK`; or `IN_USE` if it is open, or `MEMORY`, and is unchanged.
#[unsafe(no_mangle)]
pub extern "C" fn jilqamur_requester_open(
    alloc: Global,
    requester: &mut RequesterHandle,
    most: u32,
    delay: u64,
) -> u32
    ensures opened { result ≡ ok → requester_in requester.new ≡ Some (nothing_missing most delay) }
    ensures held_none { result ≡ ok → requester_in requester.old ≡ None }
    ensures in_use { IsSome (requester_in requester.old) → result ≡ in_use }
    ensures only_in_use { result ≡ in_use → IsSome (requester_in requester.old) }
    ensures refusal { result ≢ ok → result ≢ memory → result ≡ in_use }
    ensures unchanged { result ≢ ok → requester_in requester.new ≡ requester_in requester.old }
{
    if requester.slot.is_open() {
        return codes::IN_USE;
    }
    let opened = NackRequester::new(alloc, most, delay);
    match Box::new(alloc, Object::Requester(opened)) {
        Ok(opened) => {
            requester.slot.put(opened);
            codes::OK
        }
        Err(_) => codes::MEMORY,
    }
}

/// Frees the requester, and returns `OK`, or `CLOSED` if it was closed; from now on it is closed.
#[unsafe(no_mangle)]
pub extern "C" fn jilqamur_requester_close(alloc: Global, requester: &mut RequesterHandle) -> u32
    ensures held { result ≡ answer_of (requester_in requester.old) }
    ensures empty { requester_in requester.new ≡ None }
{
    requester.slot.close(alloc)
}

/// Copies the numbers to ask for now to the front of a buffer, of those that are missing now, and returns `OK`;
/// `needed` is their count. `OUT_OF_RANGE` if the missing numbers don't rise, `TOO_SMALL` if the buffer is shorter than
/// the list of missing numbers, or `MEMORY`, and nothing has changed.
#[unsafe(no_mangle)]
pub extern "C" fn jilqamur_requester_ask(
    alloc: Global,
    requester: &mut RequesterHandle,
    missing: &[u64],
    now: u64,
    round_trip: u64,
    numbers: &mut [u64],
    needed: &mut usize,
) -> u32
    ensures asked { AtObject (requester_in requester.old) (requester_in requester.new) result
        (λ p after. result ≡ ok
        → IsCopied (due p now round_trip missing.now) numbers.old result needed.new numbers.new) }
    ensures after { AtObject (requester_in requester.old) (requester_in requester.new) result
        (λ p after. result ≡ ok → after ≡ after_call p now round_trip missing.now) }
    ensures outcome { AtObject (requester_in requester.old) (requester_in requester.new) result
        (λ p after. result ≢ memory → result ≢ out_of_range → result ≢ too_small → result ≡ ok) }
    ensures rising { AtObject (requester_in requester.old) (requester_in requester.new) result
        (λ p after. result ≢ out_of_range → IsStrictlyIncreasing missing.now) }
    ensures out_of_range { result ≡ out_of_range → ¬ (IsStrictlyIncreasing missing.now) }
    ensures too_small { result ≡ too_small → length numbers.old < length missing.now }
    ensures room { AtObject (requester_in requester.old) (requester_in requester.new) result
        (λ p after. result ≢ out_of_range → result ≢ too_small → length missing.now ≤ length numbers.old) }
    ensures unchanged { result ≢ ok → requester_in requester.new ≡ requester_in requester.old }
    ensures kept { result ≢ ok → (needed.new ≡ needed.old) × (numbers.new ≡ numbers.old) }
{
    if !requester.slot.is_open() {
        return codes::CLOSED;
    }
    if !is_rising(missing) {
        return codes::OUT_OF_RANGE;
    }
    if numbers.len() < missing.len() {
        return codes::TOO_SMALL;
    }
    let Object::Requester(held) = requester.slot.place.held() else {
        unreachable!();
    };
    match held.ask(alloc, missing, now, round_trip) {
        Ok(due) => copy_numbers(due.as_slice(), numbers, needed),
        Err(_) => codes::MEMORY,
    }
}

//! Forwarders: packets of several streams numbered and timed as those of one.
//! Each call but `open` returns `CLOSED` at a closed handle, and changes nothing then.

ghost use Rattle.std.specs.Prelude.{◌≡◌, ◌≢◌, None, Some, IsSome};
ghost use Rattle.rtp_media_forward.specs.Forwarding.{after_packet, ended, is_next_of, nothing_from, passed_empty};
ghost use Rattle.rtp_media_forward.specs.Forwarding.{placed, skipped, switched};
ghost use Rattle.jilqamur.specs.Codes.{ok, memory, in_use, closed};
ghost use Rattle.jilqamur.specs.Forwarders.{TellsPlaced, code_of_next};
ghost use Rattle.jilqamur.specs.Handles.{AtObject, answer_of};
ghost use Rattle.jilqamur.specs.Held.{forwarder_in};

use crate::codes;
use crate::handle::ForwarderHandle;
use crate::object::Object;
use rtp_media_forward::{Forwarder, Placed};
use std::alloc::Global;

/// The number and timestamp under which a packet is sent on.
#[repr(C)]
#[derive(Clone, Copy, Drop)]
pub struct WirePlaced {
    /// The sequence number, 64 bits wide.
    pub number: u64,
    /// The RTP timestamp.
    pub time: u32,
}

/// Tells where a packet is placed, if it is, and returns `OK`; else `NOTHING`, and `told` is unchanged.
fn placed_code(placed: Option<Placed>, told: &mut WirePlaced) -> u32
    ensures { TellsPlaced placed told.old result told.new }
{
    match placed {
        None => codes::NOTHING,
        Some(placed) => {
            *told = WirePlaced {
                number: placed.number,
                time: placed.time,
            };
            codes::OK
        }
    }
}

/// Holds a forwarder that sends nothing on, whose first packet will get the number `first`, and returns `OK`; or
/// `IN_USE` if it is open, or `MEMORY`, and is unchanged.
#[unsafe(no_mangle)]
pub extern "C" fn jilqamur_forwarder_open(
    alloc: Global,
    forwarder: &mut ForwarderHandle,
    first: u64,
) -> u32
    ensures opened { result ≡ ok → forwarder_in forwarder.new ≡ Some (nothing_from first) }
    ensures held_none { result ≡ ok → forwarder_in forwarder.old ≡ None }
    ensures in_use { IsSome (forwarder_in forwarder.old) → result ≡ in_use }
    ensures only_in_use { result ≡ in_use → IsSome (forwarder_in forwarder.old) }
    ensures refusal { result ≢ ok → result ≢ memory → result ≡ in_use }
    ensures unchanged { result ≢ ok → forwarder_in forwarder.new ≡ forwarder_in forwarder.old }
{
    if forwarder.slot.is_open() {
        return codes::IN_USE;
    }
    match Box::new(alloc, Object::Forwarder(Forwarder::new(alloc, first))) {
        Ok(opened) => {
            forwarder.slot.put(opened);
            codes::OK
        }
        Err(_) => codes::MEMORY,
    }
}

/// Frees the forwarder, and returns `OK`, or `CLOSED` if it was closed; from now on it is closed.
#[unsafe(no_mangle)]
pub extern "C" fn jilqamur_forwarder_close(alloc: Global, forwarder: &mut ForwarderHandle) -> u32
    ensures held { result ≡ answer_of (forwarder_in forwarder.old) }
    ensures empty { forwarder_in forwarder.new ≡ None }
{
    forwarder.slot.close(alloc)
}

/// Goes over to a source, from its packet of this number and timestamp on, which gets the timestamp `at` and the next
/// number, and returns `OK`; or `MEMORY`, and nothing has changed.
#[unsafe(no_mangle)]
pub extern "C" fn jilqamur_forwarder_switch(
    forwarder: &mut ForwarderHandle,
    source: u64,
    number: u64,
    time: u32,
    at: u32,
) -> u32
    ensures outcome { AtObject (forwarder_in forwarder.old) (forwarder_in forwarder.new) result
        (λ p after. result ≢ memory → result ≡ ok) }
    ensures switched { AtObject (forwarder_in forwarder.old) (forwarder_in forwarder.new) result
        (λ p after. result ≡ ok → after ≡ switched p source number time at) }
    ensures unchanged { result ≢ ok → forwarder_in forwarder.new ≡ forwarder_in forwarder.old }
{
    if !forwarder.slot.is_open() {
        return codes::CLOSED;
    }
    let Object::Forwarder(held) = forwarder.slot.place.held() else {
        unreachable!();
    };
    match held.switch(source, number, time, at) {
        Ok(()) => codes::OK,
        Err(_) => codes::MEMORY,
    }
}

/// Leaves out what the source that is sent on last sends before the packet of this number, which gets the next number,
/// and returns `OK`; or `MEMORY`, and nothing has changed. Before the first switch it does nothing.
#[unsafe(no_mangle)]
pub extern "C" fn jilqamur_forwarder_skip_to(forwarder: &mut ForwarderHandle, number: u64) -> u32
    ensures outcome { AtObject (forwarder_in forwarder.old) (forwarder_in forwarder.new) result
        (λ p after. result ≢ memory → result ≡ ok) }
    ensures skipped { AtObject (forwarder_in forwarder.old) (forwarder_in forwarder.new) result
        (λ p after. result ≡ ok → after ≡ skipped p number) }
    ensures unchanged { result ≢ ok → forwarder_in forwarder.new ≡ forwarder_in forwarder.old }
{
    if !forwarder.slot.is_open() {
        return codes::CLOSED;
    }
    let Object::Forwarder(held) = forwarder.slot.place.held() else {
        unreachable!();
    };
    match held.skip_to(number) {
        Ok(()) => codes::OK,
        Err(_) => codes::MEMORY,
    }
}

/// Says that what is sent on of the last source ends before its packet of this number, and returns `OK`: the next
/// piece begins where that packet would be.
#[unsafe(no_mangle)]
pub extern "C" fn jilqamur_forwarder_end_at(forwarder: &mut ForwarderHandle, number: u64) -> u32
    ensures ended { AtObject (forwarder_in forwarder.old) (forwarder_in forwarder.new) result
        (λ p after. (result ≡ ok) × (after ≡ ended p number)) }
{
    if !forwarder.slot.is_open() {
        return codes::CLOSED;
    }
    let Object::Forwarder(held) = forwarder.slot.place.held() else {
        unreachable!();
    };
    held.end_at(number);
    codes::OK
}

/// Leaves a source's packet out that carries nothing to send on, as one of only padding, and returns `OK`: the source's
/// packet after it gets the number that it would have; `NOTHING` if it wouldn't get the next number, and it may be told
/// again after the packets before it; or `MEMORY`. Nothing has changed unless it is `OK`.
#[unsafe(no_mangle)]
pub extern "C" fn jilqamur_forwarder_pass_empty(
    forwarder: &mut ForwarderHandle,
    source: u64,
    number: u64,
) -> u32
    ensures outcome { AtObject (forwarder_in forwarder.old) (forwarder_in forwarder.new) result
        (λ p after. result ≢ memory → result ≡ code_of_next (is_next_of p source number)) }
    ensures passed { AtObject (forwarder_in forwarder.old) (forwarder_in forwarder.new) result
        (λ p after. result ≡ ok → after ≡ passed_empty p source number) }
    ensures unchanged { result ≢ ok → forwarder_in forwarder.new ≡ forwarder_in forwarder.old }
{
    if !forwarder.slot.is_open() {
        return codes::CLOSED;
    }
    let Object::Forwarder(held) = forwarder.slot.place.held() else {
        unreachable!();
    };
    match held.pass_empty(source, number) {
        Ok(true) => codes::OK,
        Ok(false) => codes::NOTHING,
        Err(_) => codes::MEMORY,
    }
}

/// Tells under which number and timestamp a source's packet of these is sent on, and returns `OK`; or `NOTHING` if it
/// isn't sent on, and `told` is unchanged.
#[unsafe(no_mangle)]
pub extern "C" fn jilqamur_forwarder_place(
    forwarder: &mut ForwarderHandle,
    source: u64,
    number: u64,
    time: u32,
    told: &mut WirePlaced,
) -> u32
    ensures placed { AtObject (forwarder_in forwarder.old) (forwarder_in forwarder.new) result
        (λ p after. TellsPlaced (placed p source number time) told.old result told.new) }
    ensures closed { result ≡ closed → told.new ≡ told.old }
    ensures unchanged { forwarder_in forwarder.new ≡ forwarder_in forwarder.old }
{
    if !forwarder.slot.is_open() {
        return codes::CLOSED;
    }
    let Object::Forwarder(held) = forwarder.slot.place.held() else {
        unreachable!();
    };
    placed_code(held.place(source, number, time), told)
}

/// The same, and the number is given: the next piece begins above it. `ends` says whether the packet is the last one of
/// its frame.
#[unsafe(no_mangle)]
pub extern "C" fn jilqamur_forwarder_forward(
    forwarder: &mut ForwarderHandle,
    source: u64,
    number: u64,
    time: u32,
    ends: bool,
    told: &mut WirePlaced,
) -> u32
    ensures placed { AtObject (forwarder_in forwarder.old) (forwarder_in forwarder.new) result
        (λ p after. TellsPlaced (placed p source number time) told.old result told.new) }
    ensures given { AtObject (forwarder_in forwarder.old) (forwarder_in forwarder.new) result
        (λ p after. after ≡ after_packet p (placed p source number time) ends) }
    ensures closed { result ≡ closed → told.new ≡ told.old }
{
    if !forwarder.slot.is_open() {
        return codes::CLOSED;
    }
    let Object::Forwarder(held) = forwarder.slot.place.held() else {
        unreachable!();
    };
    placed_code(held.forward(source, number, time, ends), told)
}

/// Tells the first number above all those that were given, and returns `OK`.
#[unsafe(no_mangle)]
pub extern "C" fn jilqamur_forwarder_next(forwarder: &mut ForwarderHandle, next: &mut u64) -> u32
    ensures told { AtObject (forwarder_in forwarder.old) (forwarder_in forwarder.new) result
        (λ p after. (result ≡ ok) × (next.new ≡ p.next)) }
    ensures closed { result ≡ closed → next.new ≡ next.old }
    ensures unchanged { forwarder_in forwarder.new ≡ forwarder_in forwarder.old }
{
    if !forwarder.slot.is_open() {
        return codes::CLOSED;
    }
    let Object::Forwarder(held) = forwarder.slot.place.held() else {
        unreachable!();
    };
    *next = held.next();
    codes::OK
}

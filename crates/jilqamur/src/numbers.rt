//! Sequence numbers of an end's streams: what is missing, what is passed over, and what comes next.
//! Each call returns `CLOSED` at a closed handle, and changes nothing then.

ghost use Rattle.std.specs.Prelude.{◌≡◌, ◌≢◌, IfOk};
ghost use Rattle.jilqamur.specs.Answers.{AtEnd};
ghost use Rattle.jilqamur.specs.Codes.{ok, too_small};
ghost use Rattle.jilqamur.specs.Copies.{IsCopied};
ghost use Rattle.jilqamur.specs.Handles.{AtObject};
ghost use Rattle.jilqamur.specs.Held.{end_in};
ghost use Rattle.jilqamur.specs.HeldEnds.{behind_end};
ghost use Rattle.jilqamur.specs.Numbers.{AnswersPassed, KeepsWithin, PassesEmpty, PassesTo, SkipsTo, TellsMissing};
ghost use Rattle.jilqamur.specs.Numbers.{TellsNext};

use crate::codes;
use crate::copying::copy_numbers;
use crate::handle::EndHandle;
use crate::object::Object;
use rtp_wire::SeqNo;
use std::alloc::{AllocError, Global};

/// The numbers as C programs see them.
pub fn wide(alloc: Global, numbers: &[SeqNo]) -> Result<Vec<u64>, AllocError>
    ensures { IfOk result (λ all. all.items ≡ numbers.now) }
{
    let mut all = Vec::new(alloc);
    for number in numbers {
        all.push(number.get())?;
    }
    Ok(all)
}

/// Copies the missing numbers of a receiving stream, in increasing order, and returns `OK`, or `TOO_SMALL`, and the
/// buffer is unchanged; `needed` is their count, at most 1,023. They are those after the last unit's, or, before any
/// unit, after the lowest packet that waits, that were not taken, below the greatest that was and within the replay
/// window: what a generic NACK may ask for (RFC 4585 6.2.1). `NOT_MADE` without an end, `NO_STREAM` if no receiving
/// stream has the number, or `MEMORY`.
#[unsafe(no_mangle)]
pub extern "C" fn jilqamur_end_missing(
    alloc: Global,
    end: &mut EndHandle,
    stream: usize,
    numbers: &mut [u64],
    needed: &mut usize,
) -> u32
    ensures answer { AtObject (end_in end.old) (end_in end.new) result
        (λ p after. AtEnd p.end after.end result
        (λ e now. TellsMissing e stream numbers.old result needed.new numbers.new)) }
    ensures kept { result ≢ ok → numbers.new ≡ numbers.old }
    ensures needed { result ≢ ok → result ≢ too_small → needed.new ≡ needed.old }
    ensures unchanged { end_in end.new ≡ end_in end.old }
{
    if !end.slot.is_open() {
        return codes::CLOSED;
    }
    let Object::End(held) = end.slot.place.held() else {
        unreachable!();
    };
    let Some(end) = &held.end else {
        return codes::NOT_MADE;
    };
    if !end.is_receiver(stream) {
        return codes::NO_STREAM;
    }
    let Ok(missing) = end.missing(stream) else {
        return codes::MEMORY;
    };
    let Ok(missing) = wide(alloc, missing.as_slice()) else {
        return codes::MEMORY;
    };
    copy_numbers(missing.as_slice(), numbers, needed)
}

/// `OK` if a number of a receiving stream is passed: a unit with this number or one above it was handed out, or a
/// frame with it was refused, so that a datagram of this number is of no use any more; `NOTHING` if it isn't.
/// `NOT_MADE` without an end, `NO_STREAM` if no receiving stream has the number.
#[unsafe(no_mangle)]
pub extern "C" fn jilqamur_end_is_passed(end: &mut EndHandle, stream: usize, number: u64) -> u32
    ensures answer { AtObject (end_in end.old) (end_in end.new) result
        (λ p after. AtEnd p.end after.end result (λ e now. AnswersPassed e stream number result)) }
    ensures unchanged { end_in end.new ≡ end_in end.old }
{
    if !end.slot.is_open() {
        return codes::CLOSED;
    }
    let Object::End(held) = end.slot.place.held() else {
        unreachable!();
    };
    let Some(end) = &held.end else {
        return codes::NOT_MADE;
    };
    if !end.is_receiver(stream) {
        return codes::NO_STREAM;
    }
    if end.is_passed(stream, SeqNo::from(number)) {
        codes::OK
    } else {
        codes::NOTHING
    }
}

/// Passes all numbers of a receiving stream up to this one, and returns `OK`: what waits of them is dropped, an open
/// fragment is given up, and the frame after the number is next, so that hold-back protects it. A number that is passed
/// already changes nothing. `NOT_MADE` without an end, `NO_STREAM` if no receiving stream has the number.
#[unsafe(no_mangle)]
pub extern "C" fn jilqamur_end_pass_to(end: &mut EndHandle, stream: usize, number: u64) -> u32
    ensures answer { AtObject (end_in end.old) (end_in end.new) result
        (λ p after. AtEnd p.end after.end result (λ e now. PassesTo e stream number result now)) }
    ensures rest { AtObject (end_in end.old) (end_in end.new) result
        (λ p after. after ≡ behind_end p after.end) }
{
    if !end.slot.is_open() {
        return codes::CLOSED;
    }
    let Object::End(held) = end.slot.place.held() else {
        unreachable!();
    };
    let Some(end) = &mut held.end else {
        return codes::NOT_MADE;
    };
    if !end.is_receiver(stream) {
        return codes::NO_STREAM;
    }
    end.pass_to(stream, SeqNo::from(number));
    codes::OK
}

/// Tells a receiving stream that a number carries nothing for it, as one of padding alone (RFC 3550 5.1), or of another
/// payload type of its SSRC; returns `OK` if it was the next after the last that is passed, and is now passed, so that
/// no frame waits for it, or `NOTHING`, and it may be told again after the next unit. `NOT_MADE` without an end,
/// `NO_STREAM` if no receiving stream has the number.
#[unsafe(no_mangle)]
pub extern "C" fn jilqamur_end_pass_empty(end: &mut EndHandle, stream: usize, number: u64) -> u32
    ensures answer { AtObject (end_in end.old) (end_in end.new) result
        (λ p after. AtEnd p.end after.end result (λ e now. PassesEmpty e stream number result now)) }
    ensures rest { AtObject (end_in end.old) (end_in end.new) result
        (λ p after. after ≡ behind_end p after.end) }
{
    if !end.slot.is_open() {
        return codes::CLOSED;
    }
    let Object::End(held) = end.slot.place.held() else {
        unreachable!();
    };
    let Some(end) = &mut held.end else {
        return codes::NOT_MADE;
    };
    if !end.is_receiver(stream) {
        return codes::NO_STREAM;
    }
    if end.pass_empty(stream, SeqNo::from(number)) {
        codes::OK
    } else {
        codes::NOTHING
    }
}

/// Gives memory of a receiving stream back, and returns `OK`: of the packets that wait those with the highest numbers
/// stay, whose payloads have at most `bytes` bytes together, and the numbers below them are passed; a fragment that is
/// open between units is given up if any packet went, or if it has more bytes. A call each time so many bytes came in
/// keeps the stream within twice as many, whatever a peer sends. `NOT_MADE` without an end, `NO_STREAM` if no receiving
/// stream has the number.
#[unsafe(no_mangle)]
pub extern "C" fn jilqamur_end_keep_within(end: &mut EndHandle, stream: usize, bytes: usize) -> u32
    ensures answer { AtObject (end_in end.old) (end_in end.new) result
        (λ p after. AtEnd p.end after.end result (λ e now. KeepsWithin e stream bytes result now)) }
    ensures rest { AtObject (end_in end.old) (end_in end.new) result
        (λ p after. after ≡ behind_end p after.end) }
{
    if !end.slot.is_open() {
        return codes::CLOSED;
    }
    let Object::End(held) = end.slot.place.held() else {
        unreachable!();
    };
    let Some(end) = &mut held.end else {
        return codes::NOT_MADE;
    };
    if !end.is_receiver(stream) {
        return codes::NO_STREAM;
    }
    end.keep_within(stream, bytes);
    codes::OK
}

/// Tells the number that the next datagram of a sending stream's samples gets, and returns `OK`. `NOT_MADE` without an
/// end, `NO_STREAM` if no sending stream has the number, and nothing is told.
#[unsafe(no_mangle)]
pub extern "C" fn jilqamur_end_next_number(
    end: &mut EndHandle,
    stream: usize,
    next: &mut u64,
) -> u32
    ensures answer { AtObject (end_in end.old) (end_in end.new) result
        (λ p after. AtEnd p.end after.end result (λ e now. TellsNext e stream result next.new)) }
    ensures kept { result ≢ ok → next.new ≡ next.old }
    ensures unchanged { end_in end.new ≡ end_in end.old }
{
    if !end.slot.is_open() {
        return codes::CLOSED;
    }
    let Object::End(held) = end.slot.place.held() else {
        unreachable!();
    };
    let Some(end) = &held.end else {
        return codes::NOT_MADE;
    };
    if !end.is_sender(stream) {
        return codes::NO_STREAM;
    }
    *next = end.next_number(stream);
    codes::OK
}

/// Leaves numbers of a sending stream out, and returns `OK`: its samples never send those from its next number up to
/// this one. A number that isn't above the next one changes nothing. `NOT_MADE` without an end, `NO_STREAM` if no
/// sending stream has the number.
#[unsafe(no_mangle)]
pub extern "C" fn jilqamur_end_skip_to(end: &mut EndHandle, stream: usize, number: u64) -> u32
    ensures answer { AtObject (end_in end.old) (end_in end.new) result
        (λ p after. AtEnd p.end after.end result (λ e now. SkipsTo e stream number result now)) }
    ensures rest { AtObject (end_in end.old) (end_in end.new) result
        (λ p after. after ≡ behind_end p after.end) }
{
    if !end.slot.is_open() {
        return codes::CLOSED;
    }
    let Object::End(held) = end.slot.place.held() else {
        unreachable!();
    };
    let Some(end) = &mut held.end else {
        return codes::NOT_MADE;
    };
    if !end.is_sender(stream) {
        return codes::NO_STREAM;
    }
    end.skip_to(stream, number);
    codes::OK
}

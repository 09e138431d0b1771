//! Receiving streams: datagrams that come, and units that are ready.
//! Each call returns `CLOSED` at a closed handle, and changes nothing then.

ghost use Rattle.std.specs.Prelude.{◌≡◌, ◌≢◌};
ghost use Rattle.payload_core_buffer.specs.Buffered.{holding_of};
ghost use Rattle.jilqamur.specs.Codes.{ok};
ghost use Rattle.jilqamur.specs.Handles.{AtObject};
ghost use Rattle.jilqamur.specs.Answers.{AtEnd, WithText};
ghost use Rattle.jilqamur.specs.HeldEnds.{behind_end, behind_poll};
ghost use Rattle.jilqamur.specs.Receiving.{AnswersReceiver, AnswersUnsignalled, Drains, IsTakenAs, Polls, Receives};
ghost use Rattle.jilqamur.specs.Receiving.{verdict_code};
ghost use Rattle.jilqamur.specs.Held.{end_in};

use crate::answers::poll_code;
use crate::codes;
use crate::copying::text_in;
use crate::handle::EndHandle;
use crate::object::Object;
use crate::refusals::open_code;
use payload_core_buffer::is_valid_capacity;
use rtp_media_ends::End;
use rtp_media_stream_table::Received;
use rtp_wire::{Mid, Pt, Ssrc};

/// Writes the number of the stream that took a datagram and its widened sequence number, and returns the verdict's.
fn verdict_code(verdict: Received, stream: &mut usize, number: &mut u64) -> u32
    ensures code { result ≡ verdict_code verdict }
    ensures taken { IsTakenAs verdict stream.new number.new }
    ensures stream { result ≢ ok → stream.new ≡ stream.old }
    ensures number { result ≢ ok → number.new ≡ number.old }
{
    match verdict {
        Received::Unreadable => codes::UNREADABLE,
        Received::Foreign => codes::FOREIGN,
        Received::Damaged => codes::DAMAGED,
        Received::Refused => codes::REFUSED,
        Received::Taken(at, taken) => {
            *stream = at;
            *number = taken.get();
            codes::OK
        }
    }
}

/// Opens a receiving stream that may hold as many packets.
fn open_with(
    end: &mut End,
    mid: &str,
    ssrc: u32,
    pt: u8,
    hold_back: usize,
    held: usize,
    stream: &mut usize,
) -> u32
    ensures answer { AnswersReceiver end.old mid.now ssrc pt (holding_of hold_back held) result stream.new end.new }
    ensures kept { result ≢ ok → stream.new ≡ stream.old }
{
    if !is_valid_capacity(held) {
        return codes::OUT_OF_RANGE;
    }
    match end.open_receiver(
        Mid::from(mid),
        Ssrc::from(ssrc),
        Pt::from(pt),
        hold_back,
        held,
    ) {
        Ok(number) => {
            *stream = number;
            codes::OK
        }
        Err(error) => open_code(error),
    }
}

/// Opens a receiving stream with this SSRC for the agreed row with this payload type, writes its
/// number (counted from 0 over the streams of both directions), and returns `OK`. `NOT_TEXT` for a
/// mid that isn't UTF-8, `NOT_MADE` without an end, `OUT_OF_RANGE` for an invalid `held`; otherwise
/// the first that applies of `NO_SECTION`, `ROW_NOT_AGREED`, `ROW_DIFFERS`, `WRONG_DIRECTION`,
/// `SSRC_NOT_NAMED` and `ALREADY_OPEN`, or `MEMORY`, and nothing has changed.
#[unsafe(no_mangle)]
pub extern "C" fn jilqamur_end_open_receiver(
    end: &mut EndHandle,
    mid: &[u8],
    ssrc: u32,
    pt: u8,
    hold_back: usize,
    held: usize,
    stream: &mut usize,
) -> u32
    ensures answer { AtObject (end_in end.old) (end_in end.new) result
        (λ p after. WithText mid.now p.end after.end result
        (λ e now. AnswersReceiver e mid.now ssrc pt (holding_of hold_back held) result stream.new now)) }
    ensures stream { result ≢ ok → stream.new ≡ stream.old }
    ensures rest { AtObject (end_in end.old) (end_in end.new) result
        (λ p after. after ≡ behind_end p after.end) }
{
    if !end.slot.is_open() {
        return codes::CLOSED;
    }
    let Object::End(place) = end.slot.place.held() else {
        unreachable!();
    };
    let Some(mid) = text_in(mid) else {
        return codes::NOT_TEXT;
    };
    let Some(end) = &mut place.end else {
        return codes::NOT_MADE;
    };
    open_with(end, mid, ssrc, pt, hold_back, held, stream)
}

/// Opens a receiving stream of an SSRC that the section may leave out.
fn open_unsignalled_with(
    end: &mut End,
    mid: &str,
    ssrc: u32,
    pt: u8,
    hold_back: usize,
    held: usize,
    stream: &mut usize,
) -> u32
    ensures answer { AnswersUnsignalled end.old mid.now ssrc pt (holding_of hold_back held) result stream.new end.new }
    ensures kept { result ≢ ok → stream.new ≡ stream.old }
{
    if !is_valid_capacity(held) {
        return codes::OUT_OF_RANGE;
    }
    match end.open_unsignalled(
        Mid::from(mid),
        Ssrc::from(ssrc),
        Pt::from(pt),
        hold_back,
        held,
    ) {
        Ok(number) => {
            *stream = number;
            codes::OK
        }
        Err(error) => open_code(error),
    }
}

/// Opens a receiving stream as `jilqamur_end_open_receiver`, in a section whose sender names this SSRC or no SSRC at
/// all, as one whose simulcast streams `a=rid` alone tells apart (RFC 8853 6.1): the SSRC is that of a datagram that
/// came and was `FOREIGN`. `SSRC_NOT_NAMED` if the section names SSRCs, and not this one.
#[unsafe(no_mangle)]
pub extern "C" fn jilqamur_end_open_unsignalled(
    end: &mut EndHandle,
    mid: &[u8],
    ssrc: u32,
    pt: u8,
    hold_back: usize,
    held: usize,
    stream: &mut usize,
) -> u32
    ensures answer { AtObject (end_in end.old) (end_in end.new) result
        (λ p after. WithText mid.now p.end after.end result
        (λ e now. AnswersUnsignalled e mid.now ssrc pt (holding_of hold_back held) result stream.new now)) }
    ensures stream { result ≢ ok → stream.new ≡ stream.old }
    ensures rest { AtObject (end_in end.old) (end_in end.new) result
        (λ p after. after ≡ behind_end p after.end) }
{
    if !end.slot.is_open() {
        return codes::CLOSED;
    }
    let Object::End(place) = end.slot.place.held() else {
        unreachable!();
    };
    let Some(mid) = text_in(mid) else {
        return codes::NOT_TEXT;
    };
    let Some(end) = &mut place.end else {
        return codes::NOT_MADE;
    };
    open_unsignalled_with(end, mid, ssrc, pt, hold_back, held, stream)
}

/// Takes a datagram, and returns `OK` if a stream took it: `stream` is its number and `number` the
/// widened sequence number. `NOT_MADE` without an end; otherwise the first that applies of
/// `UNREADABLE`, `FOREIGN`, `DAMAGED` and `REFUSED`, or `MEMORY`, and the end is unchanged.
#[unsafe(no_mangle)]
pub extern "C" fn jilqamur_end_receive(
    end: &mut EndHandle,
    datagram: &[u8],
    stream: &mut usize,
    number: &mut u64,
) -> u32
    ensures answer { AtObject (end_in end.old) (end_in end.new) result
        (λ p after. AtEnd p.end after.end result
        (λ e now. Receives e datagram.now result stream.new number.new now)) }
    ensures stream { result ≢ ok → stream.new ≡ stream.old }
    ensures number { result ≢ ok → number.new ≡ number.old }
    ensures rest { AtObject (end_in end.old) (end_in end.new) result
        (λ p after. after ≡ behind_end p after.end) }
{
    if !end.slot.is_open() {
        return codes::CLOSED;
    }
    let Object::End(held) = end.slot.place.held() else {
        unreachable!();
    };
    let Some(end) = &mut held.end else {
        return codes::NOT_MADE;
    };
    match end.receive(datagram) {
        Ok(verdict) => verdict_code(verdict, stream, number),
        Err(_) => codes::MEMORY,
    }
}

/// Polls a receiving stream, and returns `OK` if a unit is ready; it is left to be fetched.
/// `NOT_MADE` without an end, `NO_STREAM` if no receiving stream has the number, `NOTHING` if no
/// unit is ready, `PAYLOAD` if a packet of the next frame is refused (the frame is then dropped),
/// or `MEMORY`, and the frame stays; in these cases the unit left before stays.
#[unsafe(no_mangle)]
pub extern "C" fn jilqamur_end_poll(end: &mut EndHandle, stream: usize) -> u32
    ensures answer { AtObject (end_in end.old) (end_in end.new) result
        (λ p after. AtEnd p.end after.end result
        (λ e now. Polls e stream p.unit result after.unit now)) }
    ensures kept { AtObject (end_in end.old) (end_in end.new) result
        (λ p after. result ≢ ok → after.unit ≡ p.unit) }
    ensures rest { AtObject (end_in end.old) (end_in end.new) result
        (λ p after. after ≡ behind_poll p after.end after.unit) }
{
    if !end.slot.is_open() {
        return codes::CLOSED;
    }
    let Object::End(held) = end.slot.place.held() else {
        unreachable!();
    };
    let Some(end) = &mut held.end else {
        return codes::NOT_MADE;
    };
    if !end.is_receiver(stream) {
        return codes::NO_STREAM;
    }
    let answer = end.poll(stream);
    poll_code(answer, &mut held.unit)
}

/// The same, whether or not a datagram before the lowest complete unit is missing.
#[unsafe(no_mangle)]
pub extern "C" fn jilqamur_end_drain(end: &mut EndHandle, stream: usize) -> u32
    ensures answer { AtObject (end_in end.old) (end_in end.new) result
        (λ p after. AtEnd p.end after.end result
        (λ e now. Drains e stream p.unit result after.unit now)) }
    ensures kept { AtObject (end_in end.old) (end_in end.new) result
        (λ p after. result ≢ ok → after.unit ≡ p.unit) }
    ensures rest { AtObject (end_in end.old) (end_in end.new) result
        (λ p after. after ≡ behind_poll p after.end after.unit) }
{
    if !end.slot.is_open() {
        return codes::CLOSED;
    }
    let Object::End(held) = end.slot.place.held() else {
        unreachable!();
    };
    let Some(end) = &mut held.end else {
        return codes::NOT_MADE;
    };
    if !end.is_receiver(stream) {
        return codes::NO_STREAM;
    }
    let answer = end.drain(stream);
    poll_code(answer, &mut held.unit)
}

//! Packets that an end sends on without putting frames together.
//! Each call returns `CLOSED` at a closed handle, and changes nothing then.

ghost use Rattle.std.specs.Prelude.{◌≡◌, ◌≢◌, IfErr, IfOk, OnErr, OnOk, true};
ghost use Rattle.payload_core_base.specs.Outgoing.{outgoing};
ghost use Rattle.rtp_media_streams.specs.Forwarding.{after_packet};
ghost use Rattle.rtp_media_streams.specs.Sending.{datagram_of};
ghost use Rattle.rtp_media_ends.specs.Ends.{is_sender_at, sender_at, with_sender};
ghost use Rattle.rtp_media_ends.specs.PacketSteps.{packet_step_at};
ghost use Rattle.jilqamur.specs.Codes.{ok, memory};
ghost use Rattle.jilqamur.specs.Handles.{AtObject};
ghost use Rattle.jilqamur.specs.Answers.{AtEnd, WithText};
ghost use Rattle.jilqamur.specs.HeldEnds.{behind_end, behind_sample};
ghost use Rattle.jilqamur.specs.Passing.{AnswersArrival, AnswersPacket, TakesNumber, foreign_code, forward_code};
ghost use Rattle.jilqamur.specs.Passing.{forward_outcome};
ghost use Rattle.jilqamur.specs.Sending.{values_of};
ghost use Rattle.jilqamur.specs.Held.{end_in};

use crate::codes;
use crate::copying::text_in;
use crate::handle::EndHandle;
use crate::object::Object;
use crate::sending::{mid_of, one};
use crate::values::WireValues;
use rtp_media_ends::End;
use rtp_media_stream_table::Received;
use rtp_media_streams::{Arrival, Datagram, ForwardError};
use rtp_wire::ExtensionValues;
use std::alloc::Global;

/// How a datagram arrives at a receiving stream.
#[repr(C)]
#[derive(Clone, Copy, Drop)]
pub struct WireArrival {
    /// The low 16 bits of its sequence number.
    pub low: u16,
    /// Its RTP timestamp.
    pub time: u32,
    /// Its marker bit.
    pub marker: bool,
    /// Where its payload begins in the datagram.
    pub start: usize,
    /// Where its payload ends.
    pub end: usize,
}

/// What is told of an arrival, apart from its header extensions.
fn wire_arrival(arrival: &Arrival) -> WireArrival
    ensures low { result.low ≡ arrival.now.low }
    ensures time { result.time ≡ arrival.now.time }
    ensures marker { result.marker ≡ arrival.now.marker }
    ensures start { result.start ≡ arrival.now.start }
    ensures end { result.end ≡ arrival.now.end }
{
    WireArrival {
        low: arrival.low,
        time: arrival.time,
        marker: arrival.marker,
        start: arrival.start,
        end: arrival.end,
    }
}

/// The number of the verdict on a datagram that isn't a stream's own.
fn foreign_code(verdict: Received) -> u32
    ensures code { result ≡ foreign_code verdict }
    ensures refused { result ≢ ok }
{
    match verdict {
        Received::Unreadable => codes::UNREADABLE,
        Received::Foreign => codes::FOREIGN,
        Received::Damaged => codes::DAMAGED,
        Received::Refused | Received::Taken(_, _) => codes::REFUSED,
    }
}

/// Tells how a datagram arrives at the receiving stream that would take it, without taking it, and returns `OK`:
/// `stream` is that stream's number, `arrival` what the header says and where the payload is, and `values` the values
/// of its header extensions. A repair tells what it wraps. `NOT_MADE` without an end; otherwise the first that applies
/// of `UNREADABLE`, `FOREIGN` and `DAMAGED`, and nothing is told.
#[unsafe(no_mangle)]
pub extern "C" fn jilqamur_end_arrival(
    end: &mut EndHandle,
    datagram: &[u8],
    stream: &mut usize,
    arrival: &mut WireArrival,
    values: &mut WireValues,
) -> u32
    ensures answer { AtObject (end_in end.old) (end_in end.new) result
        (λ p after. AtEnd p.end after.end result
        (λ e now. AnswersArrival e datagram.now result stream.new arrival.new values.new)) }
    ensures stream { result ≢ ok → stream.new ≡ stream.old }
    ensures arrival { result ≢ ok → arrival.new ≡ arrival.old }
    ensures values { result ≢ ok → values.new ≡ values.old }
    ensures unchanged { end_in end.new ≡ end_in end.old }
{
    if !end.slot.is_open() {
        return codes::CLOSED;
    }
    let Object::End(held) = end.slot.place.held() else {
        unreachable!();
    };
    let Some(end) = &held.end else {
        return codes::NOT_MADE;
    };
    match end.arrival(datagram) {
        Ok((at, told)) => {
            *stream = at;
            *arrival = wire_arrival(&told);
            *values = WireValues::of(&told.ext_vals);
            codes::OK
        }
        Err(verdict) => foreign_code(verdict),
    }
}

/// Takes only the number of a datagram that arrived at a receiving stream, by its low 16 bits, and returns `OK`:
/// `number` is the widened number, which is recorded; nothing waits to be polled. `NOT_MADE` without an end,
/// `NO_STREAM` if no receiving stream has the number, `REFUSED` if the number came before, or is 1,024 or more below
/// the greatest; then the end is unchanged.
#[unsafe(no_mangle)]
pub extern "C" fn jilqamur_end_take_number(
    end: &mut EndHandle,
    stream: usize,
    low: u16,
    number: &mut u64,
) -> u32
    ensures answer { AtObject (end_in end.old) (end_in end.new) result
        (λ p after. AtEnd p.end after.end result (λ e now. TakesNumber e stream low result number.new now)) }
    ensures number { result ≢ ok → number.new ≡ number.old }
    ensures rest { AtObject (end_in end.old) (end_in end.new) result
        (λ p after. after ≡ behind_end p after.end) }
{
    if !end.slot.is_open() {
        return codes::CLOSED;
    }
    let Object::End(held) = end.slot.place.held() else {
        unreachable!();
    };
    let Some(end) = &mut held.end else {
        return codes::NOT_MADE;
    };
    if !end.is_receiver(stream) {
        return codes::NO_STREAM;
    }
    match end.take_number(stream, low) {
        Some(taken) => {
            *number = taken.get();
            codes::OK
        }
        None => codes::REFUSED,
    }
}

/// The number of a refusal to send a packet on.
fn forward_code(error: ForwardError) -> u32
    ensures { result ≡ forward_code error }
{
    match error {
        ForwardError::AddsRedundancy => codes::ADDS_REDUNDANCY,
        ForwardError::NumberTooLarge => codes::NUMBER_TOO_LARGE,
        ForwardError::NoPayload => codes::NO_PAYLOAD,
        ForwardError::LimitTooSmall => codes::LIMIT_TOO_SMALL,
        ForwardError::Memory => codes::MEMORY,
    }
}

/// Sends a packet on at a sending stream; or the number of the refusal.
fn send_on(
    end: &mut End,
    stream: usize,
    number: u64,
    time: u32,
    marker: bool,
    values: &ExtensionValues,
    payload: &[u8],
) -> Result<Datagram, u32>
    requires { is_sender_at end.old stream ≡ true }
    ensures sent { IfOk result (λ d. d ≡ datagram_of (sender_at end.old stream) number
        (outgoing payload.now marker time values.now)) }
    ensures accepted { OnOk result (forward_outcome (packet_step_at end.old stream number
        (outgoing payload.now marker time values.now)).answer ≡ ok) }
    ensures after { OnOk result (end.new ≡ with_sender end.old stream
        (after_packet (sender_at end.old stream) number)) }
    ensures refused { IfErr result (λ code. code ≢ memory → code ≡ forward_outcome
        (packet_step_at end.old stream number (outgoing payload.now marker time values.now)).answer) }
    ensures not_sent { IfErr result (λ code. code ≢ ok) }
    ensures unchanged { OnErr result (end.new ≡ end.old) }
{
    match end.send_packet(stream, number, time, marker, values, payload) {
        Ok(sent) => Ok(sent),
        Err(error) => Err(forward_code(error)),
    }
}

/// Sends one packet of another stream as a datagram of a sending stream, under this number, timestamp and marker bit,
/// and returns `OK`: it is left to be fetched as the only datagram. It carries the given values, and the mid if given,
/// as far as the stream's map has an id for them. Numbers may come in any order; the stream's samples are numbered
/// above them. `NOT_TEXT` for a mid that isn't UTF-8, `NOT_MADE` without an end, `NO_STREAM` if no sending stream has
/// the number; otherwise the first that applies of `ADDS_REDUNDANCY`, `NUMBER_TOO_LARGE`, `NO_PAYLOAD` and
/// `LIMIT_TOO_SMALL`, or `MEMORY`, and the end is unchanged.
#[unsafe(no_mangle)]
pub extern "C" fn jilqamur_end_send_packet(
    alloc: Global,
    end: &mut EndHandle,
    stream: usize,
    number: u64,
    time: u32,
    marker: bool,
    values: &WireValues,
    mid: &[u8],
    payload: &[u8],
) -> u32
    ensures answer { AtObject (end_in end.old) (end_in end.new) result
        (λ p after. WithText mid.now p.end after.end result
        (λ e now. AnswersPacket e stream number (outgoing payload.now marker time (values_of values.now mid.now)) result
        after.datagrams now)) }
    ensures kept { AtObject (end_in end.old) (end_in end.new) result
        (λ p after. result ≢ ok → after.datagrams ≡ p.datagrams) }
    ensures rest { AtObject (end_in end.old) (end_in end.new) result
        (λ p after. after ≡ behind_sample p after.end after.datagrams) }
{
    if !end.slot.is_open() {
        return codes::CLOSED;
    }
    let Object::End(held) = end.slot.place.held() else {
        unreachable!();
    };
    let Some(mid) = text_in(mid) else {
        return codes::NOT_TEXT;
    };
    let Some(end) = &mut held.end else {
        return codes::NOT_MADE;
    };
    if !end.is_sender(stream) {
        return codes::NO_STREAM;
    }
    // Memory is reserved before the packet is sent, since sending it moves the stream's numbers.
    let Ok(mut left) = one(alloc, Datagram::from_vec(Vec::new(alloc))) else {
        return codes::MEMORY;
    };
    let values = values.values(mid_of(mid));
    match send_on(end, stream, number, time, marker, &values, payload) {
        Ok(sent) => {
            left[0] = sent;
            held.datagrams = left;
            codes::OK
        }
        Err(code) => code,
    }
}

//! Sending streams: samples that become datagrams.
//! Each call returns `CLOSED` at a closed handle, and changes nothing then.

ghost use Rattle.std.specs.Prelude.{◌≡◌, ◌≢◌, ◌∷◌, [], length, IfOk};
ghost use Rattle.jilqamur.specs.Codes.{ok, memory, closed};
ghost use Rattle.jilqamur.specs.Handles.{AtObject};
ghost use Rattle.jilqamur.specs.Answers.{AtEnd, WithText};
ghost use Rattle.jilqamur.specs.HeldEnds.{behind_end, behind_sample};
ghost use Rattle.jilqamur.specs.Params.{params_of};
ghost use Rattle.jilqamur.specs.Sending.{AnswersRepair, AnswersSender, AnswersSample, mid_of, repair_code};
ghost use Rattle.jilqamur.specs.Held.{end_in};

use crate::answers::sample_code;
use crate::codes;
use crate::copying::text_in;
use crate::handle::EndHandle;
use crate::object::Object;
use crate::params::{WireStream, params_of};
use crate::refusals::open_code;
use crate::values::WireValues;
use rtp_media_ends::{End, StreamParams};
use rtp_media_streams::{Datagram, RepairError};
use rtp_wire::{MediaTime, Mid, Pt, Ssrc};
use std::alloc::{AllocError, Global};

/// The name of a section, if one is given.
pub(crate) fn mid_of(text: &str) -> Option<Mid>
    ensures { result ≡ mid_of text.now }
{
    if text.is_empty() {
        return None;
    }
    Some(Mid::from(text))
}

/// Opens a sending stream of these parameters, if they are sound.
fn open_with(
    end: &mut End,
    mid: &str,
    ssrc: u32,
    pt: u8,
    params: StreamParams,
    stream: &mut usize,
) -> u32
    ensures answer { AnswersSender end.old mid.now ssrc pt params result stream.new end.new }
    ensures kept { result ≢ ok → stream.new ≡ stream.old }
{
    let (mid, pt) = (Mid::from(mid), Pt::from(pt));
    if !params.is_sound(end.agreed_red(mid, pt)) {
        return codes::OUT_OF_RANGE;
    }
    match end.open_sender(mid, Ssrc::from(ssrc), pt, params) {
        Ok(number) => {
            *stream = number;
            codes::OK
        }
        Err(error) => open_code(error),
    }
}

/// Opens a sending stream of this SSRC for the agreed row of a payload type, writes its number, counted from 0
/// over the streams of both directions, and returns `OK`. `NOT_TEXT` for a name that isn't UTF-8, `NOT_MADE` without
/// an end, `OUT_OF_RANGE` for parameters that aren't sound for the row's RED type; else the first that holds of
/// `NO_SECTION`, `ROW_NOT_AGREED`, `ROW_DIFFERS`, `WRONG_DIRECTION`, `SSRC_NOT_NAMED` and `ALREADY_OPEN`, or
/// `MEMORY`. Nothing has changed then.
#[unsafe(no_mangle)]
pub extern "C" fn jilqamur_end_open_sender(
    alloc: Global,
    end: &mut EndHandle,
    mid: &[u8],
    ssrc: u32,
    pt: u8,
    params: &WireStream,
    distances: &[u8],
    stream: &mut usize,
) -> u32
    ensures answer { AtObject (end_in end.old) (end_in end.new) result
        (λ p after. result ≢ memory → WithText mid.now p.end after.end result
        (λ e now. AnswersSender e mid.now ssrc pt (params_of params.now distances.now) result stream.new now)) }
    ensures memory { AtObject (end_in end.old) (end_in end.new) result
        (λ p after. result ≡ memory → after ≡ p) }
    ensures stream { result ≢ ok → stream.new ≡ stream.old }
    ensures rest { AtObject (end_in end.old) (end_in end.new) result
        (λ p after. after ≡ behind_end p after.end) }
{
    if !end.slot.is_open() {
        return codes::CLOSED;
    }
    let Object::End(held) = end.slot.place.held() else {
        unreachable!();
    };
    let Some(mid) = text_in(mid) else {
        return codes::NOT_TEXT;
    };
    let Some(end) = &mut held.end else {
        return codes::NOT_MADE;
    };
    let Ok(params) = params_of(alloc, params, distances) else {
        return codes::MEMORY;
    };
    open_with(end, mid, ssrc, pt, params, stream)
}

/// Sends a sample with a time in ticks of the row's clock, and returns `OK`: its datagrams, each
/// with at most `mtu` bytes of payload, are left to be fetched in place of the earlier ones, and
/// `count` is their number. They carry the given header extension values, and the section's mid if
/// given, as far as the stream's map has an id for them (RFC 8285, RFC 9143 15). `NOT_TEXT` for a
/// mid that isn't UTF-8, `NOT_MADE` without an end, `NO_STREAM` if no sending stream has the
/// number; otherwise the first that applies of `STREAM_FAILED`, `TIME_TOO_LARGE`, `LIMIT_TOO_SMALL`
/// and `PAYLOAD`, and nothing has changed; or `MEMORY`, and the stream sends no more.
#[unsafe(no_mangle)]
pub extern "C" fn jilqamur_end_push_sample(
    end: &mut EndHandle,
    stream: usize,
    ticks: u64,
    values: &WireValues,
    mid: &[u8],
    sample: &[u8],
    count: &mut usize,
) -> u32
    ensures answer { AtObject (end_in end.old) (end_in end.new) result
        (λ p after. WithText mid.now p.end after.end result
        (λ e now. AnswersSample e stream ticks values.now mid.now sample.now result after.datagrams now)) }
    ensures count { AtObject (end_in end.old) (end_in end.new) result
        (λ p after. count.new ≡ length after.datagrams) }
    ensures closed { result ≡ closed → count.new ≡ count.old }
    ensures kept { AtObject (end_in end.old) (end_in end.new) result
        (λ p after. result ≢ ok → after.datagrams ≡ p.datagrams) }
    ensures rest { AtObject (end_in end.old) (end_in end.new) result
        (λ p after. after ≡ behind_sample p after.end after.datagrams) }
{
    if !end.slot.is_open() {
        return codes::CLOSED;
    }
    let Object::End(held) = end.slot.place.held() else {
        unreachable!();
    };
    *count = held.datagrams.len();
    let Some(mid) = text_in(mid) else {
        return codes::NOT_TEXT;
    };
    let Some(end) = &mut held.end else {
        return codes::NOT_MADE;
    };
    if !end.is_sender(stream) {
        return codes::NO_STREAM;
    }
    let time = MediaTime::new(ticks, end.clock_rate(stream));
    match end.push_sample(stream, time, sample, &values.values(mid_of(mid))) {
        Ok(sent) => {
            *count = sent.len();
            held.datagrams = sent;
            codes::OK
        }
        Err(error) => sample_code(error),
    }
}

/// The number of a refused repair.
fn repair_code(error: RepairError) -> u32
    ensures { result ≡ repair_code error }
{
    match error {
        RepairError::NoRepair => codes::NO_REPAIR,
        RepairError::NotOwn => codes::NOT_OWN,
        RepairError::LimitTooSmall => codes::LIMIT_TOO_SMALL,
        RepairError::Memory => codes::MEMORY,
    }
}

/// A list of one datagram.
pub(crate) fn one(alloc: Global, datagram: Datagram) -> Result<Vec<Datagram>, AllocError>
    ensures { IfOk result (λ all. all.items ≡ datagram ∷ []) }
{
    let mut all = Vec::new(alloc);
    all.push(datagram)?;
    Ok(all)
}

/// Retransmits a datagram that a sending stream sent (RFC 4588 4), and returns `OK`: the
/// retransmission is left to be fetched as the only datagram. `NOT_MADE` without an end,
/// `NO_STREAM` if no sending stream has the number; otherwise the first that applies of
/// `NO_REPAIR`, `NOT_OWN` and `LIMIT_TOO_SMALL`, or `MEMORY`, and the end is unchanged.
#[unsafe(no_mangle)]
pub extern "C" fn jilqamur_end_repair(
    alloc: Global,
    end: &mut EndHandle,
    stream: usize,
    datagram: &[u8],
) -> u32
    ensures answer { AtObject (end_in end.old) (end_in end.new) result
        (λ p after. AtEnd p.end after.end result
        (λ e now. AnswersRepair e stream datagram.now result after.datagrams now)) }
    ensures kept { AtObject (end_in end.old) (end_in end.new) result
        (λ p after. result ≢ ok → after.datagrams ≡ p.datagrams) }
    ensures rest { AtObject (end_in end.old) (end_in end.new) result
        (λ p after. after ≡ behind_sample p after.end after.datagrams) }
{
    if !end.slot.is_open() {
        return codes::CLOSED;
    }
    let Object::End(held) = end.slot.place.held() else {
        unreachable!();
    };
    let Some(end) = &mut held.end else {
        return codes::NOT_MADE;
    };
    if !end.is_sender(stream) {
        return codes::NO_STREAM;
    }
    // Memory is reserved before the retransmission is made, since making one uses up its sequence
    // number.
    let Ok(mut left) = one(alloc, Datagram::from_vec(Vec::new(alloc))) else {
        return codes::MEMORY;
    };
    match end.repair(stream, datagram) {
        Ok(repair) => {
            left[0] = repair;
            held.datagrams = left;
            codes::OK
        }
        Err(error) => repair_code(error),
    }
}

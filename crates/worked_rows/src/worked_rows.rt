//! Worked rows that the program's lines can't say: datagrams handed in as one list, and samples whose time is at
//! another clock than their stream's.

use payload_core_buffer::{MIN_HELD, Unit};
use rtp_media_ends::{End, ReceivedAll, StreamParams};
use rtp_media_stream_table::Received;
use rtp_media_streams::{Datagram, PollFault, SampleError};
use rtp_wire::{ExtensionValues, Frequency, MediaTime, Mid, Pt, SeqNo, Ssrc};
use std::alloc::Global;

/// The payload type of Opus at a fixed end.
const TYPE: u8 = 111;

/// Row 12: of three datagrams with SSRC 44 and timestamp 0, the first two are swapped, and the
/// units come out in order.
pub(crate) fn receive_all_hands_out_in_order(alloc: Global) -> Option<bool> {
    let all = received(alloc, &swapped(alloc)?)?;
    let verdicts = [
        Received::Taken(0, SeqNo::from(1)),
        Received::Taken(0, SeqNo::from(0)),
        Received::Taken(0, SeqNo::from(2)),
    ];
    Some(
        all.verdicts.as_slice() == verdicts.as_slice()
            && all
                .polls
                .first()
                .is_some_and(|polls| are_units(polls.as_slice(), 0, &UNITS)),
    )
}

/// The same if each datagram is given away.
pub(crate) fn receive_owned_hands_out_in_order(alloc: Global) -> Option<bool> {
    let mut end = receiving(alloc)?;
    for datagram in swapped(alloc)? {
        match end.receive_owned(datagram.into_vec()) {
            Ok(Received::Taken(0, _)) => {}
            Ok(_) => return Some(false),
            Err(_) => return None,
        }
    }
    if !end.is_receiver(0) {
        return None;
    }
    let answers = end.poll_all(0).ok()?;
    Some(are_units(&answers, 0, &UNITS))
}

/// Row 12's units, a byte each.
const UNITS: [&[u8]; 3] = [b"\xaa", b"\xbb", b"\xcc"];

/// Row 12's datagrams, of which the first two have changed places.
fn swapped(alloc: Global) -> Option<Vec<Datagram>> {
    let mut datagrams = Vec::new(alloc);
    for (number, byte) in &[(1, 0xbb), (0, 0xaa), (2, 0xcc)] {
        let bytes = [0x80, TYPE, 0, *number, 0, 0, 0, 0, 0, 0, 0, 44, *byte];
        let bytes = Vec::from_slice(alloc, &bytes).ok()?;
        datagrams.push(Datagram::from_vec(bytes)).ok()?;
    }
    Some(datagrams)
}

/// Row 20: the greatest number of seconds does not fit into ticks of 48,000 a second.
pub(crate) fn a_time_that_does_not_fit(alloc: Global) -> Option<bool> {
    let sent = sent(
        alloc,
        1400,
        MediaTime::new(u64::MAX, Frequency::SECONDS),
        &[1],
    )?;
    Some(matches!(sent, Err(SampleError::TimeTooLarge)))
}

/// A time that doesn't fit is reported before a limit that is too small.
pub(crate) fn a_limit_that_is_too_small(alloc: Global) -> Option<bool> {
    let late = sent(
        alloc,
        100,
        MediaTime::new(u64::MAX, Frequency::SECONDS),
        &[1],
    )?;
    let small = sent(alloc, 100, MediaTime::new(20, Frequency::MILLIS), &[1])?;
    Some(
        matches!(late, Err(SampleError::TimeTooLarge))
            && matches!(small, Err(SampleError::LimitTooSmall)),
    )
}

/// 20 milliseconds are 960 ticks of 48,000 a second.
pub(crate) fn a_time_in_milliseconds(alloc: Global) -> Option<bool> {
    let sent = sent(
        alloc,
        1400,
        MediaTime::new(20, Frequency::MILLIS),
        &[1, 2, 3],
    )?;
    let all = received(alloc, &sent.ok()?)?;
    let polls = all.polls.first()?;
    Some(are_units(polls.as_slice(), 960, &[&[1, 2, 3]]))
}

/// What a fixed end that sends Opus of SSRC 44, in datagrams of at most this many bytes, answers to its first sample.
fn sent(
    alloc: Global,
    limit: usize,
    time: MediaTime,
    sample: &[u8],
) -> Option<Result<Vec<Datagram>, SampleError>> {
    let mut end = End::fixed(alloc).ok()?;
    let (mid, pt) = (Mid::from("0"), Pt::from(TYPE));
    let params = StreamParams {
        first: 0,
        mtu: 1200,
        limit,
        red: None,
        picture_id: None,
        for_browsers: false,
    };
    if !params.is_sound(end.agreed_red(mid, pt)) {
        return None;
    }
    let _ = end.open_sender(mid, Ssrc::from(44), pt, params).ok()?;
    if !end.is_sender(0) {
        return None;
    }
    Some(end.push_sample(0, time, sample, &ExtensionValues::absent()))
}

/// What a fixed end answers to datagrams that receives Opus of SSRC 44, as its stream 0.
fn received(alloc: Global, datagrams: &[Datagram]) -> Option<ReceivedAll> {
    receiving(alloc)?.receive_all(datagrams).ok()
}

/// A fixed end that receives Opus of SSRC 44, as its stream 0.
fn receiving(alloc: Global) -> Option<End> {
    let mut end = End::fixed(alloc).ok()?;
    let (mid, pt) = (Mid::from("0"), Pt::from(TYPE));
    let _ = end
        .open_receiver(mid, Ssrc::from(44), pt, 1023, MIN_HELD)
        .ok()?;
    Some(end)
}

/// Whether these answers are units of these bytes, each of this time.
fn are_units(answers: &[Result<Unit, PollFault>], time: u32, units: &[&[u8]]) -> bool {
    if answers.len() != units.len() {
        return false;
    }
    for place in 0..units.len() {
        match &answers[place] {
            Ok(unit) if unit.time() == time && unit.bytes() == units[place] => {}
            _ => return false,
        }
    }
    true
}

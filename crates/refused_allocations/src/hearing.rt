//! Datagrams at a fixed end: as one list, drained after a gap, and polled out.

use crate::asking::{TIMES, print_refused};
use rtp_media::{
    Datagram, End, EndError, MIN_HELD, OpenError, PollFault, Polls, ReceiveError, Received,
    ReceivedAll, Unit,
};
use rtp_wire::{Mid, Pt, Ssrc};
use std::alloc::{AllocError, Global};

/// The numbers of the datagrams, the second before the first, and one after a gap.
const NUMBERS: [u8; 4] = [1, 0, 2, 4];

/// Datagrams of SSRC 44 and type 111, of time 0, whose payload is the number.
fn datagrams(alloc: Global) -> Result<Vec<Datagram>, AllocError> {
    let mut all = Vec::new(alloc);
    for number in &NUMBERS {
        let bytes = [0x80, 111, 0, *number, 0, 0, 0, 0, 0, 0, 0, 44, *number];
        all.push(Datagram::from_vec(Vec::from_slice(alloc, &bytes)?))?;
    }
    Ok(all)
}

/// Calls that hand out units.
pub(crate) fn print_heard(rt: &HostRuntime) -> Option<()> {
    let all = made_datagrams(rt)?;
    print_received_all(rt, all.as_slice())?;
    print_polled_all(rt, all.as_slice())?;
    let (mut end, stream) = hearing_end(rt, all.as_slice())?;
    for _ in 0..4usize {
        print_polled(rt, &mut end, stream)?;
    }
    print_drained(rt, &mut end, stream)?;
    print_drained(rt, &mut end, stream)
}

/// A fixed end whose stream took the datagrams.
fn hearing_end(rt: &HostRuntime, all: &[Datagram]) -> Option<(End, usize)> {
    let mut end = fixed(rt)?;
    let stream = opened(rt, &mut end)?;
    for datagram in all {
        receive(rt, &mut end, datagram)?;
    }
    Some((end, stream))
}

fn made_datagrams(rt: &HostRuntime) -> Option<Vec<Datagram>> {
    for _ in 0..TIMES {
        match datagrams(rt.alloc()) {
            Ok(all) => return Some(all),
            Err(_) => print_refused(rt),
        }
    }
    None
}

fn fixed(rt: &HostRuntime) -> Option<End> {
    for _ in 0..TIMES {
        match End::fixed(rt.alloc()) {
            Ok(end) => return Some(end),
            Err(EndError::Memory) => print_refused(rt),
            Err(_) => return None,
        }
    }
    None
}

fn opened(rt: &HostRuntime, end: &mut End) -> Option<usize> {
    for _ in 0..TIMES {
        match end.open_receiver(
            Mid::from("0"),
            Ssrc::from(44),
            Pt::from(111),
            1023,
            MIN_HELD,
        ) {
            Ok(stream) => return Some(stream),
            Err(OpenError::Memory) => print_refused(rt),
            Err(_) => return None,
        }
    }
    None
}

/// A failed `receive_all` may have done part of its work, so it is repeated with a new end.
fn print_received_all(rt: &HostRuntime, all: &[Datagram]) -> Option<()> {
    for _ in 0..TIMES {
        let mut end = fixed(rt)?;
        let _ = opened(rt, &mut end)?;
        match end.receive_all(all) {
            Ok(received) => {
                if !is_any_cut_short(received.polls.as_slice()) {
                    return Some(print_all(rt, &received));
                }
                print_refused(rt);
            }
            Err(ReceiveError::Memory) => print_refused(rt),
        }
    }
    None
}

/// What was said of each datagram, and the units of each stream.
fn print_all(rt: &HostRuntime, received: &ReceivedAll) {
    for verdict in &received.verdicts {
        let _ = println!(*rt; "{verdict:?}");
    }
    for polls in &received.polls {
        print_answers(rt, polls.as_slice());
    }
}

/// Whether memory for a unit ran out, which is then the last answer of its stream.
fn is_any_cut_short(polls: &[Polls]) -> bool {
    polls.iter().any(|answers| is_cut_short(answers.as_slice()))
}

fn is_cut_short(answers: &[Result<Unit, PollFault>]) -> bool {
    matches!(answers.last(), Some(Err(PollFault::Memory)))
}

/// A datagram that is refused for want of memory is taken when it comes again.
fn receive(rt: &HostRuntime, end: &mut End, datagram: &Datagram) -> Option<()> {
    for _ in 0..TIMES {
        match end.receive(datagram.as_slice()) {
            Ok(Received::Taken(_, _)) => return Some(()),
            Ok(_) => return None,
            Err(ReceiveError::Memory) => print_refused(rt),
        }
    }
    None
}

/// A refused `poll_all` may have polled some units, so it is asked at a new end.
fn print_polled_all(rt: &HostRuntime, all: &[Datagram]) -> Option<()> {
    for _ in 0..TIMES {
        let (mut end, stream) = hearing_end(rt, all)?;
        if !end.is_receiver(stream) {
            return None;
        }
        match end.poll_all(stream) {
            Ok(answers) => {
                if !is_cut_short(answers.as_slice()) {
                    return Some(print_answers(rt, answers.as_slice()));
                }
                print_refused(rt);
            }
            Err(_) => print_refused(rt),
        }
    }
    None
}

/// A poll that is refused answers the same unit when it is asked again.
fn print_polled(rt: &HostRuntime, end: &mut End, stream: usize) -> Option<()> {
    for _ in 0..TIMES {
        if !end.is_receiver(stream) {
            return None;
        }
        match end.poll(stream) {
            Ok(unit) => return Some(print_unit(rt, &unit)),
            Err(PollFault::Memory) => print_refused(rt),
            Err(PollFault::Payload(_)) => return None,
        }
    }
    None
}

fn print_drained(rt: &HostRuntime, end: &mut End, stream: usize) -> Option<()> {
    for _ in 0..TIMES {
        if !end.is_receiver(stream) {
            return None;
        }
        match end.drain(stream) {
            Ok(unit) => return Some(print_unit(rt, &unit)),
            Err(PollFault::Memory) => print_refused(rt),
            Err(PollFault::Payload(_)) => return None,
        }
    }
    None
}

fn print_answers(rt: &HostRuntime, answers: &[Result<Unit, PollFault>]) {
    for answer in answers {
        if let Ok(unit) = answer {
            let (first, bytes) = (unit.first().get(), unit.bytes());
            let _ = println!(*rt; "unit {first}: {bytes:?}");
        }
    }
}

fn print_unit(rt: &HostRuntime, unit: &Option<Unit>) {
    match unit {
        Some(unit) => {
            let (first, bytes) = (unit.first().get(), unit.bytes());
            let _ = println!(*rt; "unit {first}: {bytes:?}");
        }
        None => {
            let _ = println!(*rt; "no unit");
        }
    }
}

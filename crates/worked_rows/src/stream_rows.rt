//! Rows of a stream's life: numbers that are missing, numbers that two streams share, and streams that are closed.

use media_types::Codec;
use payload_core_buffer::MIN_HELD;
use rtp_media_ends::{End, OpenError, StreamParams};
use rtp_media_stream_table::{Received, StreamTable};
use rtp_media_streams::{Datagram, PayloadTypes, ReceivingStream, RowFormat};
use rtp_wire::{ExtensionMap, ExtensionValues, Frequency, MediaTime, Mid, Pt, SeqNo, Ssrc};
use std::alloc::Global;

/// The payload type of Opus at a fixed end.
const TYPE: u8 = 111;

/// What each row does, and whether it came out as it must.
pub(crate) fn stream_rows(alloc: Global) -> [(&'static str, Option<bool>); 7] {
    [
        (
            "missing numbers, and numbers that are done with",
            missing_numbers(alloc),
        ),
        (
            "a first datagram that is waited for",
            a_first_datagram_is_waited_for(alloc),
        ),
        (
            "numbers that are not waited for",
            numbers_that_are_not_waited_for(alloc),
        ),
        ("a sender that leaves numbers out", numbers_left_out(alloc)),
        (
            "a receiver that is closed and opened again",
            a_receiver_again(alloc),
        ),
        (
            "a sender that is closed and opened again",
            a_sender_again(alloc),
        ),
        (
            "a unit's values are its last packet's",
            values_of_the_last_packet(alloc),
        ),
    ]
}

/// With 0, 1, 4 and 6 there, 2, 3 and 5 are missing; after 3 came and two units were polled, 2 and 5 are.
fn missing_numbers(alloc: Global) -> Option<bool> {
    let mut end = receiving(alloc)?;
    if !end.is_receiver(0) || !end.missing(0).ok()?.is_empty() || end.is_passed(0, SeqNo::from(0)) {
        return Some(false);
    }
    for number in [0, 1, 4, 6] {
        let _ = end.receive(&datagram(number)).ok()?;
    }
    if !end.is_receiver(0) || !are_numbers(&end.missing(0).ok()?, &[2, 3, 5]) {
        return Some(false);
    }
    let _ = end.receive(&datagram(3)).ok()?;
    if !end.is_receiver(0) {
        return None;
    }
    let units = end.poll_all(0).ok()?;
    if !end.is_receiver(0) {
        return None;
    }
    Some(
        units.len() == 2
            && are_numbers(&end.missing(0).ok()?, &[2, 5])
            && end.is_passed(0, SeqNo::from(1))
            && !end.is_passed(0, SeqNo::from(2)),
    )
}

/// A stream that is told to begin with 5 holds 6 and 7 back until 5 comes; without that, 6 would come out first.
fn a_first_datagram_is_waited_for(alloc: Global) -> Option<bool> {
    let mut end = receiving(alloc)?;
    for number in [6, 7] {
        let _ = end.receive(&datagram(number)).ok()?;
    }
    if !end.is_receiver(0) {
        return None;
    }
    end.pass_to(0, SeqNo::from(4));
    let waits = polled(alloc, &mut end)?.is_empty();
    let _ = end.receive(&datagram(5)).ok()?;
    Some(waits && polled(alloc, &mut end)?.as_slice() == [5, 6, 7].as_slice())
}

/// With 1, 4 and 5 there and 2 and 3 missing after 1, 4 comes out at once when they are passed; so is what waits
/// dropped.
fn numbers_that_are_not_waited_for(alloc: Global) -> Option<bool> {
    let mut end = receiving(alloc)?;
    for number in [1, 4, 5] {
        let _ = end.receive(&datagram(number)).ok()?;
    }
    let first = polled(alloc, &mut end)?;
    if !end.is_receiver(0) {
        return None;
    }
    end.pass_to(0, SeqNo::from(3));
    end.pass_to(0, SeqNo::from(2));
    let second = polled(alloc, &mut end)?;
    let late = end.receive(&datagram(3)).ok()?;
    let _ = end.receive(&datagram(9)).ok()?;
    if !end.is_receiver(0) {
        return None;
    }
    end.pass_to(0, SeqNo::from(9));
    Some(
        first.as_slice() == [1].as_slice()
            && second.as_slice() == [4, 5].as_slice()
            && late == Received::Taken(0, SeqNo::from(3))
            && polled(alloc, &mut end)?.is_empty(),
    )
}

/// The numbers of the units that stream 0 hands out.
fn polled(alloc: Global, end: &mut End) -> Option<Vec<u64>> {
    if !end.is_receiver(0) {
        return None;
    }
    let mut numbers = Vec::new(alloc);
    for answer in &end.poll_all(0).ok()? {
        match answer {
            Ok(unit) => numbers.push(unit.first().get()).ok()?,
            Err(_) => return None,
        }
    }
    Some(numbers)
}

/// Samples after `skip_to` are numbered from there on; a lower number changes nothing.
fn numbers_left_out(alloc: Global) -> Option<bool> {
    let mut end = sending(alloc, 7)?;
    let first = sent(&mut end)?;
    if !end.is_sender(0) || end.next_number(0) != 8 {
        return Some(false);
    }
    end.skip_to(0, 11);
    end.skip_to(0, 3);
    let second = sent(&mut end)?;
    Some(
        has_number(&first, 7)
            && has_number(&second, 11)
            && end.is_sender(0)
            && end.next_number(0) == 12,
    )
}

/// Of a closed receiver nothing comes, its SSRC is free, and the new stream has the next number and begins anew.
fn a_receiver_again(alloc: Global) -> Option<bool> {
    let mut end = receiving(alloc)?;
    let _ = end.receive(&datagram(5)).ok()?;
    let is_open = matches!(opened(&mut end), Err(OpenError::AlreadyOpen));
    if !end.is_receiver(0) {
        return None;
    }
    end.close_receiver(0);
    let is_closed = !end.is_receiver(0) && !end.is_sender(0);
    let is_foreign = matches!(end.receive(&datagram(6)).ok()?, Received::Foreign);
    let again = opened(&mut end).ok()?;
    let verdict = end.receive(&datagram(5)).ok()?;
    Some(
        is_open
            && is_closed
            && is_foreign
            && again == 1
            && verdict == Received::Taken(1, SeqNo::from(5)),
    )
}

/// A closed sender's SSRC is free; other streams keep their numbers.
fn a_sender_again(alloc: Global) -> Option<bool> {
    let mut end = sending(alloc, 7)?;
    let receiver = opened(&mut end).ok()?;
    if !end.is_sender(0) {
        return None;
    }
    end.close_sender(0);
    let is_closed = !end.is_sender(0) && end.is_receiver(receiver);
    let again = open_sender(&mut end, 30)?;
    Some(is_closed && again == 2 && end.is_sender(2) && end.next_number(2) == 30)
}

/// An Opus datagram of SSRC 44 with this number.
fn datagram(number: u8) -> [u8; 13] {
    [0x80, TYPE, 0, number, 0, 0, 0, 0, 0, 0, 0, 44, number]
}

/// A fixed end that receives Opus of SSRC 44, as its stream 0.
fn receiving(alloc: Global) -> Option<End> {
    let mut end = End::fixed(alloc).ok()?;
    let _ = opened(&mut end).ok()?;
    Some(end)
}

/// What an end answers that is to receive Opus of SSRC 44.
fn opened(end: &mut End) -> Result<usize, OpenError> {
    end.open_receiver(Mid::from("0"), Ssrc::from(44), Pt::from(TYPE), 15, MIN_HELD)
}

/// A fixed end that sends Opus of SSRC 44 from this number on, as its stream 0.
fn sending(alloc: Global, first: u64) -> Option<End> {
    let mut end = End::fixed(alloc).ok()?;
    let _ = open_sender(&mut end, first)?;
    Some(end)
}

/// The number of a new stream of Opus of SSRC 44 that sends from this number on.
fn open_sender(end: &mut End, first: u64) -> Option<usize> {
    let (mid, pt) = (Mid::from("0"), Pt::from(TYPE));
    let params = StreamParams {
        first,
        mtu: 1200,
        limit: 1400,
        red: None,
        picture_id: None,
        for_browsers: false,
    };
    if !params.is_sound(end.agreed_red(mid, pt)) {
        return None;
    }
    end.open_sender(mid, Ssrc::from(44), pt, params).ok()
}

/// The datagrams of a sample of one byte that stream 0 sends.
fn sent(end: &mut End) -> Option<Vec<Datagram>> {
    if !end.is_sender(0) {
        return None;
    }
    let time = MediaTime::new(20, Frequency::MILLIS);
    end.push_sample(0, time, &[1], &ExtensionValues::absent())
        .ok()
}

/// Whether this is one datagram of this number.
fn has_number(datagrams: &[Datagram], number: u8) -> bool {
    datagrams.len() == 1 && datagrams[0].as_slice().get(3) == Some(&number)
}

/// Whether these are these numbers.
fn are_numbers(numbers: &[SeqNo], wanted: &[u64]) -> bool {
    numbers.len() == wanted.len() && numbers.iter().zip(wanted).all(|(a, b)| a.get() == *b)
}

/// Of a frame of VP8 in two packets whose header extensions differ, the unit has what the second one says.
fn values_of_the_last_packet(alloc: Global) -> Option<bool> {
    let row = RowFormat {
        codec: Codec::Vp8,
        clock_rate: Frequency::NINETY_KHZ,
        octet_align: None,
        sprop_max_don_diff: None,
    };
    let (ssrc, exts) = (Ssrc::from(44), ExtensionMap::standard());
    let types = PayloadTypes {
        pt: Pt::from(96),
        red: None,
        repair: None,
    };
    let stream = ReceivingStream::new(alloc, ssrc, types, exts, row, 15, MIN_HELD);
    let mut table = StreamTable::new(alloc);
    if table.could_receive(stream.ssrc(), &stream.types()) {
        return None;
    }
    let stream = table.add_receiver(stream).ok()?;
    let _ = table.receive(&named_packet(0x60, 0, b'x', 0x10)).ok()?;
    let _ = table.receive(&named_packet(0xe0, 1, b'y', 0x00)).ok()?;
    if !table.is_receiver(stream) {
        return None;
    }
    let unit = table.poll(stream).ok()??;
    Some(unit.ext_vals().mid == Some(Mid::from("y")))
}

/// A packet of VP8 of section `name` (RFC 9143 15.1), with this marker and type, number and first byte of its payload.
fn named_packet(marked: u8, number: u8, name: u8, first: u8) -> [u8; 22] {
    [
        0x90, marked, 0, number, 0, 0, 0, 0, 0, 0, 0, 44, 0xbe, 0xde, 0, 1, 0x40, name, 0, 0,
        first, 0xaa,
    ]
}

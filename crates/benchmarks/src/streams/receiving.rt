//! Datagrams that are received, with a poll after each.

use crate::streams::line::{Line, extensions, types};
use crate::streams::sending::{push, table};
use crate::streams::slices::{SLICES, put_rate, rounds_for, shorter};
use h26x_payload::has_format;
use payload_core_buffer::MIN_HELD;
use rtp_media_stream_table::StreamTable;
use rtp_media_streams::ReceivingStream;
use rtp_wire::Ssrc;
use std::alloc::Global;
use std::io;
use std::time::Instant;

/// How many datagrams one slice has if others wait.
const TURNS: u32 = 200;

/// A table with a stream that receives a line's datagrams, and its number.
pub(crate) fn receiver(
    alloc: Global,
    line: &Line<'_>,
    hold_back: usize,
) -> io::Result<(StreamTable, usize)> {
    if !has_format(line.row.codec) {
        return Err(io::Error::other("a codec without a payload format"));
    }
    let stream = ReceivingStream::new(
        alloc,
        Ssrc::from(44),
        types(line),
        extensions(line),
        line.row,
        hold_back,
        MIN_HELD,
    );
    let mut table = StreamTable::new(alloc);
    if table.could_receive(stream.ssrc(), &stream.types()) {
        return Err(io::Error::other("the stream is open"));
    }
    let number = table.add_receiver(stream)?;
    Ok((table, number))
}

/// The datagrams of one sample after some others.
pub(crate) fn datagrams_of(alloc: Global, line: &Line<'_>) -> io::Result<Vec<Vec<u8>>> {
    let (mut table, stream) = table(alloc, line)?;
    for number in 0..4 {
        push(&mut table, stream, number, line)?;
    }
    let mut datagrams = Vec::new(alloc);
    for datagram in push(&mut table, stream, 4, line)? {
        datagrams.push(datagram.into_vec())?;
    }
    Ok(datagrams)
}

/// Writes a number and a timestamp into a header (RFC 3550 5.1).
pub(crate) fn renumber(datagram: &mut Vec<u8>, number: u16, time: u16) {
    if datagram.len() < 8 {
        return;
    }
    datagram[2] = (number / 256) as u8;
    datagram[3] = (number % 256) as u8;
    datagram[6] = (time / 256) as u8;
    datagram[7] = (time % 256) as u8;
}

/// Receives a datagram and polls; how many bytes the unit has, 0 without one.
fn take(table: &mut StreamTable, stream: usize, datagram: &[u8]) -> usize {
    let _ = table.receive(datagram);
    if !table.is_receiver(stream) {
        return 0;
    }
    match table.poll(stream) {
        Ok(Some(unit)) => unit.bytes().len(),
        _ => 0,
    }
}

/// Receives the datagrams of a sample over and over, under rising numbers.
pub(crate) fn measure(rt: &HostRuntime, line: &Line<'_>) -> io::Result<()> {
    let (mut table, stream) = receiver(rt.alloc(), line, 0)?;
    let mut datagrams = datagrams_of(rt.alloc(), line)?;
    let mut nanos = u128::MAX;
    let mut bytes = 0;
    let (mut number, mut time) = (0u16, 0u16);
    for _ in 0..SLICES {
        let start = Instant::now(rt)?;
        for _ in 0..rounds_for(line) {
            time = time.wrapping_add(1);
            for datagram in &mut datagrams {
                number = number.wrapping_add(1);
                renumber(datagram, number, time);
                bytes = take(&mut table, stream, datagram);
            }
        }
        nanos = shorter(rt, &start, nanos)?;
    }
    println!(*rt; "{}: {bytes} bytes in a unit", line.name)?;
    put_rate(rt, line, "received and polled", nanos)
}

/// Receives each other datagram, if so many wait for the others.
pub(crate) fn measure_waiting(rt: &HostRuntime, line: &Line<'_>, waiting: u32) -> io::Result<()> {
    let (mut table, stream) = receiver(rt.alloc(), line, waiting as usize)?;
    let mut datagrams = datagrams_of(rt.alloc(), line)?;
    let mut nanos = u128::MAX;
    let mut bytes = 0;
    let mut number = 0u16;
    for slice in 0..SLICES {
        let turns = if slice == 0 {
            waiting.saturating_mul(2).saturating_add(TURNS)
        } else {
            TURNS
        };
        let start = Instant::now(rt)?;
        for _ in 0..turns {
            number = number.wrapping_add(2);
            for datagram in &mut datagrams {
                renumber(datagram, number, number);
                bytes = take(&mut table, stream, datagram);
            }
        }
        nanos = shorter(rt, &start, nanos)?;
    }
    println!(*rt; "{waiting} waiting: {bytes} bytes in a unit")?;
    eprintln!(*rt;
        "{waiting} waiting: {} ns to receive and poll",
        nanos / TURNS as u128
    )
}

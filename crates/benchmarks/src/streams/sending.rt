//! Samples into datagrams.

use crate::streams::line::{Line, extensions, types, values};
use crate::streams::slices::{SLICES, put_rate, rounds_for, shorter};
use h26x_payload::has_format;
use rtp_media_stream_table::StreamTable;
use rtp_media_streams::{Datagram, SampleError, SendingStream};
use rtp_wire::{MediaTime, Pt, Ssrc};
use std::alloc::Global;
use std::io;
use std::time::Instant;

/// The most bytes of a payload and of a datagram.
const MTU: usize = 1200;

const LIMIT: usize = 1300;

/// A stream that sends a line's samples, with redundancy one and three packets back if the line has it.
fn sender(alloc: Global, line: &Line<'_>) -> io::Result<SendingStream> {
    if !has_format(line.row.codec) {
        return Err(io::Error::other("a codec without a payload format"));
    }
    let stream = SendingStream::new(
        alloc,
        Ssrc::from(44),
        types(line),
        extensions(line),
        line.row,
        Some(7),
        false,
        0,
        MTU,
        LIMIT,
    );
    if !line.has_red {
        return Ok(stream);
    }
    Ok(stream.with_red(Pt::from(63), &[1, 3])?)
}

/// That stream in a table, as an end keeps it, and its number.
pub(crate) fn table(alloc: Global, line: &Line<'_>) -> io::Result<(StreamTable, usize)> {
    let mut table = StreamTable::new(alloc);
    let sender = sender(alloc, line)?;
    if table.could_send(sender.ssrc(), &sender.types()) {
        return Err(io::Error::other("the stream is open"));
    }
    let number = table.add_sender(sender)?;
    Ok((table, number))
}

/// What a stream refuses, as an error of the program.
fn refused(_error: SampleError) -> io::Error {
    io::Error::other("a stream refuses a sample")
}

/// The datagrams of a sample under this number.
pub(crate) fn push(
    table: &mut StreamTable,
    stream: usize,
    number: u32,
    line: &Line<'_>,
) -> io::Result<Vec<Datagram>> {
    if !table.is_sender(stream) {
        return Err(io::Error::other("no such stream"));
    }
    let time = MediaTime::new(960 * number as u64, table.clock_rate(stream));
    table
        .push_sample(stream, time, line.sample, &values(line))
        .map_err(refused)
}

/// The datagrams of a sample under this number, in place of those in a list.
fn push_into(
    table: &mut StreamTable,
    stream: usize,
    number: u32,
    line: &Line<'_>,
    datagrams: &mut Vec<Datagram>,
) -> io::Result<()> {
    if !table.is_sender(stream) {
        return Err(io::Error::other("no such stream"));
    }
    let time = MediaTime::new(960 * number as u64, table.clock_rate(stream));
    table
        .push_sample_into(stream, time, line.sample, &values(line), datagrams)
        .map_err(refused)
}

/// Sends a sample over and over into one list.
pub(crate) fn measure_into(rt: &HostRuntime, line: &Line<'_>) -> io::Result<()> {
    let (mut table, stream) = table(rt.alloc(), line)?;
    let mut datagrams = Vec::new(rt.alloc());
    let mut nanos = u128::MAX;
    let mut number = 0u32;
    for _ in 0..SLICES {
        let start = Instant::now(rt)?;
        for _ in 0..rounds_for(line) {
            push_into(&mut table, stream, number, line, &mut datagrams)?;
            number = number.wrapping_add(1);
        }
        nanos = shorter(rt, &start, nanos)?;
    }
    put_rate(rt, line, "sent into a list", nanos)
}

/// Sends a sample over and over.
pub(crate) fn measure(rt: &HostRuntime, line: &Line<'_>) -> io::Result<()> {
    let (mut table, stream) = table(rt.alloc(), line)?;
    let mut nanos = u128::MAX;
    let mut datagrams = 0usize;
    let mut number = 0u32;
    for _ in 0..SLICES {
        let start = Instant::now(rt)?;
        for _ in 0..rounds_for(line) {
            datagrams = push(&mut table, stream, number, line)?.len();
            number = number.wrapping_add(1);
        }
        nanos = shorter(rt, &start, nanos)?;
    }
    println!(*rt;
        "{}: {} bytes in {datagrams} datagrams",
        line.name,
        line.sample.len()
    )?;
    put_rate(rt, line, "sent", nanos)
}

//! Datagrams that browsers sent, read through replay window, buffer and depacketizer. Uses the crates `anyhow`, `hex`
//! and `rtp_wire`, and the modules `capture` and `captured_stream` beside it.

use crate::capture::Capture;
use crate::captured_stream::Stream;
use anyhow::bail;
use rtp_wire::{ExtensionMap, RtpHeader};
use std::alloc::Global;
use std::{fs, io};

/// Takes a datagram, if it has the capture's payload types, into the stream with its SSRC, which is
/// created if needed.
fn receive(
    alloc: Global,
    capture: &Capture,
    streams: &mut Vec<Stream>,
    datagram: &[u8],
) -> anyhow::Result<()> {
    let Some(header) = RtpHeader::parse(datagram, &ExtensionMap::empty()) else {
        return Ok(());
    };
    if !capture.has_type(header.payload_type.get()) {
        return Ok(());
    }
    for stream in streams.iter_mut() {
        if stream.ssrc == header.ssrc {
            return Ok(stream.receive(capture, &header, datagram)?);
        }
    }
    let Some(mut stream) = Stream::new(alloc, capture, header.ssrc) else {
        bail!("no payload format of {}", capture.codec);
    };
    stream.receive(capture, &header, datagram)?;
    Ok(streams.push(stream)?)
}

/// The streams of a capture: a line for each datagram, its time in milliseconds and its bytes in hexadecimal.
fn received(alloc: Global, capture: &Capture, text: &str) -> anyhow::Result<Vec<Stream>> {
    let mut streams = Vec::new(alloc);
    for line in text.lines() {
        match line.split_once(' ') {
            Some((time, bytes)) if !time.starts_with("#") => {
                receive(alloc, capture, &mut streams, &hex::decode(alloc, bytes)?)?;
            }
            _ => {}
        }
    }
    for stream in &mut streams {
        stream.drain()?;
    }
    Ok(streams)
}

/// The streams of the capture that a line names: `FILE CODEC TYPE [REDTYPE]`.
fn streams_of(rt: &HostRuntime, line: &str) -> anyhow::Result<Vec<Stream>> {
    let mut words = line.split_whitespace();
    let (Some(file), Some(capture)) = (words.next(), Capture::of(&mut words)) else {
        bail!("no capture: {line}");
    };
    let text = fs::read_to_string(rt, file)?;
    received(rt.alloc(), &capture, text.as_str())
}

/// Prints what came of a stream.
fn print(rt: &HostRuntime, stream: &Stream) -> io::Result<()> {
    let (ssrc, c) = (stream.ssrc, stream.counts);
    println!(*rt;
        "  SSRC {ssrc}: {} taken, {} of padding alone, {} refused, {} faults",
        c.taken, c.padding, c.refused, c.faults
    )?;
    println!(*rt;
        "  {} units of {} bytes, {} at the end alone; {} keyframes, the first unit {}",
        c.units, c.bytes, c.drained, c.keyframes, c.begins_with_keyframe
    )
}

/// Prints what came of the streams of the captures that lines name.
pub(crate) fn report(rt: &HostRuntime, lines: &str) -> anyhow::Result<()> {
    for line in lines.lines() {
        println!(*rt; "{line}")?;
        for stream in &streams_of(rt, line)? {
            print(rt, stream)?;
        }
    }
    Ok(())
}

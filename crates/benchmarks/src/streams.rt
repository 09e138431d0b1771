//! How fast streams are: each codec's sample into datagrams, and its datagrams received with a poll
//! after each; receiving while packets wait for a missing one; and packets sent on. Counts go to standard output,
//! rates to standard error: those of the fastest of many time slices, which other load doesn't
//! disturb.
mod forwarding;
mod line;
mod receiving;
mod sending;
mod slices;

use crate::streams::line::{Line, audio, sample_of, video};
use media_types::Codec;
use std::io;

/// A sample of Opus or PCMU.
const OPUS: &[u8] = &[8; 120];

/// A frame of AMR-WB at 23.85 kbit/s.
const SPEECH: &[u8] = &[0x44; 61];

/// The line under another name, with three header extensions agreed.
fn with_extensions<'a>(name: &'a str, line: Line<'a>) -> Line<'a> {
    Line {
        name,
        has_extensions: true,
        ..line
    }
}

/// One line each way.
fn measure(rt: &HostRuntime, line: &Line<'_>) -> io::Result<()> {
    sending::measure(rt, line)?;
    sending::measure_into(rt, line)?;
    receiving::measure(rt, line)
}

/// Opus and PCMU, alone and beside older payloads, and AMR-WB in both layouts.
fn all_audio(rt: &HostRuntime) -> io::Result<()> {
    for (name, codec, has_red, octet_align, sample) in [
        ("opus", Codec::Opus, false, None, OPUS),
        ("opus with redundancy", Codec::Opus, true, None, OPUS),
        ("PCMU", Codec::PCMU, false, None, OPUS),
        ("AMR-WB", Codec::AmrWb, false, None, SPEECH),
        (
            "AMR-WB octet-aligned",
            Codec::AmrWb,
            false,
            Some(true),
            SPEECH,
        ),
    ] {
        measure(rt, &audio(name, codec, has_red, octet_align, sample))?;
    }
    measure(
        rt,
        &with_extensions(
            "opus, extensions",
            audio("", Codec::Opus, false, None, OPUS),
        ),
    )
}

/// Pictures of video, each with what its samples begin with, a header or a start code, of AV1 with the size.
fn all_video(rt: &HostRuntime) -> io::Result<()> {
    for (name, codec, head, size) in [
        ("VP8", Codec::Vp8, &b""[..], 12_000),
        ("VP8", Codec::Vp8, b"", 196_000),
        ("VP9", Codec::Vp9, b"\x82\x49\x83\x42", 12_000),
        ("VP9", Codec::Vp9, b"\x82\x49\x83\x42", 196_000),
        ("AV1", Codec::Av1, b"\x32\xdd\x5d", 12_000),
        ("AV1", Codec::Av1, b"\x32\x9c\xfb\x0b", 196_000),
        ("AV1", Codec::Av1, b"\x32\xfb\x91\xf4\x01", 4_000_000),
        ("H264", Codec::H264, b"\0\0\0\x01\x65", 12_000),
        ("H264", Codec::H264, b"\0\0\0\x01\x65", 196_000),
        ("H265", Codec::H265, b"\0\0\0\x01\x26\x01", 12_000),
        ("H265", Codec::H265, b"\0\0\0\x01\x26\x01", 196_000),
    ] {
        let sample = sample_of(rt.alloc(), head, size)?;
        measure(rt, &video(name, codec, &sample))?;
    }
    let sample = sample_of(rt.alloc(), b"", 12_000)?;
    measure(
        rt,
        &with_extensions("VP8, extensions", video("", Codec::Vp8, &sample)),
    )
}

/// All of it.
pub(crate) fn measure_all(rt: &HostRuntime) -> io::Result<()> {
    all_audio(rt)?;
    all_video(rt)?;
    let opus = audio("opus", Codec::Opus, false, None, OPUS);
    for waiting in [0, 15, 255, 4_095] {
        receiving::measure_waiting(rt, &opus, waiting)?;
    }
    let sample = sample_of(rt.alloc(), b"", 12_000)?;
    for count in [1, 10, 1_000] {
        forwarding::measure(rt, &opus, count)?;
        forwarding::measure(rt, &video("VP8", Codec::Vp8, &sample), count)?;
    }
    Ok(())
}

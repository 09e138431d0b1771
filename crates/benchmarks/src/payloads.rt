//! Payload formats of sound and pictures, and a buffer that holds many packets.

use crate::buffers::Buffering;
use crate::formats::{Copying, LIMIT, measure_codec, refused};
use crate::measured::{measure, measure_packets, repeat};
use payload_core::{
    Av1Packetizer, Codec, DepacketizingBuffer, MIN_HELD, OpusDepacketizer, Packetizer,
};
use std::io;

/// How often a sample of Opus or G.711 is sent and read.
const AUDIO: u32 = 50_000;

/// How often a sample of AMR-WB is sent and read.
const SPEECH: u32 = 10_000;

/// How often a frame of video is sent and read.
const VIDEO: u32 = 2_000;

/// How many packets are pushed into a full buffer.
const TURNS: u32 = 2_000;

/// Opus, G.711, and AMR-WB in both layouts: samples of 20 ms, of speech at 23.85 kbit/s.
fn audio(rt: &HostRuntime) -> io::Result<()> {
    let (opus, g711) = ([7; 120], [7; 160]);
    let mut speech = [7; 61];
    speech[0] = 0x44;
    for (format, codec, is_set, sample, rounds) in [
        ("Opus", Codec::Opus, false, &opus[..], AUDIO),
        ("G.711", Codec::PCMU, false, &g711[..], AUDIO),
        (
            "AMR-WB octet-aligned",
            Codec::AmrWb,
            true,
            &speech[..],
            SPEECH,
        ),
        (
            "AMR-WB bandwidth-efficient",
            Codec::AmrWb,
            false,
            &speech[..],
            SPEECH,
        ),
    ] {
        measure_codec(rt, format, codec, is_set, sample, rounds)?;
    }
    Ok(())
}

/// VP8 and VP9: frames of 12,000 bytes.
fn video(rt: &HostRuntime) -> io::Result<()> {
    let frame = [7; 12_000];
    measure_codec(rt, "VP8", Codec::Vp8, false, &frame, VIDEO)?;
    measure_codec(rt, "VP9", Codec::Vp9, false, &frame, VIDEO)
}

/// AV1: a temporal unit of one frame of this many bytes, after its header and its size in leb128.
fn av1(rt: &HostRuntime, format: &str, header: &[u8], size: usize, rounds: u32) -> io::Result<()> {
    let frame = vec![in rt.alloc(); 7; size]?;
    let unit = [header, &frame].concat(rt.alloc())?;
    measure_codec(rt, format, Codec::Av1, false, &unit, rounds)?;
    baseline(rt, format, &unit, rounds)
}

/// The packets of an AV1 unit as plain bytes, copied twice, as a reader has to.
fn baseline(rt: &HostRuntime, format: &str, unit: &[u8], rounds: u32) -> io::Result<()> {
    let packets = Av1Packetizer::new()
        .packetize(rt.alloc(), LIMIT, unit)
        .map_err(refused)?;
    let mut copying = Copying {
        packets: &packets,
        fragment: Vec::new(rt.alloc()),
        out: Vec::new(rt.alloc()),
    };
    measure_packets(rt, format, "copied twice", &mut copying, rounds)
}

/// Pushes packets into a buffer in which this many packets wait for missing ones, and pops after
/// each.
fn buffer(rt: &HostRuntime, what: &str, waiting: u32) -> io::Result<()> {
    let packets = [Vec::from_slice(rt.alloc(), &[7; 120])?];
    let depacketizer = OpusDepacketizer::new();
    let mut buffering = Buffering {
        buffer: DepacketizingBuffer::new(rt.alloc(), depacketizer, waiting as usize, MIN_HELD),
        packets: &packets,
        number: 0,
        step: 2,
    };
    let _held = repeat(rt.alloc(), &mut buffering, waiting.saturating_add(1));
    let tally = measure(rt, what, "pushed and popped", &mut buffering, TURNS)?;
    println!(*rt; "{what}: {TURNS} packets, {} units", tally.packets)
}

/// Every payload format but H.26x, AV1 in units of growing size, and the buffer.
pub(crate) fn measure_all(rt: &HostRuntime) -> io::Result<()> {
    audio(rt)?;
    video(rt)?;
    for (format, header, size, rounds) in [
        ("AV1 of 12,000 bytes", &b"\x32\xE0\x5D"[..], 12_000, VIDEO),
        (
            "AV1 of 200,000 bytes",
            &b"\x32\xC0\x9A\x0C"[..],
            200_000,
            VIDEO / 16,
        ),
        (
            "AV1 of 4,000,000 bytes",
            &b"\x32\x80\x92\xF4\x01"[..],
            4_000_000,
            VIDEO / 160,
        ),
    ] {
        av1(rt, format, header, size, rounds)?;
    }
    buffer(rt, "buffer of 15 and one more", 15)?;
    buffer(rt, "buffer of 4095 and one more", 4_095)
}

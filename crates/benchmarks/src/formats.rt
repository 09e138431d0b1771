//! Samples sent, and packets read, of any payload format.

use crate::buffers::Buffering;
use crate::line::Line;
use crate::measured::{Round, measure_packets};
use crate::tally::Tally;
use h26x_payload::{CodecDepacketizer, CodecPacketizer, NotBoxed};
use payload_core::{
    Codec, CodecExtra, Depacketizer, DepacketizingBuffer, MIN_HELD, PacketError, Packetizer,
    Payloader,
};
use rtp_wire::{ExtensionValues, Frequency};
use std::alloc::Global;
use std::io;

/// The limit of a payload in bytes.
pub(crate) const LIMIT: usize = 1200;

/// A sample that is sent.
#[derive(Drop)]
struct Sending<'a, P> {
    payloader: Payloader<P>,
    line: Line,
    sample: &'a [u8],
    values: ExtensionValues,
}

/// Counts what the line took.
impl<P: Packetizer> Round for Sending<'_, P> {
    ghost use Rattle.benchmarks.specs.Sent.{CountsSent};

    ghost counts = { CountsSent P.packing P.sender };

    fn round(&mut self, alloc: Global, number: u32, tally: &mut Tally) {
        self.line.tally = *tally;
        let line = &mut self.line;
        let _ = self
            .payloader
            .push_sample(alloc, line, LIMIT, number, self.sample, &self.values);
        *tally = self.line.tally;
    }
}

/// The packets of a sample, which are read.
#[derive(Drop)]
struct Reading<'a, D> {
    depacketizer: D,
    packets: &'a [Vec<u8>],
    out: Vec<u8>,
}

/// Counts packets, and the bytes that they give.
impl<D: Depacketizer> Round for Reading<'_, D> {
    ghost use Rattle.benchmarks.specs.Read.{CountsRead};

    ghost counts = { CountsRead D.format D.fragment };

    fn round(&mut self, _alloc: Global, _number: u32, tally: &mut Tally) {
        self.out.clear();
        let packets = self.packets;
        let mut extra = CodecExtra::None;
        for packet in packets {
            let _ = self
                .depacketizer
                .depacketize(packet, &mut self.out, &mut extra);
        }
        tally.add(packets.len(), self.out.len());
    }
}

/// The baseline for readers: all payloads are copied into one fragment, and that into the output.
#[derive(Drop)]
pub(crate) struct Copying<'a> {
    pub(crate) packets: &'a [Vec<u8>],
    pub(crate) fragment: Vec<u8>,
    pub(crate) out: Vec<u8>,
}

/// Counts packets, and the bytes that they give.
impl Round for Copying<'_> {
    ghost use Rattle.benchmarks.specs.Read.{CountsCopied};

    ghost counts = { CountsCopied };

    fn round(&mut self, _alloc: Global, _number: u32, tally: &mut Tally) {
        self.fragment.clear();
        self.out.clear();
        let packets = self.packets;
        for packet in packets {
            let _ = self.fragment.extend_from_slice(packet);
        }
        let _ = self.out.extend_from_slice(&self.fragment);
        tally.add(packets.len(), self.out.len());
    }
}

/// What a payload format refuses, as an error of the program.
pub(crate) fn refused(_error: PacketError) -> io::Error {
    io::Error::other("a payload format refuses a sample")
}

/// A packetizer and a depacketizer of a codec; with `is_set` AMR-WB is octet-aligned, and units of H.265 have decoding
/// order numbers.
fn pair(
    alloc: Global,
    codec: Codec,
    is_set: bool,
) -> Option<(CodecPacketizer<NotBoxed>, CodecDepacketizer<NotBoxed>)> {
    let (octet_align, max_don_diff) = (Some(is_set), Some(u16::from(is_set)));
    let mut packetizer = CodecPacketizer::<NotBoxed>::with_picture_id(codec, Some(1))?;
    packetizer.configure_for(octet_align, max_don_diff, Frequency::EIGHT_KHZ);
    let mut depacketizer = CodecDepacketizer::<NotBoxed>::new(alloc, codec)?;
    depacketizer.configure_for(octet_align, max_don_diff, Frequency::EIGHT_KHZ);
    Some((packetizer, depacketizer))
}

/// Sends a codec's sample, reads its packets, and runs them through a jitter buffer, `rounds`
/// times.
pub(crate) fn measure_codec(
    rt: &HostRuntime,
    format: &str,
    codec: Codec,
    is_set: bool,
    sample: &[u8],
    rounds: u32,
) -> io::Result<()> {
    match pair(rt.alloc(), codec, is_set) {
        Some((packetizer, depacketizer)) => {
            both_ways(rt, format, sample, rounds, packetizer, depacketizer)
        }
        None => Err(io::Error::other("a codec without a payload format")),
    }
}

/// Sends a sample, reads its packets, and has them go through a buffer, so often.
fn both_ways<P: Packetizer + Drop, D: Depacketizer + Drop>(
    rt: &HostRuntime,
    format: &str,
    sample: &[u8],
    rounds: u32,
    mut packetizer: P,
    depacketizer: D,
) -> io::Result<()> {
    let packets = packetizer
        .packetize(rt.alloc(), LIMIT, sample)
        .map_err(refused)?;
    sent(rt, format, sample, rounds, packetizer)?;
    received(rt, format, &packets, rounds, depacketizer)
}

/// Sends a sample so often.
fn sent<P: Packetizer + Drop>(
    rt: &HostRuntime,
    format: &str,
    sample: &[u8],
    rounds: u32,
    packetizer: P,
) -> io::Result<()> {
    let mut sending = Sending {
        payloader: Payloader::new(packetizer),
        line: Line::new(),
        sample,
        values: ExtensionValues::absent(),
    };
    measure_packets(rt, format, "sent", &mut sending, rounds)?;
    let sum = sending.line.sum;
    eprintln!(*rt; "{format}: bytes of the payloads are {sum} together")
}

/// Reads packets, and has them go through a buffer, so often.
fn received<D: Depacketizer + Drop>(
    rt: &HostRuntime,
    format: &str,
    packets: &[Vec<u8>],
    rounds: u32,
    depacketizer: D,
) -> io::Result<()> {
    let mut reading = Reading {
        depacketizer,
        packets,
        out: Vec::new(rt.alloc()),
    };
    measure_packets(rt, format, "read", &mut reading, rounds)?;
    let mut buffering = Buffering {
        buffer: DepacketizingBuffer::new(rt.alloc(), reading.depacketizer, 0, MIN_HELD),
        packets,
        number: 0,
        step: 1,
    };
    measure_packets(rt, format, "through the buffer", &mut buffering, rounds)
}

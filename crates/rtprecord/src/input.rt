//! Captures of any kind, in pieces.

use crate::fragments::Fragments;
use crate::recorder::Recorder;
use anyhow::bail;
use media_files::captures::{
    Capture, CapturedPacket, HexDatagram, HexError, PassedOver, PcapHeader, PcapngSection,
    Resolution, Rtpdump, UdpDatagram, is_gzip, is_pcapng, pcap_header, read_hex_lines,
    read_pcap_records, read_pcapng_blocks, read_rtpdump_records, rtpdump_records, udp_datagram_in,
};
use std::alloc::{AllocError, Global};

// How many bytes the header of a pcap file has.
const PCAP_HEADER: usize = 24;

/// A datagram of a capture.
#[derive(Clone, Copy)]
pub(crate) struct Arrival<'a> {
    /// When it came, in microseconds, if the capture says it.
    pub(crate) time: Option<u64>,
    /// The ports that it comes from and goes to, if the capture says them.
    pub(crate) ports: Option<(u16, u16)>,
    /// Its payload.
    pub(crate) bytes: &'a [u8],
}

impl Arrival<'_> {
    /// The port that it goes to, if the capture says it.
    pub(crate) fn port(&self) -> Option<u16> {
        let (_, destination) = self.ports?;
        Some(destination)
    }

    /// Whether it comes from or goes to one of the ports, if there are any.
    pub(crate) fn is_at(&self, ports: &[u16]) -> bool {
        if ports.is_empty() {
            return true;
        }
        match self.ports {
            Some((source, destination)) => {
                ports
                    .iter()
                    .any(|port| *port == source || *port == destination)
            }
            None => true,
        }
    }
}

/// What a file holds.
#[derive(Drop)]
enum Format {
    /// Packets of pcap.
    Pcap(PcapHeader),
    /// Packets of pcapng, after blocks that led to this section.
    Pcapng(PcapngSection),
    /// Datagrams of rtpdump.
    Dump,
    /// Datagrams in lines of hexadecimal, after this many lines.
    Lines(u64),
}

/// A file that is read in pieces.
#[derive(Drop)]
pub(crate) struct Input {
    format: Format,
    fragments: Fragments,
}

/// The bytes of a text up to its last whole line; all of it if nothing follows.
fn whole_lines(text: &[u8], is_end: bool) -> &[u8] {
    if is_end {
        return text;
    }
    match text.iter().rposition(|byte| *byte == b'\n') {
        Some(last) => text.get(..=last).unwrap_or(&[]),
        None => &[],
    }
}

/// The datagrams of lines, after this many others.
fn datagrams_of(alloc: Global, text: &[u8], before: u64) -> anyhow::Result<Vec<HexDatagram>> {
    match read_hex_lines(alloc, text) {
        Ok(datagrams) => Ok(datagrams),
        Err(HexError::Memory) => bail!("out of memory"),
        Err(HexError::BadLine(number)) => {
            let number = number.saturating_add(before);
            bail!(
                "the capture is no pcap, pcapng or rtpdump, and its line {number} is no hexadecimal"
            )
        }
    }
}

impl Input {
    /// What a file holds that begins so, and how many bytes are in front of its packets: the first format that it
    /// begins as, and else lines of hexadecimal.
    pub(crate) fn of(alloc: Global, front: &[u8]) -> anyhow::Result<(Input, usize)> {
        if is_gzip(front) {
            bail!("it is compressed by gzip: unpack it first, as by gunzip")
        }
        let (format, len) = if is_pcapng(front) {
            (Format::Pcapng(PcapngSection::new(alloc)), 0)
        } else if let Some(header) = pcap_header(front) {
            (Format::Pcap(header), PCAP_HEADER)
        } else if let Some(records) = rtpdump_records(front) {
            (Format::Dump, front.len().saturating_sub(records.len()))
        } else {
            (Format::Lines(0), 0)
        };
        let fragments = Fragments::new(alloc);
        Ok((Input { format, fragments }, len))
    }

    /// Hands each datagram that is whole in a piece to the recorder, in their order; returns how many bytes of the
    /// piece that takes. The rest comes again in front of the next piece.
    pub(crate) fn feed(
        &mut self,
        alloc: Global,
        piece: &[u8],
        is_end: bool,
        recorder: &mut Recorder,
    ) -> anyhow::Result<usize> {
        let unread = match &mut self.format {
            Format::Pcap(header) => {
                let capture = read_pcap_records(alloc, *header, piece)?;
                feed_packets(&capture, &mut self.fragments, recorder)?;
                capture.unread.len()
            }
            Format::Pcapng(section) => {
                let capture = read_pcapng_blocks(alloc, section, piece)?;
                feed_packets(&capture, &mut self.fragments, recorder)?;
                capture.unread.len()
            }
            Format::Dump => {
                let dump = read_rtpdump_records(alloc, piece)?;
                feed_dump(&dump, recorder)?;
                dump.unread.len()
            }
            Format::Lines(before) => {
                let lines = whole_lines(piece, is_end);
                feed_lines(&datagrams_of(alloc, lines, *before)?, recorder)?;
                let count = lines.iter().filter(|byte| **byte == b'\n').count();
                *before = before.saturating_add(count as u64);
                piece.len().saturating_sub(lines.len())
            }
        };
        Ok(piece.len().saturating_sub(unread))
    }

    /// Counts the fragments whose others never came.
    pub(crate) fn leave(&self, recorder: &mut Recorder) {
        self.fragments.leave(recorder);
    }
}

/// Hands the datagrams in packets to the recorder.
fn feed_packets(
    capture: &Capture<'_>,
    fragments: &mut Fragments,
    recorder: &mut Recorder,
) -> Result<(), AllocError> {
    for packet in &capture.packets {
        feed_packet(packet, fragments, recorder)?;
    }
    Ok(())
}

/// Hands datagrams of rtpdump to the recorder.
fn feed_dump(dump: &Rtpdump<'_>, recorder: &mut Recorder) -> Result<(), AllocError> {
    for datagram in &dump.datagrams {
        recorder.take(&Arrival {
            time: Some((datagram.milliseconds as u64).saturating_mul(1000)),
            ports: None,
            bytes: datagram.bytes,
        })?;
    }
    Ok(())
}

/// Hands datagrams of lines to the recorder.
fn feed_lines(datagrams: &[HexDatagram], recorder: &mut Recorder) -> Result<(), AllocError> {
    for datagram in datagrams {
        recorder.take(&Arrival {
            time: datagram.milliseconds.map(|time| time.saturating_mul(1000)),
            ports: None,
            bytes: &datagram.bytes,
        })?;
    }
    Ok(())
}

/// How many microseconds so many ticks are, rounded down.
fn microseconds(ticks: u64, resolution: Resolution) -> u64 {
    let (is_decimal, digits) = match resolution {
        Resolution::Decimal(digits) => (true, digits),
        Resolution::Binary(digits) => (false, digits),
    };
    let mut whole = (ticks as u128).saturating_mul(1_000_000);
    for _ in 0..digits {
        whole = if is_decimal { whole / 10 } else { whole / 2 };
    }
    u64::try_from(whole).unwrap_or(u64::MAX)
}

/// Hands the datagram of a packet to the recorder.
pub(crate) fn feed_datagram(
    packet: &CapturedPacket<'_>,
    datagram: &UdpDatagram<'_>,
    recorder: &mut Recorder,
) -> Result<(), AllocError> {
    recorder.take(&Arrival {
        time: Some(microseconds(packet.ticks, packet.resolution)),
        ports: Some((datagram.source_port, datagram.destination_port)),
        bytes: datagram.payload,
    })
}

/// Hands the datagram in a packet to the recorder, or counts why there is none.
fn feed_packet(
    packet: &CapturedPacket<'_>,
    fragments: &mut Fragments,
    recorder: &mut Recorder,
) -> Result<(), AllocError> {
    match udp_datagram_in(packet.link, packet.bytes) {
        Ok(datagram) => feed_datagram(packet, &datagram, recorder),
        Err(PassedOver::Fragment) => fragments.take(packet, recorder),
        Err(why) => {
            recorder.pass_over(why);
            Ok(())
        }
    }
}

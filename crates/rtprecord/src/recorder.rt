//! Datagrams to their streams.

use crate::input::Arrival;
use crate::passed::{NOTHING, Passed, count};
use crate::places::Index;
use crate::reports::{SenderReport, sender_report};
use crate::row::Row;
use crate::rows::Rows;
use crate::secrecy::SecuredPorts;
use crate::seen::{Seen, note};
use crate::source::Source;
use crate::stream::Stream;
use crate::typed::TypedSources;
use crate::units::UnitFiles;
use h26x_payload::{Codec, SeqNo};
use media_files::captures::{DatagramKind, PassedOver, kind_of, relayed_in};
use payload_core::RedDecoder;
use rtp_wire::{ExtensionMap, RtpHeader, unpad_payload};
use std::alloc::{AllocError, Global};
use std::collections::BTreeMap;

/// How much is held and recorded.
#[derive(Clone, Copy)]
pub(crate) struct Limits {
    pub(crate) hold_back: usize,
    pub(crate) held: usize,
    pub(crate) most_streams: usize,
    /// Whether units are kept, or only counted.
    pub(crate) is_kept: bool,
}

/// The streams of a capture.
#[derive(Drop)]
pub(crate) struct Recorder {
    pub(crate) alloc: Global,
    pub(crate) rows: Rows,
    pub(crate) limits: Limits,
    /// The ports from or to which datagrams are taken; all if there are none.
    ports: Vec<u16>,
    pub(crate) passed: Passed,
    /// How many datagrams there were.
    pub(crate) datagrams: u64,
    /// How many bytes at the ends of captures are no packet.
    pub(crate) unread: u64,
    /// The sources and the streams, by their numbers.
    pub(crate) sources: BTreeMap<u64, Source>,
    pub(crate) streams: BTreeMap<u64, Stream>,
    pub(crate) source_index: Index,
    pub(crate) stream_index: Index,
    pub(crate) typed: TypedSources,
    unit_files: UnitFiles,
    /// What is seen without a row.
    pub(crate) seen: Vec<Seen>,
    /// The first report of each sender, by its SSRC.
    pub(crate) reports: BTreeMap<u32, SenderReport>,
    /// The ports with DTLS.
    pub(crate) secured: SecuredPorts,
}

/// A packet that was taken: what its header says, and its number.
#[derive(Clone, Copy)]
pub(crate) struct Taken<'a> {
    pub(crate) header: &'a RtpHeader,
    pub(crate) seq_no: SeqNo,
    /// The port of its source.
    pub(crate) port: Option<u16>,
    pub(crate) time: Option<u64>,
    /// The ports that it comes from and goes to, if the capture says them.
    pub(crate) ports: Option<(u16, u16)>,
}

/// The type and the payload of the primary block of a redundant payload (RFC 2198 3).
fn primary_of(payload: &[u8]) -> Option<(u8, &[u8])> {
    let Ok(blocks) = RedDecoder::decode(payload) else {
        return None;
    };
    for block in blocks {
        if block.primary {
            return Some((block.pt, block.payload));
        }
    }
    None
}

impl Recorder {
    /// A new recorder.
    pub(crate) fn new(
        alloc: Global,
        rows: Rows,
        limits: Limits,
        ports: Vec<u16>,
        folder: String,
    ) -> Recorder {
        Recorder {
            alloc,
            rows,
            limits,
            ports,
            passed: NOTHING,
            datagrams: 0,
            unread: 0,
            sources: BTreeMap::new(alloc),
            streams: BTreeMap::new(alloc),
            source_index: Index::new(alloc),
            stream_index: Index::new(alloc),
            typed: TypedSources::new(alloc),
            unit_files: UnitFiles::new(folder),
            seen: Vec::new(alloc),
            reports: BTreeMap::new(alloc),
            secured: SecuredPorts::new(alloc),
        }
    }

    /// Counts a packet without a datagram.
    pub(crate) fn pass_over(&mut self, why: PassedOver) {
        match why {
            PassedOver::NotUdp => count(&mut self.passed.not_udp),
            PassedOver::Fragment => count(&mut self.passed.fragments.unreadable),
            PassedOver::Cut => count(&mut self.passed.cut),
            PassedOver::Malformed => count(&mut self.passed.malformed),
        }
    }

    /// Counts bytes at the end of a capture that are no packet.
    pub(crate) fn leave(&mut self, len: u64) {
        self.unread = self.unread.saturating_add(len);
    }

    /// Takes a datagram, or the one that it relays.
    pub(crate) fn take(&mut self, arrival: &Arrival<'_>) -> Result<(), AllocError> {
        count(&mut self.datagrams);
        if !arrival.is_at(&self.ports) {
            count(&mut self.passed.elsewhere);
            return Ok(());
        }
        let Some(bytes) = relayed_in(arrival.bytes) else {
            return self.take_datagram(arrival);
        };
        count(&mut self.passed.relayed);
        self.take_datagram(&Arrival {
            time: arrival.time,
            ports: arrival.ports,
            bytes,
        })
    }

    /// Takes a datagram that no TURN server relays.
    fn take_datagram(&mut self, arrival: &Arrival<'_>) -> Result<(), AllocError> {
        match kind_of(arrival.bytes) {
            DatagramKind::Rtp => return self.take_rtp(arrival),
            DatagramKind::Rtcp => return self.take_rtcp(arrival.bytes),
            DatagramKind::Stun => count(&mut self.passed.stun),
            DatagramKind::Dtls => {
                count(&mut self.passed.dtls);
                return self.secured.note(arrival, self.limits.most_streams);
            }
            _ => count(&mut self.passed.other),
        }
        Ok(())
    }

    /// Keeps the first report of each sender.
    fn take_rtcp(&mut self, datagram: &[u8]) -> Result<(), AllocError> {
        count(&mut self.passed.rtcp);
        let Some(report) = sender_report(datagram) else {
            return Ok(());
        };
        let is_known = self.reports.contains_key(&report.ssrc);
        if !is_known && self.reports.len() < self.limits.most_streams {
            self.reports.insert(report.ssrc, report)?;
        }
        Ok(())
    }

    /// Takes a packet of RTP, if a row has its type.
    fn take_rtp(&mut self, arrival: &Arrival<'_>) -> Result<(), AllocError> {
        let Some(header) = RtpHeader::parse(arrival.bytes, &ExtensionMap::empty()) else {
            count(&mut self.passed.other);
            return Ok(());
        };
        let pt = header.payload_type.get();
        match self.rows.row(pt, arrival.port()) {
            Some(row) if row.codec == Codec::Rtx => self.take_repair(row, &header, arrival),
            Some(row) if !matches!(row.codec, Codec::Null | Codec::Unknown) => {
                self.take_packet(row, &header, arrival)
            }
            _ => {
                count(&mut self.passed.unknown);
                let (ssrc, most) = (header.ssrc.get(), self.limits.most_streams);
                if !note(&mut self.seen, most, ssrc, pt, arrival.port())? {
                    count(&mut self.passed.too_many);
                }
                Ok(())
            }
        }
    }

    /// Takes a packet of a row.
    fn take_packet(
        &mut self,
        row: Row,
        header: &RtpHeader,
        arrival: &Arrival<'_>,
    ) -> Result<(), AllocError> {
        let port = row.ports.and_then(|_| arrival.port());
        let Some(place) = self.source_place(header.ssrc, port)? else {
            count(&mut self.passed.too_many);
            return Ok(());
        };
        let Some(source) = self.sources.get_mut(&place) else {
            return Ok(());
        };
        let Some(seq_no) = source.receive(arrival.bytes) else {
            return Ok(());
        };
        let behind = arrival.bytes.get(header.header_len..).unwrap_or(&[]);
        let Some(payload) = unpad_payload(header.has_padding, behind) else {
            count(&mut source.damaged);
            return Ok(());
        };
        if payload.is_empty() {
            count(&mut source.padding);
            return Ok(());
        }
        let taken = Taken {
            header,
            seq_no,
            port,
            time: arrival.time,
            ports: arrival.ports,
        };
        self.take_payload(place, row, &taken, payload)
    }

    /// Takes the payload of a packet of a source: of redundant audio the primary block.
    pub(crate) fn take_payload(
        &mut self,
        place: u64,
        row: Row,
        taken: &Taken<'_>,
        payload: &[u8],
    ) -> Result<(), AllocError> {
        let found = if row.codec == Codec::Red {
            primary_of(payload).and_then(|p| Some((self.rows.row(p.0, taken.port)?, p.1)))
        } else {
            Some((row, payload))
        };
        let (Some((row, payload)), Some(source)) = (found, self.sources.get_mut(&place)) else {
            return Ok(self.damage(place));
        };
        if source.note_type(row.pt) {
            self.typed.add(source.port, row.pt, place)?;
        }
        let Some(place) = self.stream_place(place, row)? else {
            count(&mut self.passed.too_many);
            return Ok(());
        };
        if let Some(stream) = self.streams.get_mut(&place) {
            stream.arrive(taken.time, taken.header.timestamp);
            stream.first_bytes.note(taken.ports, payload);
            stream.push(taken.seq_no, taken.header, payload);
        }
        Ok(())
    }

    /// Counts a packet of a source that can't be read.
    fn damage(&mut self, place: u64) {
        if let Some(source) = self.sources.get_mut(&place) {
            count(&mut source.damaged);
        }
    }

    /// Puts away what streams have in memory, if that is much.
    pub(crate) fn put_away(&mut self, rt: &HostRuntime) {
        for stream in self.streams.values_mut() {
            if stream.units.are_many() {
                stream.units.put_away(rt, &mut self.unit_files);
            }
        }
    }

    /// Removes what was put away.
    pub(crate) fn remove_units(&mut self, rt: &HostRuntime) {
        for stream in self.streams.values_mut() {
            stream.units.remove(rt);
        }
    }

    /// Hands out what is left, if nothing more will come, and tells which streams are encrypted.
    pub(crate) fn finish(&mut self) {
        let is_secure = self.rows.is_secure;
        for stream in self.streams.values_mut() {
            stream.drain();
            let codec = stream.row.codec;
            stream.is_encrypted = stream
                .first_bytes
                .are_encrypted(codec, is_secure, &self.secured);
        }
    }
}

//! A stream of a capture: what its datagrams become.

use crate::heads::Heads;
use crate::layers::Layers;
use crate::outcomes::StreamFile;
use crate::recorder::Limits;
use crate::row::Row;
use crate::secrecy::FirstBytes;
use crate::sizes::is_vp9_key;
use crate::units::Units;
use h26x_payload::{
    Codec, CodecDepacketizer, CodecExtra, DepacketizingBuffer, NotBoxed, PacketError, RtpMeta,
    SeqNo, is_valid_capacity,
};
use media_files::push_superframe_index;
use payload_core_buffer::Unit;
use rtp_wire::{RtpHeader, Ssrc};
use std::alloc::{AllocError, Global};
use stream_recording::{record_packet, record_rest};

// How many complete frames the first one waits for, as packets of it may come late; fewer with a smaller hold-back.
const FIRST_FRAMES: usize = 63;

// How many bytes of payload wait at most when they are looked at, and after how many that is.
const MOST_WAITING: usize = 16_777_216;

const LOOK_EVERY: usize = 4_194_304;

/// Which stream it is.
#[derive(Clone, Copy)]
pub(crate) struct StreamKind {
    /// The number of its source.
    pub(crate) source: u64,
    pub(crate) ssrc: Ssrc,
    /// The port of its source.
    pub(crate) port: Option<u16>,
    pub(crate) row: Row,
}

/// The packets of an SSRC and a row, and the units that they are.
#[derive(Drop)]
pub(crate) struct Stream {
    alloc: Global,
    /// The number of its source.
    pub(crate) source: u64,
    pub(crate) ssrc: Ssrc,
    /// The port of its source.
    pub(crate) port: Option<u16>,
    pub(crate) row: Row,
    pub(crate) datagrams: u64,
    /// Frames that can't be read.
    pub(crate) faults: u64,
    pub(crate) keyframes: u64,
    pub(crate) units: Units,
    /// What a file of several streams needs of its units.
    pub(crate) heads: Heads,
    /// Whether memory ran out for its units, and the later ones are left out.
    pub(crate) is_cut: bool,
    /// How often packets that waited were given up, since they had too many bytes.
    pub(crate) given_up: u64,
    /// What came of its file.
    pub(crate) file: StreamFile,
    /// When its first packet came, in microseconds, and that packet's time.
    pub(crate) began: Option<(u64, u32)>,
    /// When its last packet came, in microseconds.
    pub(crate) ended: Option<u64>,
    pub(crate) first_bytes: FirstBytes,
    /// Whether its payloads are encrypted, and it isn't written.
    pub(crate) is_encrypted: bool,
    layers: Layers,
    /// How many complete frames its first one waits for.
    first: usize,
    /// How many bytes came since those that wait were looked at.
    unlooked: usize,
    buffer: DepacketizingBuffer<CodecDepacketizer<NotBoxed>>,
}

/// Whether a keyframe is told of a unit.
fn is_keyframe(extra: CodecExtra) -> bool {
    match extra {
        CodecExtra::Vp8(extra) => extra.is_keyframe,
        CodecExtra::H264(extra) => extra.is_keyframe,
        CodecExtra::H265(extra) => extra.is_keyframe,
        CodecExtra::H266(extra) => extra.is_keyframe,
        CodecExtra::Av1(extra) => extra.is_keyframe,
        _ => false,
    }
}

impl Stream {
    /// A stream of which nothing came; None if its codec has no payload format, or this many packets may not be held.
    pub(crate) fn new(alloc: Global, kind: StreamKind, limits: Limits) -> Option<Stream> {
        if !is_valid_capacity(limits.held) {
            return None;
        }
        let depacketizer = kind.row.depacketizer(alloc)?;
        Some(Stream {
            alloc,
            source: kind.source,
            ssrc: kind.ssrc,
            port: kind.port,
            row: kind.row,
            datagrams: 0,
            faults: 0,
            keyframes: 0,
            units: Units::new(alloc, limits.is_kept),
            heads: Heads::new(alloc),
            is_cut: false,
            given_up: 0,
            file: StreamFile::NotAsked,
            began: None,
            ended: None,
            first_bytes: FirstBytes::new(),
            is_encrypted: false,
            layers: Layers::new(alloc),
            first: limits.hold_back.min(FIRST_FRAMES),
            unlooked: 0,
            buffer: DepacketizingBuffer::new(alloc, depacketizer, limits.hold_back, limits.held),
        })
    }

    /// Notes when a packet came.
    pub(crate) fn arrive(&mut self, time: Option<u64>, rtp_time: u32) {
        let Some(time) = time else {
            return;
        };
        if self.began.is_none() {
            self.began = Some((time, rtp_time));
        }
        self.ended = Some(time);
    }

    /// Notes what a packet of VP9 has of a layer.
    fn note_layer(&mut self, seq_no: SeqNo, payload: &[u8]) {
        if self.row.codec == Codec::Vp9 && self.layers.note(seq_no.get(), payload).is_err() {
            self.is_cut = true;
        }
    }

    /// Takes the payload of a packet, and keeps the units that are complete. If memory runs out, the stream ends here.
    pub(crate) fn push(&mut self, seq_no: SeqNo, header: &RtpHeader, payload: &[u8]) {
        self.datagrams = self.datagrams.saturating_add(1);
        if self.is_cut {
            return;
        }
        let meta = RtpMeta {
            seq_no,
            time: header.timestamp,
            marker: header.marker,
            ext_vals: header.ext_vals,
        };
        self.note_layer(seq_no, payload);
        let mut recorded = Vec::new(self.alloc);
        let taken = record_packet(&mut self.buffer, self.first, meta, payload, &mut recorded);
        self.keep(recorded);
        self.is_cut |= taken.is_err();
        self.give_up(payload.len());
    }

    /// Gives the oldest packets that wait up if all that wait have too many bytes, these new ones with them. They are
    /// looked at once for each `LOOK_EVERY` bytes that come.
    fn give_up(&mut self, len: usize) {
        self.unlooked = self.unlooked.saturating_add(len);
        if self.unlooked < LOOK_EVERY {
            return;
        }
        self.unlooked = 0;
        if self.buffer.keep_within(MOST_WAITING) {
            self.given_up = self.given_up.saturating_add(1);
        }
    }

    /// Keeps the units that are left, if nothing more will come.
    pub(crate) fn drain(&mut self) {
        if self.is_cut {
            return;
        }
        let mut recorded = Vec::new(self.alloc);
        let taken = record_rest(&mut self.buffer, &mut recorded);
        self.keep(recorded);
        self.is_cut |= taken.is_err();
    }

    /// Keeps what frames became.
    fn keep(&mut self, recorded: Vec<Result<Unit, PacketError>>) {
        for outcome in recorded {
            match outcome {
                Ok(unit) => {
                    if !self.is_cut && self.keep_unit(unit).is_err() {
                        self.is_cut = true;
                    }
                }
                Err(_) => self.faults = self.faults.saturating_add(1),
            }
        }
    }

    /// Keeps a unit.
    fn keep_unit(&mut self, unit: Unit) -> Result<(), AllocError> {
        let (time, is_told) = (unit.time(), is_keyframe(unit.extra()));
        if is_told {
            self.keyframes = self.keyframes.saturating_add(1);
        }
        let mut sizes = Vec::new(self.alloc);
        self.layers
            .take(unit.first().get(), unit.last().get(), &mut sizes)?;
        let mut bytes = unit.into_bytes();
        let codec = self.row.codec;
        if codec == Codec::Vp9 {
            push_superframe_index(&sizes, &mut bytes)?;
        }
        self.heads.note(self.alloc, codec, is_told, &bytes)?;
        let is_key = match codec {
            Codec::Vp9 => is_vp9_key(&bytes),
            codec => codec.is_audio() || is_told,
        };
        self.units.push(time, is_key, &bytes)
    }
}

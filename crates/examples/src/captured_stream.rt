//! A stream of a capture, as it is received. Uses the crates `h26x_payload`, `payload_core` and `rtp_wire`, and the
//! module `capture` beside it.

use crate::capture::Capture;
use h26x_payload::{
    CodecDepacketizer, CodecExtra, Depacketized, DepacketizingBuffer, NotBoxed, PacketError,
    RtpMeta,
};
use payload_core::{MIN_HELD, RedDecoder};
use rtp_wire::{ExtensionMap, Reception, RtpHeader, SeqNoWindow, Ssrc, receive_one, unpad_payload};
use std::alloc::Global;

/// How many complete frames wait for a missing one.
const HOLD_BACK: usize = 1023;

/// What came of a stream's datagrams.
#[derive(Clone, Copy)]
pub(crate) struct Counts {
    /// Datagrams that were taken.
    pub(crate) taken: u64,
    /// Datagrams whose payload is only padding.
    pub(crate) padding: u64,
    /// Datagrams that came before, or too late.
    pub(crate) refused: u64,
    /// Units that were handed out.
    pub(crate) units: u64,
    /// Their bytes.
    pub(crate) bytes: u64,
    /// Units of which a keyframe is told.
    pub(crate) keyframes: u64,
    /// Whether the first unit is one.
    pub(crate) begins_with_keyframe: bool,
    /// Units that were only handed out at the end, since a packet before them is missing.
    pub(crate) drained: u64,
    /// Frames that could not be read.
    pub(crate) faults: u64,
}

/// Nothing came.
const NONE: Counts = Counts {
    taken: 0,
    padding: 0,
    refused: 0,
    units: 0,
    bytes: 0,
    keyframes: 0,
    begins_with_keyframe: false,
    drained: 0,
    faults: 0,
};

/// A stream: its SSRC, its replay window and its buffer.
#[derive(Drop)]
pub(crate) struct Stream {
    pub(crate) ssrc: Ssrc,
    pub(crate) counts: Counts,
    window: Option<SeqNoWindow>,
    buffer: DepacketizingBuffer<CodecDepacketizer<NotBoxed>>,
}

/// Whether a keyframe is told of a unit.
fn is_keyframe(extra: CodecExtra) -> bool {
    match extra {
        CodecExtra::Vp8(extra) => extra.is_keyframe,
        CodecExtra::H264(extra) => extra.is_keyframe,
        CodecExtra::Av1(extra) => extra.is_keyframe,
        _ => false,
    }
}

/// The primary payload of a redundant one, if it has this type.
fn primary_of(payload: &[u8], pt: u8) -> Option<&[u8]> {
    let Ok(blocks) = RedDecoder::decode(payload) else {
        return None;
    };
    for block in blocks {
        if block.primary && block.pt == pt {
            return Some(block.payload);
        }
    }
    None
}

/// The payload of a datagram without its padding and redundancy.
fn payload_of<'a>(capture: &Capture, header: &RtpHeader, datagram: &'a [u8]) -> Option<&'a [u8]> {
    let payload = unpad_payload(header.has_padding, datagram.get(header.header_len..)?)?;
    if payload.is_empty() || header.payload_type.get() == capture.pt {
        return Some(payload);
    }
    primary_of(payload, capture.pt)
}

impl Counts {
    /// Counts a unit.
    fn add_unit(&mut self, unit: &Depacketized) {
        let is_key = is_keyframe(unit.extra);
        if self.units == 0 {
            self.begins_with_keyframe = is_key;
        }
        self.units = self.units.saturating_add(1);
        self.bytes = self.bytes.saturating_add(unit.bytes.len() as u64);
        self.keyframes = self.keyframes.saturating_add(u64::from(is_key));
    }

    /// Counts what a buffer handed out; returns whether it was something.
    fn add(
        &mut self,
        popped: Result<Option<Depacketized>, PacketError>,
    ) -> Result<bool, PacketError> {
        match popped {
            Ok(Some(unit)) => self.add_unit(&unit),
            Ok(None) => return Ok(false),
            Err(PacketError::Memory) => return Err(PacketError::Memory),
            Err(_) => self.faults = self.faults.saturating_add(1),
        }
        Ok(true)
    }
}

impl Stream {
    /// A stream that received nothing; None if the codec has no payload format.
    pub(crate) fn new(alloc: Global, capture: &Capture, ssrc: Ssrc) -> Option<Stream> {
        Some(Stream {
            ssrc,
            counts: NONE,
            window: None,
            buffer: DepacketizingBuffer::new(
                alloc,
                capture.depacketizer(alloc)?,
                HOLD_BACK,
                MIN_HELD,
            ),
        })
    }

    /// Takes a datagram in, and hands out what is complete.
    pub(crate) fn receive(
        &mut self,
        capture: &Capture,
        header: &RtpHeader,
        datagram: &[u8],
    ) -> Result<(), PacketError> {
        let Some(payload) = payload_of(capture, header, datagram) else {
            self.counts.faults = self.counts.faults.saturating_add(1);
            return Ok(());
        };
        if payload.is_empty() {
            self.counts.padding = self.counts.padding.saturating_add(1);
            return Ok(());
        }
        let Reception::Taken(seq_no) = receive_one(
            &mut self.window,
            datagram,
            &ExtensionMap::empty(),
        ) else {
            self.counts.refused = self.counts.refused.saturating_add(1);
            return Ok(());
        };
        self.counts.taken = self.counts.taken.saturating_add(1);
        let meta = RtpMeta {
            seq_no,
            time: header.timestamp,
            marker: header.marker,
            ext_vals: header.ext_vals,
        };
        self.buffer.push(meta, payload)?;
        self.counts.add(self.buffer.pop())?;
        Ok(())
    }

    /// Hands out all that is complete, if nothing more will come.
    pub(crate) fn drain(&mut self) -> Result<(), PacketError> {
        let units = self.counts.units;
        for _ in 0..u32::MAX {
            if !self.counts.add(self.buffer.drain())? {
                break;
            }
        }
        self.counts.drained = self.counts.units.saturating_sub(units);
        Ok(())
    }
}

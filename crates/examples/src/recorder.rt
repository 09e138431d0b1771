//! A recorder of one stream. Uses the crates `payload_core` and `rtp_wire`.

use payload_core::{
    Depacketized, DepacketizingBuffer, MIN_HELD, PacketError, RtpMeta, Vp8Depacketizer,
};
use rtp_wire::{
    ExtensionMap, Pt, Reception, RtpHeader, SeqNoWindow, Ssrc, receive_one, unpad_payload,
};
use std::alloc::Global;

/// How many complete frames wait for one that is missing.
const HOLD_BACK: usize = 2;

/// The VP8 frames of one SSRC and payload type, out of whatever datagrams come.
#[derive(Drop)]
pub(crate) struct Recorder {
    ssrc: Ssrc,
    pt: Pt,
    window: Option<SeqNoWindow>,
    buffer: DepacketizingBuffer<Vp8Depacketizer>,
}

impl Recorder {
    /// A recorder to which nothing came.
    pub(crate) fn new(alloc: Global, ssrc: Ssrc, pt: Pt) -> Recorder {
        Recorder {
            ssrc,
            pt,
            window: None,
            buffer: DepacketizingBuffer::new(alloc, Vp8Depacketizer::new(), HOLD_BACK, MIN_HELD),
        }
    }

    /// Takes a datagram in. False if it is no RTP, of another stream, without a payload, came before, or comes too
    /// late.
    ///
    /// # Errors
    /// `PacketError::Memory`.
    pub(crate) fn receive(&mut self, datagram: &[u8]) -> Result<bool, PacketError> {
        let exts = ExtensionMap::empty();
        let Some(header) = RtpHeader::parse(datagram, &exts) else {
            return Ok(false);
        };
        if header.ssrc != self.ssrc || header.payload_type != self.pt {
            return Ok(false);
        }
        let behind = &datagram[header.header_len..];
        let payload = match unpad_payload(header.has_padding, behind) {
            Some(payload) if !payload.is_empty() => payload,
            _ => return Ok(false),
        };
        let Reception::Taken(seq_no) = receive_one(&mut self.window, datagram, &exts) else {
            return Ok(false);
        };
        let meta = RtpMeta {
            seq_no,
            time: header.timestamp,
            marker: header.marker,
            ext_vals: header.ext_vals,
        };
        self.buffer.push(meta, payload)?;
        Ok(true)
    }

    /// The frames that are due.
    ///
    /// # Errors
    /// If a packet of a frame is refused, which is done with then, or memory runs out.
    pub(crate) fn frames(&mut self, alloc: Global) -> Result<Vec<Depacketized>, PacketError> {
        let mut frames = Vec::new(alloc);
        self.buffer.pop_all(&mut frames)?;
        Ok(frames)
    }

    /// The complete frames that are left, for the end of the stream, when nothing more will come.
    ///
    /// # Errors
    /// As `frames`.
    pub(crate) fn last_frames(&mut self, alloc: Global) -> Result<Vec<Depacketized>, PacketError> {
        last_frames(alloc, &mut self.buffer)
    }
}

/// The complete frames that are left in a buffer.
pub(crate) fn last_frames(
    alloc: Global,
    buffer: &mut DepacketizingBuffer<Vp8Depacketizer>,
) -> Result<Vec<Depacketized>, PacketError> {
    let mut frames = Vec::new(alloc);
    for _ in 0..MIN_HELD {
        match buffer.drain()? {
            Some(frame) => frames.push(frame)?,
            None => break,
        }
    }
    Ok(frames)
}

//! Payloads beside others.

ghost use Rattle.payload_core_audio.specs.RedSending.{fits};
ghost use Rattle.payload_core_audio.specs.RedViews.{block_of};
ghost use Rattle.std.specs.Prelude.{◌≡◌};

use crate::spelling::fields_fit;

/// An older payload to be repeated beside a newer one (RFC 2198 3).
#[derive(Debug)]
pub struct RedundantBlock {
    /// Its payload type, of which the low seven bits are sent.
    pub pt: u8,
    /// How much older it is than the primary payload, in ticks of the RTP clock.
    pub timestamp_offset: u32,
    /// Its bytes.
    pub payload: Vec<u8>,
}

/// Written by hand, so that crates that drop this type need no proof about its fields.
impl Drop for RedundantBlock {
    fn drop(self) {
        let RedundantBlock {
            pt: _pt,
            timestamp_offset: _timestamp_offset,
            payload: _payload,
        } = self;
    }
}

impl RedundantBlock {
    /// Whether it fits a block header: a timestamp offset of at most 16,383 ticks, and at most
    /// 1,023 bytes.
    pub fn fits(&self) -> bool
        ensures { result ≡ fits (block_of self.now) }
    {
        fields_fit(self.timestamp_offset, &self.payload)
    }
}

/// A payload of a RED packet, borrowed from the packet (RFC 2198 3).
#[derive(Clone, Copy, Debug, PartialEq, Eq, Drop)]
pub struct RedBlock<'a> {
    /// Its payload type, at most 127.
    pub pt: u8,
    /// How much older it is than the primary payload, in ticks of the RTP clock: at most 16,383, and 0 for
    /// the primary payload.
    pub timestamp_offset: u32,
    /// Its bytes, at most 1,023 unless it is the primary payload.
    pub payload: &'a [u8],
    /// Whether it is the packet's primary payload.
    pub primary: bool,
}

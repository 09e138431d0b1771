//! What a poll hands out.

ghost use Rattle.std.specs.Prelude.{◌≡◌};

use crate::kept_values::KeptValues;
use crate::run::Read;
use payload_core_base::CodecExtra;
use rtp_wire::{ExtensionValues, SeqNo};
use std::marker::Model;

/// A video frame or an audio packet: its bytes, its RTP timestamp (RFC 3550 5.1), the widened
/// sequence numbers of its first and last datagram, the last one's header extension values (RFC
/// 8285), and its codec's own data.
pub struct Unit {
    pub(crate) bytes: Vec<u8>,
    pub(crate) time: u32,
    pub(crate) ext_vals: KeptValues,
    pub(crate) first: SeqNo,
    pub(crate) last: SeqNo,
    pub(crate) extra: CodecExtra,
}

/// Written by hand, so that crates that drop this type need no proof about its fields.
impl Drop for Unit {
    fn drop(self) {
        let Unit {
            bytes: _bytes,
            time: _time,
            ext_vals: _ext_vals,
            first: _first,
            last: _last,
            extra: _extra,
        } = self;
    }
}

impl Model for Unit {
    ghost use Rattle.payload_core_buffer.specs.Steps.{MediaUnit};

    ghost Value = { MediaUnit };

    ghost view = { λ u. record {
      first = u.first;
      last = u.last;
      time = u.time;
      values = u.ext_vals;
      bytes = u.bytes.items;
      extra = u.extra;
    } };
}

impl Unit {
    /// The bytes.
    pub fn bytes(&self) -> &[u8]
        ensures { result.now ≡ self.now.bytes }
    {
        self.bytes.as_slice()
    }

    /// The RTP timestamp, in ticks of the row's clock; for G.722 at 8,000 Hz (RFC 3551 4.5.2).
    pub fn time(&self) -> u32
        ensures { result ≡ self.now.time }
    {
        self.time
    }

    /// The values of the header extensions of the last datagram.
    pub fn ext_vals(&self) -> ExtensionValues
        ensures { result ≡ self.now.values }
    {
        self.ext_vals.get()
    }

    /// What its codec tells beside the bytes, as whether it is a keyframe.
    pub fn extra(&self) -> CodecExtra
        ensures { result ≡ self.now.extra }
    {
        self.extra
    }

    /// The number of the first datagram.
    pub fn first(&self) -> SeqNo
        ensures { result ≡ self.now.first }
    {
        self.first
    }

    /// The number of the last datagram.
    pub fn last(&self) -> SeqNo
        ensures { result ≡ self.now.last }
    {
        self.last
    }

    /// The bytes, without a copy.
    pub fn into_bytes(self) -> Vec<u8>
        ensures { result.items ≡ self.bytes }
    {
        let Unit {
            bytes,
            time: _,
            ext_vals: _,
            first: _,
            last: _,
            extra: _,
        } = self;
        bytes
    }
    /// Its bytes and its codec's data, without a copy.
    pub(crate) fn into_read(self) -> Read
        ensures bytes { result.bytes.items ≡ self.bytes }
        ensures extra { result.extra ≡ self.extra }
    {
        let Unit {
            bytes,
            time: _,
            ext_vals: _,
            first: _,
            last: _,
            extra,
        } = self;
        Read { bytes, extra }
    }
}

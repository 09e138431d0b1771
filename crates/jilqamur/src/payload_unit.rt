//! Units, and what is told of them.

ghost use Rattle.std.specs.Prelude.{◌≡◌};
ghost use Rattle.payload_core_buffer.specs.Metas.{metas_of_unit};
ghost use Rattle.jilqamur.specs.Units.{unit_from, told_of, told_by, keyframe_told, picture_id_told};
ghost use Rattle.jilqamur.specs.Units.{base_layer_told, event_told};

use payload_core_base::{CodecExtra, TelephoneEvent};
use payload_core_buffer::Depacketized;
use rtp_wire::SeqNo;
use std::marker::Model;

/// What is told of a unit beside its bytes.
#[repr(C)]
#[derive(Clone, Copy, Drop)]
pub struct WireUnit {
    /// The widened sequence number of its first packet.
    pub first: u64,
    /// That of its last packet.
    pub last: u64,
    /// The RTP timestamp, in ticks of the clock rate, of G.722 at 8,000 Hz (RFC 3551 4.5.2).
    pub time: u32,
    /// Whether the codec says that it is a keyframe; VP9 and audio never do.
    pub is_keyframe: bool,
    /// Whether VP8 or VP9 gives a picture id.
    pub has_picture_id: bool,
    /// The picture id, of 7 or 15 bits (RFC 7741 4.2, RFC 9628 4.2); 0 if none is given.
    pub picture_id: u16,
    /// Whether VP8 gives the index of the temporal base layer frame.
    pub has_base_layer: bool,
    /// That index, TL0PICIDX (RFC 7741 4.2); 0 if none is given.
    pub base_layer: u8,
    /// Whether the unit is a packet of telephone events, whose first report follows (RFC 4733 2.3).
    pub has_event: bool,
    /// The event: 0 to 15 are the keys 0 to 9, *, #, A to D; 0 without an event.
    pub event: u8,
    /// Whether the event has ended.
    pub event_end: bool,
    /// The power level of the tone below 0 dBm0, in dB, 0 to 63; 0 without an event.
    pub event_volume: u8,
    /// How long the event has lasted, in nanoseconds; 0 without an event.
    pub event_duration: u64,
}

/// A unit: its bytes, the numbers of its first and last packet, its RTP time, and what its codec tells of it.
#[derive(Drop)]
pub struct PayloadUnit {
    bytes: Vec<u8>,
    first: SeqNo,
    last: SeqNo,
    time: u32,
    extra: CodecExtra,
}

impl Model for PayloadUnit {
    ghost use Rattle.jilqamur.specs.Units.{UnitState};

    ghost Value = { UnitState };

    ghost view = { λ u. record {
      bytes = u.bytes.items;
      first = u.first;
      last = u.last;
      time = u.time;
      extra = u.extra;
    } };
}

impl PayloadUnit {
    /// The unit of a complete frame.
    pub(crate) fn from_frame(frame: Depacketized) -> Self
        ensures { result ≡ unit_from (metas_of_unit frame) frame.bytes.items frame.extra }
    {
        let numbers = frame.seq_range();
        let time = frame.time();
        PayloadUnit {
            bytes: frame.bytes,
            first: *numbers.start(),
            last: *numbers.end(),
            time,
            extra: frame.extra,
        }
    }

    /// The bytes.
    pub fn bytes(&self) -> &[u8]
        ensures { result.now ≡ self.now.bytes }
    {
        &self.bytes
    }

    /// What is told beside the bytes.
    pub fn told(&self) -> WireUnit
        ensures { result ≡ told_of self.now }
    {
        wire_unit(self.first.get(), self.last.get(), self.time, self.extra)
    }
}

fn is_keyframe(extra: CodecExtra) -> bool
    ensures { result ≡ keyframe_told extra }
{
    match extra {
        CodecExtra::Vp8(extra) => extra.is_keyframe,
        CodecExtra::H264(extra) => extra.is_keyframe,
        CodecExtra::Av1(extra) => extra.is_keyframe,
        CodecExtra::H265(extra) => extra.is_keyframe,
        CodecExtra::H266(extra) => extra.is_keyframe,
        CodecExtra::None | CodecExtra::Vp9(_) | CodecExtra::Tele(_) => false,
    }
}

fn picture_id(extra: CodecExtra) -> Option<u16>
    ensures { result ≡ picture_id_told extra }
{
    match extra {
        CodecExtra::Vp8(extra) => extra.picture_id,
        CodecExtra::Vp9(extra) => extra.picture_id,
        _ => None,
    }
}

fn base_layer(extra: CodecExtra) -> Option<u8>
    ensures { result ≡ base_layer_told extra }
{
    match extra {
        CodecExtra::Vp8(extra) => extra.tl0_pic_idx,
        _ => None,
    }
}

fn event(extra: CodecExtra) -> Option<TelephoneEvent>
    ensures { result ≡ event_told extra }
{
    match extra {
        CodecExtra::Tele(event) => Some(event),
        _ => None,
    }
}

const NO_EVENT: TelephoneEvent = TelephoneEvent {
    event: 0,
    end: false,
    volume: 0,
    duration: 0,
};

/// What is told of a unit with these numbers, this timestamp and this codec data.
pub fn wire_unit(first: u64, last: u64, time: u32, extra: CodecExtra) -> WireUnit
    ensures { result ≡ told_by first last time extra }
{
    let picture_id = picture_id(extra);
    let base_layer = base_layer(extra);
    let event = event(extra);
    let report = event.unwrap_or(NO_EVENT);
    WireUnit {
        first,
        last,
        time,
        is_keyframe: is_keyframe(extra),
        has_picture_id: picture_id.is_some(),
        picture_id: picture_id.unwrap_or(0),
        has_base_layer: base_layer.is_some(),
        base_layer: base_layer.unwrap_or(0),
        has_event: event.is_some(),
        event: report.event,
        event_end: report.end,
        event_volume: report.volume,
        event_duration: report.duration,
    }
}

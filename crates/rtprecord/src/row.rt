//! A payload type.

use crate::sections::Ports;
use h26x_payload::{Codec, CodecDepacketizer, Frequency, NotBoxed};
use sdp_formats::{CodecSpec, PayloadParams, Pt};
use std::alloc::Global;

/// A payload type.
#[derive(Clone, Copy, Drop)]
pub(crate) struct Row {
    pub(crate) pt: u8,
    /// The ports on which it is meant; any if there is none.
    pub(crate) ports: Option<Ports>,
    pub(crate) codec: Codec,
    /// Ticks a second of its timestamps.
    pub(crate) rate: Frequency,
    pub(crate) channels: u8,
    /// The type that it repairs, of retransmissions (RFC 4588 8.6).
    pub(crate) repairs: Option<u8>,
    /// The place of its parameter sets among those of the texts.
    pub(crate) sets: Option<usize>,
    is_octet_aligned: bool,
    sprop_max_don_diff: Option<u16>,
}

/// The number of a payload type.
fn type_of(text: &str) -> Option<u8> {
    let pt = text.parse::<u8>().ok()?;
    if pt > 127 {
        return None;
    }
    Some(pt)
}

/// The port and the type of `PORT:TYPE`, or the type of `TYPE`.
fn place_of(text: &str) -> Option<(Option<Ports>, u8)> {
    let Some((port, pt)) = text.split_once(':') else {
        return Some((None, type_of(text)?));
    };
    let first = port.parse::<u16>().ok()?;
    Some((Some(Ports { first, count: 1 }), type_of(pt)?))
}

impl Row {
    /// The row that an argument says: `TYPE=CODEC/RATE` or `TYPE=CODEC/RATE/CHANNELS`, either after `PORT:`, and either
    /// with `;octet-align=1` at its end for AMR-WB in that layout.
    pub(crate) fn of(text: &str) -> Option<Row> {
        let (text, is_octet_aligned) = match text.strip_suffix(";octet-align=1") {
            Some(front) => (front, true),
            None => (text, false),
        };
        let (place, spec) = text.split_once('=')?;
        let (ports, pt) = place_of(place)?;
        let (name, numbers) = spec.split_once('/')?;
        let (rate, channels) = numbers.split_once('/').unwrap_or((numbers, "1"));
        let codec = Codec::from(name);
        if codec == Codec::Unknown {
            return None;
        }
        Some(Row {
            pt,
            ports,
            codec,
            rate: Frequency::new(rate.parse::<u32>().ok()?)?,
            channels: channels.parse::<u8>().ok()?,
            repairs: None,
            sets: None,
            is_octet_aligned,
            sprop_max_don_diff: None,
        })
    }

    /// The row of retransmissions that an argument says: `TYPE=REPAIRED`.
    pub(crate) fn of_repairs(text: &str) -> Option<Row> {
        let (pt, repairs) = text.split_once('=')?;
        Some(Row::repairing(type_of(pt)?, type_of(repairs)?, None))
    }

    /// The row of retransmissions of a type.
    pub(crate) fn repairing(pt: u8, repairs: u8, ports: Option<Ports>) -> Row {
        Row {
            pt,
            ports,
            codec: Codec::Rtx,
            rate: Frequency::NINETY_KHZ,
            channels: 1,
            repairs: Some(repairs),
            sets: None,
            is_octet_aligned: false,
            sprop_max_don_diff: None,
        }
    }

    /// The row of a section.
    pub(crate) fn of_params(params: &PayloadParams, ports: Option<Ports>) -> Row {
        Row::of_spec(params.pt(), &params.spec(), ports)
    }

    /// The row of a type and its codec.
    fn of_spec(pt: Pt, spec: &CodecSpec, ports: Option<Ports>) -> Row {
        Row {
            pt: pt.get(),
            ports,
            codec: spec.codec,
            rate: spec.rtp_clock_rate(),
            channels: spec.channels.unwrap_or(1),
            repairs: None,
            sets: None,
            is_octet_aligned: spec.format.octet_align.unwrap_or(false),
            sprop_max_don_diff: spec.format.sprop_max_don_diff,
        }
    }

    /// The row of a static type, which no text has to say (RFC 3551 6).
    pub(crate) fn of_static(pt: u8) -> Option<Row> {
        let pt = Pt::from(pt);
        Some(Row::of_spec(pt, &CodecSpec::from_static_pt(pt)?, None))
    }

    /// The same row, meant on any port.
    pub(crate) fn on_any_port(&self) -> Row {
        Row {
            ports: None,
            ..*self
        }
    }

    /// The row of redundant packets of this type (RFC 2198).
    pub(crate) fn as_redundant(&self, pt: u8) -> Row {
        Row {
            pt,
            codec: Codec::Red,
            ..*self
        }
    }

    /// Whether two rows read a packet alike.
    pub(crate) fn is_like(&self, other: &Row) -> bool {
        self.codec == other.codec
            && self.rate == other.rate
            && self.channels == other.channels
            && self.repairs == other.repairs
            && self.is_octet_aligned == other.is_octet_aligned
    }

    /// A depacketizer of the codec; None if it has no payload format.
    pub(crate) fn depacketizer(&self, alloc: Global) -> Option<CodecDepacketizer<NotBoxed>> {
        let mut depacketizer = CodecDepacketizer::<NotBoxed>::new(alloc, self.codec)?;
        depacketizer.configure_for(
            Some(self.is_octet_aligned),
            self.sprop_max_don_diff,
            self.rate,
        );
        Some(depacketizer)
    }
}

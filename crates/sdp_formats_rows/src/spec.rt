//! Codecs with their settings.

use crate::format::FormatParams;
use media_types::Codec;
use rtp_wire::{Frequency, Pt};
use serde::{Deserialize, Serialize};

/// A codec with its clock rate, channels and format (RFC 8866 6.6 and 6.15).
#[derive(Clone, Copy, Debug, PartialEq, Eq, Drop, Serialize, Deserialize)]
pub struct CodecSpec {
    /// The codec.
    pub codec: Codec,
    /// The clock rate in ticks a second.
    pub clock_rate: Frequency,
    /// The number of audio channels, if it is given.
    pub channels: Option<u8>,
    /// The format parameters.
    pub format: FormatParams,
}

impl CodecSpec {
    ghost use Rattle.std.specs.Prelude.{◌≡◌};
    ghost use Rattle.sdp_formats_rows.specs.Codecs.{rtp_clock_rate, static_spec};

    /// The clock rate of its timestamps: that of the codec, but 8,000 Hz for G.722 (RFC 3551 4.5.2).
    pub fn rtp_clock_rate(&self) -> Frequency
        ensures { result ≡ rtp_clock_rate self.now }
    {
        if self.codec == Codec::G722 {
            return Frequency::EIGHT_KHZ;
        }
        self.clock_rate
    }

    /// The codec of a static payload type: G.711 with mu-law at 0 and with A-law at 8, G.722 at 9 and comfort noise at
    /// 13 (RFC 3551 6).
    pub fn from_static_pt(pt: Pt) -> Option<Self>
        ensures { result ≡ static_spec pt }
    {
        let (codec, clock_rate) = match pt.get() {
            0 => (Codec::PCMU, Frequency::EIGHT_KHZ),
            8 => (Codec::PCMA, Frequency::EIGHT_KHZ),
            9 => (Codec::G722, Frequency::SIXTEEN_KHZ),
            13 => (Codec::CN, Frequency::EIGHT_KHZ),
            _ => return None,
        };
        Some(CodecSpec {
            codec,
            clock_rate,
            channels: None,
            format: FormatParams::default(),
        })
    }
}

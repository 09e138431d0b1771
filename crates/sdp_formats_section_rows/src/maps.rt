//! What `a=rtpmap` says of a codec, and back (RFC 8866 6.6).

ghost use Rattle.std.specs.Prelude.{◌≡◌};
ghost use Rattle.sdp_formats_section_rows.specs.Maps.{map_of, spec_of_map, unless_one};

use media_types::Codec;
use rtp_wire::Frequency;
use sdp_formats_data::RtpMap;
use sdp_formats_rows::{CodecSpec, FormatParams};

fn unless_one(channels: Option<u8>) -> Option<u8>
    ensures { result ≡ unless_one channels }
{
    match channels {
        Some(1) => None,
        other => other,
    }
}

/// A codec as `a=rtpmap` says it.
pub trait ToRtpMap {
    /// What `a=rtpmap` says of the codec: its name, the clock rate of its timestamps, its channels (RFC 8866 6.6).
    fn to_rtp_map(&self) -> RtpMap;
}

impl ToRtpMap for CodecSpec {
    fn to_rtp_map(&self) -> RtpMap
        ensures { result ≡ map_of self.now }
    {
        RtpMap {
            codec: self.codec,
            clock_rate: self.rtp_clock_rate(),
            channels: self.channels,
        }
    }
}

/// What `a=rtpmap` says, as a codec.
pub trait ToCodecSpec {
    /// The codec that is meant, in this format: G.722 at 16,000 Hz, its one channel not given (RFC 3551 4.5.2).
    fn to_codec_spec(&self, format: FormatParams) -> CodecSpec;
}

impl ToCodecSpec for RtpMap {
    fn to_codec_spec(&self, format: FormatParams) -> CodecSpec
        ensures { result ≡ spec_of_map self.now format }
    {
        if self.codec == Codec::G722 {
            return CodecSpec {
                codec: self.codec,
                clock_rate: Frequency::SIXTEEN_KHZ,
                channels: unless_one(self.channels),
                format,
            };
        }
        CodecSpec {
            codec: self.codec,
            clock_rate: self.clock_rate,
            channels: self.channels,
            format,
        }
    }
}

//! A row's payload format, as streams use it.

ghost use Rattle.std.specs.Prelude.{◌≡◌};
ghost use Rattle.rtp_media_streams.specs.Rows.{rtp_rate_of};

use media_types::Codec;
use rtp_wire::Frequency;

/// What a row says of a stream's payloads: its codec and clock rate, and the parameters that change the
/// layout of payloads.
#[derive(Clone, Copy, Drop)]
pub struct RowFormat {
    /// The codec.
    pub codec: Codec,
    /// The clock rate of samples, in ticks a second.
    pub clock_rate: Frequency,
    /// AMR-WB's layout (RFC 4867 8.1); absent means the bandwidth-efficient one.
    pub octet_align: Option<bool>,
    /// The greatest difference of decoding order numbers in H.265 and H.266 (RFC 7798 7.1, RFC 9328 7.2);
    /// absent means 0, and no such numbers.
    pub sprop_max_don_diff: Option<u16>,
}

/// The clock rate of a codec's RTP timestamps: G.722 is sampled at 16,000 Hz and counted at 8,000 Hz
/// (RFC 3551 4.5.2).
pub fn rtp_rate_of(codec: Codec, clock_rate: Frequency) -> Frequency
    ensures { result ≡ rtp_rate_of codec clock_rate }
{
    match codec {
        Codec::G722 => Frequency::EIGHT_KHZ,
        _ => clock_rate,
    }
}

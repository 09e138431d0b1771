//! Rows in the shape that crosses to C.

ghost use Rattle.std.specs.Prelude.{◌≡◌};
ghost use Rattle.jilqamur.specs.DraftedRows.{row_of, sampled_at};

use crate::values::if_given;
use media_types::Codec;
use rtp_wire::{Frequency, Pt};
use sdp_formats_rows::{CodecSpec, FormatParams, PayloadParams};

/// The numbers of a row: a payload type and what it stands for.
#[repr(C)]
#[derive(Clone, Copy, Drop)]
pub struct WireRow {
    /// The payload type.
    pub payload_type: u8,
    /// Whether it is retransmitted (RFC 4588).
    pub has_resend: bool,
    /// The RTX payload type; ignored unless `has_resend`.
    pub resend: u8,
    /// Whether it has redundancy (RFC 2198).
    pub has_red: bool,
    /// The RED payload type; ignored unless `has_red`.
    pub red: u8,
    /// Ticks a second, at least 1; of G.722 16,000, which may also be given as texts say it, 8,000 (RFC 3551 4.5.2).
    pub clock_rate: u32,
    /// Whether the row names its channels.
    pub has_channels: bool,
    /// The number of channels; ignored unless `has_channels`.
    pub channels: u8,
}

/// The clock rate of a codec whose texts say this one.
fn sampled_at(codec: Codec, rate: Frequency) -> Frequency
    ensures { result ≡ sampled_at codec rate }
{
    if codec == Codec::G722 && rate == Frequency::EIGHT_KHZ {
        return Frequency::SIXTEEN_KHZ;
    }
    rate
}

/// The row of these fields, codec name and format.
pub(crate) fn row_of(
    row: &WireRow,
    clock_rate: Frequency,
    codec: &str,
    format: &str,
) -> PayloadParams
    requires { clock_rate ≡ row.now.clock_rate }
    ensures { result ≡ row_of row.now codec.now format.now }
{
    let codec = Codec::from(codec);
    let spec = CodecSpec {
        codec,
        clock_rate: sampled_at(codec, clock_rate),
        channels: if_given(row.has_channels, row.channels),
        format: FormatParams::parse_line(format),
    };
    let resend = if_given(row.has_resend, row.resend).map(Pt::from);
    let params = PayloadParams::new(Pt::from(row.payload_type), resend, spec);
    match if_given(row.has_red, row.red) {
        Some(red) => params.with_red(Pt::from(red)),
        None => params,
    }
}

//! What the words of a line say: none if one is missing, or isn't what has to be there.

use sdp_formats::{Codec, CodecSpec, FormatParams, Frequency, PayloadParams, Pt};

/// A number of 8 bits.
pub(crate) fn number_of(word: &str) -> Option<u8> {
    word.parse::<u8>().ok()
}

/// A number, or none at a dash.
fn maybe_number(word: &str) -> Option<Option<u8>> {
    match word {
        "-" => Some(None),
        word => Some(Some(number_of(word)?)),
    }
}

/// A payload type.
pub(crate) fn type_of(word: &str) -> Option<Pt> {
    Some(Pt::new_with_value(number_of(word)?))
}

/// A payload type, or none at a dash.
pub(crate) fn maybe_type(word: &str) -> Option<Option<Pt>> {
    match word {
        "-" => Some(None),
        word => Some(Some(type_of(word)?)),
    }
}

/// A codec at the front: its name, clock rate, channels and format.
pub(crate) fn spec_of(words: &[&str]) -> Option<CodecSpec> {
    let [codec, clock_rate, channels, format, ..] = words else {
        return None;
    };
    Some(CodecSpec {
        codec: Codec::from(*codec),
        clock_rate: Frequency::new(clock_rate.parse::<u32>().ok()?)?,
        channels: maybe_number(channels)?,
        format: format_of(format),
    })
}

/// The format that a text gives, none at a dash.
fn format_of(word: &str) -> FormatParams {
    match word {
        "-" => FormatParams::default(),
        word => FormatParams::parse_line(word),
    }
}

/// A row at the front: its types, whether it uses transport-wide feedback, and its codec.
pub(crate) fn row_of(words: &[&str]) -> Option<PayloadParams> {
    let [pt, resend, red, transport_cc, spec @ ..] = words else {
        return None;
    };
    let (pt, resend, red) = (type_of(pt)?, maybe_type(resend)?, maybe_type(red)?);
    let row = PayloadParams::new(pt, resend, spec_of(spec)?);
    let mut row = row.with_types(pt, resend, red);
    row.set_fb_transport_cc(*transport_cc == "cc");
    Some(row)
}

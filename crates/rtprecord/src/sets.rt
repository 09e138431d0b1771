//! Parameter sets of H.264, H.265 and H.266.

use h26x_payload::Codec;

// How many bytes a set has at most: a file of several streams has two bytes for its length.
const MOST_BYTES: usize = 65535;

/// The kinds of parameter sets.
#[derive(Clone, Copy, PartialEq, Eq)]
pub(crate) enum Kind {
    Video,
    Sequence,
    Picture,
    /// What H.264 has beside them of sequences: extensions, and sets of layers.
    Extension,
    Other,
}

/// The kind of a NAL unit (H.264 7.4.1, H.265 7.4.2.2, H.266 7.4.2.2).
pub(crate) fn kind_of(codec: Codec, nal: &[u8]) -> Kind {
    let (Some(first), Some(second)) = (nal.first(), nal.get(1)) else {
        return Kind::Other;
    };
    if nal.len() > MOST_BYTES {
        return Kind::Other;
    }
    let number = match codec {
        Codec::H264 => *first % 32,
        Codec::H265 => *first / 2 % 64,
        _ => *second / 8,
    };
    match (codec, number) {
        (Codec::H265, 32) | (Codec::H266, 14) => Kind::Video,
        (Codec::H264, 7) | (Codec::H265, 33) | (Codec::H266, 15) => Kind::Sequence,
        (Codec::H264, 8) | (Codec::H265, 34) | (Codec::H266, 16) => Kind::Picture,
        (Codec::H264, 13 | 15) => Kind::Extension,
        _ => Kind::Other,
    }
}

/// Whether three bytes of a unit are kept for start codes, so that a byte stream can't have it (H.264 7.4.1).
fn breaks_stream(unit: &[u8]) -> bool {
    unit.windows(3)
        .any(|bytes| matches!(bytes, [0, 0, third] if *third < 3))
}

/// Whether a unit is a parameter set that a byte stream can have.
pub(crate) fn is_set(codec: Codec, unit: &[u8]) -> bool {
    kind_of(codec, unit) != Kind::Other && !breaks_stream(unit)
}

//! Payload formats as C programs name them.

ghost use Rattle.std.specs.Prelude.{◌≡◌, ◌≢◌, true, IfOk, IfErr, OnOk};
ghost use Rattle.h26x_payload.specs.Codings.{has_format};
ghost use Rattle.jilqamur.specs.Codes.{ok};
ghost use Rattle.jilqamur.specs.Formats.{format_named, format_outcome};

use crate::codes;
use crate::copying::text_in;
use crate::values::if_given;
use h26x_payload::has_format;
use media_types::Codec;
use rtp_media_streams::RowFormat;
use rtp_wire::Frequency;

/// How payloads are read and written, beside their codec.
#[repr(C)]
#[derive(Clone, Copy, Drop)]
pub struct WireFormat {
    /// Ticks a second, at least 1.
    pub clock_rate: u32,
    /// Whether `octet_align` is given.
    pub has_octet_align: bool,
    /// Whether AMR-WB is octet-aligned (RFC 4867 8.1); not looked at where it isn't given.
    pub octet_align: bool,
    /// Whether `max_don_diff` is given.
    pub has_max_don_diff: bool,
    /// `sprop-max-don-diff` of H.265 and H.266 (RFC 7798 7.1, RFC 9328 7.2); not looked at where it isn't given.
    pub max_don_diff: u16,
}

/// The format of the codec of this name; else `OUT_OF_RANGE` for a clock rate of 0, `NOT_TEXT`, or `OUT_OF_RANGE` for a
/// name that is none of a codec with a payload format.
///
/// # Errors
///
/// The first that holds of `OUT_OF_RANGE` for a clock rate of 0, `NOT_TEXT`, and `OUT_OF_RANGE` for a name.
pub fn read_format(format: &WireFormat, codec: &[u8]) -> Result<RowFormat, u32>
    ensures format { IfOk result (λ read. read ≡ format_named format.now codec.now) }
    ensures codec { IfOk result (λ read. has_format read.codec ≡ true) }
    ensures accepted { OnOk result (format_outcome format.now codec.now ≡ ok) }
    ensures refused { IfErr result (λ code. code ≡ format_outcome format.now codec.now) }
    ensures refusal { IfErr result (λ code. code ≢ ok) }
{
    let Some(clock_rate) = Frequency::new(format.clock_rate) else {
        return Err(codes::OUT_OF_RANGE);
    };
    let Some(codec) = text_in(codec) else {
        return Err(codes::NOT_TEXT);
    };
    let codec = Codec::from(codec);
    if !has_format(codec) {
        return Err(codes::OUT_OF_RANGE);
    }
    Ok(RowFormat {
        codec,
        clock_rate,
        octet_align: if_given(format.has_octet_align, format.octet_align),
        sprop_max_don_diff: if_given(format.has_max_don_diff, format.max_don_diff),
    })
}

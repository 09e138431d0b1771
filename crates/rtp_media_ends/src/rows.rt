//! What a row says of a stream.

ghost use Rattle.std.specs.Prelude.{◌≡◌, ◌<◌, ◌&&◌, nat_le, IfSome};
ghost use Rattle.h26x_payload.specs.Codings.{has_format};
ghost use Rattle.rtp_media_ends.specs.Ends.{is_carried, is_red_of, key_of, row_format_of, types_by};
ghost use Rattle.rtp_media_ends.specs.Repairs.{IsKeyBeside};

use h26x_payload::has_format;
use rtp_media_streams::{PayloadTypes, RepairKey, RowFormat};
use rtp_wire::{Pt, Ssrc};
use sdp_formats_rows::PayloadParams;

/// The SSRC and payload type of a stream's retransmissions (RFC 4588 8.1 and 8.3): the RTX SSRC, if
/// it differs from the stream's, and the row's RTX type, if it is below 128.
fn key_of(ssrc: Ssrc, pt: Option<Pt>, repair: Option<Ssrc>) -> Option<RepairKey>
    ensures value { result ≡ key_of ssrc pt repair }
    ensures beside { IsKeyBeside ssrc result }
    ensures repairs { IfSome result (λ key. key.pt < 128) }
{
    let (Some(pt), Some(repair)) = (pt, repair) else {
        return None;
    };
    if pt.get() <= 127 && repair.get() != ssrc.get() {
        return Some(RepairKey { ssrc: repair, pt });
    }
    None
}

/// The payload types of a row's stream under an SSRC, whose sender repairs it under another one.
pub(crate) fn types_of(row: &PayloadParams, ssrc: Ssrc, repair: Option<Ssrc>) -> PayloadTypes
    ensures value { result ≡ types_by row.now ssrc repair }
    ensures beside { IsKeyBeside ssrc result.repair }
    ensures repairs { IfSome result.repair (λ key. key.pt < 128) }
{
    PayloadTypes {
        pt: row.pt(),
        red: row.red(),
        repair: key_of(ssrc, row.resend(), repair),
    }
}

/// A row's payload format.
pub(crate) fn row_format_of(row: &PayloadParams) -> RowFormat
    ensures { result ≡ row_format_of row.now }
{
    let spec = row.spec();
    RowFormat {
        codec: spec.codec,
        clock_rate: spec.clock_rate,
        octet_align: spec.format.octet_align,
        sprop_max_don_diff: spec.format.sprop_max_don_diff,
    }
}

/// A RED type is below 128, and isn't the row's own type.
fn is_red_of(pt: Pt, red: Option<Pt>) -> bool
    ensures { result ≡ is_red_of pt red }
{
    match red {
        None => true,
        Some(red) => red.get() <= 127 && red.get() != pt.get(),
    }
}

/// Whether a row's codec has a payload format, and its type 7 bits.
pub(crate) fn has_payload(row: &PayloadParams) -> bool
    ensures { result ≡ (has_format row.now.spec.codec && nat_le row.now.pt 127) }
{
    has_format(row.spec().codec) && row.pt().get() <= 127
}

/// Whether a stream can carry a row: its codec has a payload format, and its payload types are
/// below 128 and distinct.
pub(crate) fn is_carried(row: &PayloadParams) -> bool
    ensures { result ≡ is_carried row.now }
{
    has_format(row.spec().codec) && row.pt().get() <= 127 && is_red_of(row.pt(), row.red())
}

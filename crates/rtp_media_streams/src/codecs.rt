//! Packetizers and depacketizers of rows.

ghost use Rattle.std.specs.Prelude.{◌≡◌, ◌<◌, None, false, is_some, true, unwrap_or};
ghost use Rattle.std.specs.List.{Contains};
ghost use Rattle.h26x_payload.specs.Codings.{has_format};
ghost use Rattle.h26x_payload.specs.Packetizers.{codecs_of};
ghost use Rattle.rtp_media_streams.specs.Rows.{first_state, format_of, packing_of};

use crate::row_format::RowFormat;
use h26x_payload::{CodecDepacketizer, CodecPacketizer, NotBoxed};
use payload_core_base::{Depacketizer, Packetizer};
use std::alloc::Global;

/// The packetizer of a row, with picture ids from this one on or without, and in the forms for browsers or the
/// plain ones.
///
/// # Conditions
///
/// The codec has a payload format, and the picture id is below 32,768.
pub fn packetizer_for(
    row: &RowFormat,
    picture_id: Option<u16>,
    for_browsers: bool,
) -> CodecPacketizer<NotBoxed>
    requires codec { has_format row.now.codec ≡ true }
    requires picture_id { unwrap_or picture_id 0 < 32768 }
    ensures packing { ⟦<CodecPacketizer<NotBoxed> as Packetizer>⟧.packing result
        ≡ packing_of row.now (is_some picture_id) for_browsers }
    ensures sender { ⟦<CodecPacketizer<NotBoxed> as Packetizer>⟧.sender result ≡ first_state row.now picture_id }
{
    let packetizer = plain_packetizer_for(row, picture_id);
    if for_browsers {
        packetizer.with_zero_id().with_prediction()
    } else {
        packetizer
    }
}

/// The packetizer of a row in the plain forms.
fn plain_packetizer_for(row: &RowFormat, picture_id: Option<u16>) -> CodecPacketizer<NotBoxed>
    requires codec { has_format row.now.codec ≡ true }
    requires picture_id { unwrap_or picture_id 0 < 32768 }
    ensures variant { Contains (codecs_of result) row.now.codec }
    ensures packing { ⟦<CodecPacketizer<NotBoxed> as Packetizer>⟧.packing result
        ≡ packing_of row.now (is_some picture_id) false }
    ensures sender { ⟦<CodecPacketizer<NotBoxed> as Packetizer>⟧.sender result ≡ first_state row.now picture_id }
{
    let mut packetizer = CodecPacketizer::with_picture_id(row.codec, picture_id).unwrap();
    packetizer.configure_for(row.octet_align, row.sprop_max_don_diff, row.clock_rate);
    packetizer
}

/// The depacketizer of a row, with no fragment open.
///
/// # Conditions
///
/// The codec has a payload format.
pub fn depacketizer_for(alloc: Global, row: &RowFormat) -> CodecDepacketizer<NotBoxed>
    requires { has_format row.now.codec ≡ true }
    ensures format { ⟦<CodecDepacketizer<NotBoxed> as Depacketizer>⟧.format result ≡ format_of row.now }
    ensures closed { ⟦<CodecDepacketizer<NotBoxed> as Depacketizer>⟧.fragment result ≡ None }
{
    let mut depacketizer = CodecDepacketizer::new(alloc, row.codec).unwrap();
    depacketizer.configure_for(row.octet_align, row.sprop_max_don_diff, row.clock_rate);
    depacketizer
}

//! What rows mean to streams.

ghost use Rattle.std.specs.Prelude.{◌≡◌, ◌&&◌};
ghost use Rattle.sdp_formats_rows.specs.Same.{same};
ghost use Rattle.rtp_media_sections.specs.Agreement.{has_alike, means_same, own_row_agrees, same_codec, same_layout};

use rtp_wire::Pt;
use sdp_formats_rows::{
    CodecSpec, FormatParams, PayloadParams, same_byte, same_flag, same_half_word,
};

fn same_type(a: Option<Pt>, b: Option<Pt>) -> bool
    ensures { result ≡ same a b }
{
    a == b
}

fn same_codec(a: &CodecSpec, b: &CodecSpec) -> bool
    ensures { result ≡ same_codec a.now b.now }
{
    a.codec == b.codec
        && a.clock_rate.get() == b.clock_rate.get()
        && same_byte(a.channels, b.channels)
}

fn same_layout(a: &FormatParams, b: &FormatParams) -> bool
    ensures { result ≡ same_layout a.now b.now }
{
    same_flag(a.octet_align, b.octet_align)
        && same_half_word(a.sprop_max_don_diff, b.sprop_max_don_diff)
}

/// Whether two rows have the same payloads.
fn is_alike(own: &PayloadParams, row: &PayloadParams) -> bool
    ensures { result ≡ (same_codec own.now.spec row.now.spec && same_layout own.now.spec.format row.now.spec.format) }
{
    same_codec(&own.spec(), &row.spec()) && same_layout(&own.spec().format, &row.spec().format)
}

/// Whether two rows mean the same to a stream.
fn means_same(own: &PayloadParams, row: &PayloadParams) -> bool
    ensures { result ≡ means_same own.now row.now }
{
    same_codec(&own.spec(), &row.spec())
        && same_layout(&own.spec().format, &row.spec().format)
        && same_type(own.red(), row.red())
}

/// Whether one of an end's own rows is locked at the type of an agreed one and means the same to a stream: codec, clock
/// rate, channels, layout of payloads and RED type.
#[tactic(auto, unfolding(crate::specs::Agreement::own_row_agrees))]
pub fn own_row_agrees(own: &[PayloadParams], row: &PayloadParams) -> bool
    ensures { result ≡ own_row_agrees own.now row.now }
{
    own.iter().any(|r| r.is_locked() && r.pt().get() == row.pt().get() && means_same(r, row))
}

/// Whether an end has a row under some type: one of its own locked rows has the same codec, clock rate, channels and
/// layout of payloads.
#[tactic(auto, unfolding(crate::specs::Agreement::has_alike))]
pub(crate) fn has_alike(own: &[PayloadParams], row: &PayloadParams) -> bool
    ensures { result ≡ has_alike own.now row.now }
{
    own.iter().any(|r| r.is_locked() && is_alike(r, row))
}

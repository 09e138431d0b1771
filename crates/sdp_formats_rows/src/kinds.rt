//! Rows of a kind of media.

ghost use Rattle.std.specs.Prelude.{◌≡◌, IfOk};
ghost use Rattle.sdp_formats_rows.specs.Kinds.{has_events, is_of_kind, matches_clock, rows_of_kind};

use crate::row::PayloadParams;
use media_types::MediaKind;
use std::alloc::{AllocError, Global};

/// Whether an audio row has the clock rate of these telephone events.
fn matches_clock(rows: &[PayloadParams], events: &PayloadParams) -> bool
    ensures { result ≡ matches_clock rows.now events.now }
{
    let rate = events.spec().rtp_clock_rate().get();
    rows.iter().any(|row| row.spec().codec.is_audio() && row.spec().rtp_clock_rate().get() == rate)
}

fn has_events(rows: &[PayloadParams]) -> bool
    ensures { result ≡ has_events rows.now }
{
    rows.iter().any(|row| row.spec().codec.is_tele() && matches_clock(rows, row))
}

#[tactic(auto, unfolding(crate::specs::Kinds::is_of_kind))]
fn is_of_kind(
    kind: MediaKind,
    for_new_offer: bool,
    are_events: bool,
    rows: &[PayloadParams],
    row: &PayloadParams,
) -> bool
    requires { are_events ≡ has_events rows.now }
    ensures { result ≡ is_of_kind kind for_new_offer rows.now row.now }
{
    let codec = row.spec().codec;
    match kind {
        MediaKind::Video => codec.is_video(),
        MediaKind::Audio => {
            codec.is_audio()
                || codec.is_tele() && (!for_new_offer || !are_events || matches_clock(rows, row))
        }
    }
}

/// The rows of a kind of media, in order: video codecs, or audio codecs and telephone events. For a new offer telephone
/// events count only at the clock rate of an audio row, if there are such ones.
///
/// # Errors
///
/// `AllocError` if memory runs out.
pub fn rows_of_kind(
    alloc: Global,
    kind: MediaKind,
    for_new_offer: bool,
    rows: &[PayloadParams],
) -> Result<Vec<PayloadParams>, AllocError>
    ensures { IfOk result (λ kept. kept.items ≡ rows_of_kind kind for_new_offer rows.now) }
{
    let mut kept = Vec::new(alloc);
    let are_events = has_events(rows);
    for row in rows {
        if is_of_kind(kind, for_new_offer, are_events, rows, row) {
            kept.push(*row)?;
        }
    }
    Ok(kept)
}

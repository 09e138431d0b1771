//! What an answer says.

ghost use Rattle.std.specs.Prelude.{◌≡◌, ◌==◌, ◌&&◌, find, fold, IfOk, OnOk};
ghost use Rattle.rtp_wire.specs.Direction.{receives};
ghost use Rattle.rtp_media_sections.specs.Answered.{answered_direction, answered_rows, answered_section, flow};
ghost use Rattle.rtp_media_sections.specs.Answered.{has_pt};
ghost use Rattle.rtp_media_sections.specs.Answered.{locked_row, row_answering, rows_answering, with_once};

use crate::extmaps::answered_extmaps;
use crate::offered::sources_wanted;
use crate::sections::Section;
use crate::wanted::SectionSpec;
use rtp_wire::{Direction, ExtensionMap, Pt};
use sdp_formats_rounds::CodecConfig;
use sdp_formats_rows::PayloadParams;
use std::alloc::{AllocError, Global};

/// The direction that sends and receives so.
pub fn flow(sends: bool, receives: bool) -> Direction
    ensures { result ≡ flow sends receives }
{
    match (sends, receives) {
        (true, true) => Direction::SendRecv,
        (true, false) => Direction::SendOnly,
        (false, true) => Direction::RecvOnly,
        (false, false) => Direction::Inactive,
    }
}

/// The direction of an answer (RFC 3264 6.1).
fn answered_direction(offered: Direction, wanted: Direction) -> Direction
    ensures { result ≡ answered_direction offered wanted }
{
    flow(
        wanted.is_sending() && offered.is_receiving(),
        wanted.is_receiving() && offered.is_sending(),
    )
}

fn locked_at(rows: &[PayloadParams], pt: Pt) -> Option<PayloadParams>
    ensures { result ≡ find (λ row. row.locked && (row.pt == pt)) rows.now }
{
    rows.iter()
        .copied()
        .find(|row| row.is_locked() && row.pt().get() == pt.get())
}

/// The locked row of a type, if there is one.
fn locked_row(rows: &[PayloadParams], pt: Option<Pt>) -> Option<PayloadParams>
    ensures { result ≡ locked_row rows.now pt }
{
    match pt {
        Some(pt) => locked_at(rows, pt),
        None => None,
    }
}

fn has_pt(rows: &[PayloadParams], pt: Pt) -> bool
    ensures { result ≡ has_pt rows.now pt }
{
    rows.iter().any(|row| row.pt().get() == pt.get())
}

#[tactic(auto, unfolding(crate::specs::Answered::with_once))]
fn push_once(rows: &mut Vec<PayloadParams>, row: &PayloadParams) -> Result<(), AllocError>
    ensures { OnOk result (rows.new.items ≡ with_once rows.old.items row.now) }
{
    if !has_pt(rows.as_slice(), row.pt()) {
        rows.push(*row)?;
    }
    Ok(())
}

/// Puts the row under whose type an offered one is used after the others, unless it is there.
#[tactic(auto, unfolding(crate::specs::Answered::row_answering))]
fn push_answering(
    rows: &mut Vec<PayloadParams>,
    config: &CodecConfig,
    dir: Direction,
    offered: &PayloadParams,
) -> Result<(), AllocError>
    ensures { OnOk result (rows.new.items
        ≡ fold with_once rows.old.items (row_answering config.now.rows (receives dir) offered.now)) }
{
    match locked_row(config.params(), config.sdp_match_remote(*offered, dir)) {
        Some(row) => push_once(rows, &row),
        None => Ok(()),
    }
}

fn rows_answering(
    alloc: Global,
    config: &CodecConfig,
    dir: Direction,
    offered: &[PayloadParams],
) -> Result<Vec<PayloadParams>, AllocError>
    ensures { IfOk result (λ rows. rows.items ≡ rows_answering config.now.rows (receives dir) offered.now) }
{
    let mut rows = Vec::new(alloc);
    for row in offered {
        push_answering(&mut rows, config, dir, row)?;
    }
    Ok(rows)
}

/// The rows of the answer to an offered section: in the offered order, each once, the locked rows
/// whose payload types are used for the offered rows (RFC 3264 6.1).
fn answered_rows(
    alloc: Global,
    config: &CodecConfig,
    offer: &Section,
) -> Result<Vec<PayloadParams>, AllocError>
    ensures { IfOk result (λ rows. rows.items ≡ answered_rows config.now.rows offer.now) }
{
    rows_answering(alloc, config, offer.dir, offer.rows.as_slice())
}

/// The section that answers an offered one: with the rows that answer the offered ones, after the round.
///
/// # Errors
///
/// `AllocError` if memory runs out.
#[tactic(auto, unfolding(crate::specs::Answered::answered_section))]
pub fn answered_section(
    alloc: Global,
    exts: &ExtensionMap,
    config: &CodecConfig,
    wanted: &SectionSpec,
    offer: &Section,
) -> Result<Section, AllocError>
    ensures { IfOk result (λ s. s ≡ answered_section exts.now config.now.rows wanted.now offer.now) }
{
    Ok(Section {
        mid: wanted.mid,
        kind: wanted.kind,
        is_media: true,
        dir: answered_direction(offer.dir, wanted.dir),
        rows: answered_rows(alloc, config, offer)?,
        extmaps: answered_extmaps(alloc, exts, offer.extmaps.as_slice())?,
        sources: sources_wanted(alloc, wanted)?,
    })
}

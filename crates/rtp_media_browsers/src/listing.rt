//! What a section of an answer lists.

ghost use Rattle.std.specs.Prelude.{◌≡◌, ◌++◌, IfOk, OnOk, filter, find};
ghost use Rattle.std.specs.Option.{option_copied};
ghost use Rattle.rtp_media_sections.specs.Answered.{has_pt};
ghost use Rattle.rtp_media_browsers.specs.Listing.{both_give, fits, gives_feedback, has_feedback, is_listed};
ghost use Rattle.rtp_media_browsers.specs.Listing.{is_of_source};
ghost use Rattle.rtp_media_browsers.specs.Listing.{is_other, is_other_type, is_same_type, linked_type, listed_for};
ghost use Rattle.rtp_media_browsers.specs.Listing.{listed_row, row_for, row_listed, rows_among, rows_listed};
ghost use Rattle.rtp_media_browsers.specs.Listing.{with_offered};
ghost use Rattle.rtp_media_browsers.specs.Listing.{with_rows};

use crate::following::{is_of_type, section_named};
use crate::said_lines::push_rows;
use crate::with_transport::is_mid;
use rtp_media_sections::{mid_of, types_listed};
use rtp_wire::Pt;
use sdp_formats_data::{MediaAttribute, MediaLine};
use sdp_formats_grammar::{Listed, stripped};
use sdp_formats_rows::PayloadParams;
use sdp_formats_section_rows::RtpParams;
use std::alloc::{AllocError, Global};
use std::mem;

fn is_listed(types: &[Pt], pt: Pt) -> bool
    ensures { result ≡ is_listed types.now pt }
{
    types.iter().any(|other| other.get() == pt.get())
}

/// Whether an attribute gives a payload type this feedback, or all types of its section.
#[tactic(auto, unfolding(crate::specs::Listing::gives_feedback))]
fn gives_feedback(pt: Pt, words: &str, attribute: &MediaAttribute) -> bool
    ensures { result ≡ gives_feedback pt words.now attribute.now }
{
    match attribute {
        MediaAttribute::RtcpFb { pt: other, value } => {
            other.get() == pt.get() && value.as_str() == words
        }
        MediaAttribute::Unused(text) => match stripped(text.as_str(), "rtcp-fb:* ") {
            Some(text) => text == words,
            None => false,
        },
        _ => false,
    }
}

fn has_feedback(section: &MediaLine, pt: Pt, words: &str) -> bool
    ensures { result ≡ has_feedback section.now pt words.now }
{
    section
        .attrs
        .as_slice()
        .iter()
        .any(|attribute| gives_feedback(pt, words, attribute))
}

/// Whether both sections give their types this feedback.
fn both_give(
    offered: &MediaLine,
    offered_row: &PayloadParams,
    own: &MediaLine,
    own_row: &PayloadParams,
    words: &str,
) -> bool
    ensures { result ≡ both_give offered.now offered_row.now own.now own_row.now words.now }
{
    has_feedback(offered, offered_row.pt(), words) && has_feedback(own, own_row.pt(), words)
}

/// The offered type of retransmissions, or of redundancy, if the end has one too.
fn linked_type(types: &[Pt], offered: Option<Pt>, own: Option<Pt>) -> Option<Pt>
    ensures { result ≡ linked_type types.now offered own }
{
    let pt = offered?;
    let _own = own?;
    if !is_listed(types, pt) {
        return None;
    }
    Some(pt)
}

/// The end's row as the section that offers it says it.
fn listed_row(
    offered: &MediaLine,
    own: &MediaLine,
    offered_row: &PayloadParams,
    own_row: &PayloadParams,
) -> PayloadParams
    ensures { result ≡ listed_row offered.now own.now offered_row.now own_row.now }
{
    let types = offered.pts.as_slice();
    let mut row = own_row.with_types(
        offered_row.pt(),
        linked_type(types, offered_row.resend(), own_row.resend()),
        linked_type(types, offered_row.red(), own_row.red()),
    );
    row.set_fb_transport_cc(both_give(offered, offered_row, own, own_row, "transport-cc"));
    row.set_fb_nack(both_give(offered, offered_row, own, own_row, "nack"));
    row.set_fb_pli(both_give(offered, offered_row, own, own_row, "nack pli"));
    row.set_fb_fir(both_give(offered, offered_row, own, own_row, "ccm fir"));
    row.set_fb_remb(both_give(offered, offered_row, own, own_row, "goog-remb"));
    row
}

fn fits(offered: &PayloadParams, own: &PayloadParams) -> bool
    ensures { result ≡ fits offered.now own.now }
{
    offered.match_score(own).is_some()
}

fn is_same_type(offered: &PayloadParams, own: &PayloadParams) -> bool
    ensures { result ≡ is_same_type offered.now own.now }
{
    own.pt().get() == offered.pt().get() && fits(offered, own)
}

fn has_pt(rows: &[PayloadParams], pt: Pt) -> bool
    ensures { result ≡ has_pt rows.now pt }
{
    rows.iter().any(|row| row.pt().get() == pt.get())
}

fn is_other_type(rows: &[PayloadParams], offered: &PayloadParams, own: &PayloadParams) -> bool
    ensures { result ≡ is_other_type rows.now offered.now own.now }
{
    !has_pt(rows, own.pt()) && fits(offered, own)
}

fn same_type(own: &[PayloadParams], offered: &PayloadParams) -> Option<PayloadParams>
    ensures { result ≡ find (is_same_type offered.now) own.now }
{
    own.iter().copied().find(|row| is_same_type(offered, row))
}

fn other_type(
    rows: &[PayloadParams],
    own: &[PayloadParams],
    offered: &PayloadParams,
) -> Option<PayloadParams>
    ensures { result ≡ find (is_other_type rows.now offered.now) own.now }
{
    own.iter()
        .copied()
        .find(|row| is_other_type(rows, offered, row))
}

/// The end's row for an offered one: that of its type, or else one under a number of another section.
fn row_for(
    rows: &[PayloadParams],
    own: &[PayloadParams],
    offered: &PayloadParams,
) -> Option<PayloadParams>
    ensures { result ≡ row_for rows.now own.now offered.now }
{
    match same_type(own, offered) {
        Some(row) => Some(row),
        None => other_type(rows, own, offered),
    }
}

/// Adds the row that the answer lists for an offered one, if there is one.
#[tactic(auto, unfolding(crate::specs::Listing::row_listed))]
fn push_listed(
    offered: &MediaLine,
    own: &MediaLine,
    rows: &[PayloadParams],
    own_rows: &[PayloadParams],
    row: &PayloadParams,
    listed: &mut Vec<PayloadParams>,
) -> Result<(), AllocError>
    ensures { OnOk result (listed.new.items
        ≡ listed.old.items ++ row_listed offered.now own.now rows.now own_rows.now row.now) }
{
    if !is_listed(offered.pts.as_slice(), row.pt()) {
        return Ok(());
    }
    if let Some(own_row) = row_for(rows, own_rows, row) {
        listed.push(listed_row(offered, own, row, &own_row))?;
    }
    Ok(())
}

/// The rows that the answer lists, given those of the offered section and those of the end's.
fn rows_among(
    alloc: Global,
    offered: &MediaLine,
    own: &MediaLine,
    rows: &[PayloadParams],
    own_rows: &[PayloadParams],
) -> Result<Vec<PayloadParams>, AllocError>
    ensures { IfOk result (λ listed. listed.items ≡ rows_among offered.now own.now rows.now own_rows.now) }
{
    let mut listed = Vec::new(alloc);
    for row in rows {
        push_listed(offered, own, rows, own_rows, row, &mut listed)?;
    }
    Ok(listed)
}

/// The rows that the answer lists.
fn rows_listed(
    alloc: Global,
    offered: &MediaLine,
    own: &MediaLine,
) -> Result<Vec<PayloadParams>, AllocError>
    ensures { IfOk result (λ rows. rows.items ≡ rows_listed offered.now own.now) }
{
    let rows = offered.rtp_params(alloc)?;
    let own_rows = own.rtp_params(alloc)?;
    rows_among(alloc, offered, own, rows.as_slice(), own_rows.as_slice())
}

/// Whether it is a line of a source.
#[tactic(auto, unfolding(crate::specs::Listing::is_of_source))]
fn is_of_source(attribute: &MediaAttribute) -> bool
    ensures { result ≡ is_of_source attribute.now }
{
    matches!(
        attribute,
        MediaAttribute::Ssrc { .. } | MediaAttribute::SsrcGroup { .. }
    )
}

/// Whether a line says neither the name of the section, nor a type, nor a source.
fn is_other(attribute: &MediaAttribute) -> bool
    ensures { result ≡ is_other attribute.now }
{
    !is_mid(attribute) && !is_of_type(attribute) && !is_of_source(attribute)
}

/// The other lines, and those of sources.
fn parted(
    alloc: Global,
    attributes: Vec<MediaAttribute>,
) -> Result<(Vec<MediaAttribute>, Vec<MediaAttribute>), AllocError>
    ensures others { IfOk result (λ p. p.0.items ≡ filter is_other attributes.items) }
    ensures sources { IfOk result (λ p. p.1.items ≡ filter is_of_source attributes.items) }
{
    let mut others = Vec::new(alloc);
    let mut sources = Vec::new(alloc);
    for attribute in attributes {
        if is_of_source(&attribute) {
            sources.push(attribute)?;
        } else if is_other(&attribute) {
            others.push(attribute)?;
        }
    }
    Ok((others, sources))
}

/// Those of the types that are listed.
fn types_in_order(alloc: Global, types: &[Pt], order: &[Pt]) -> Result<Listed<Pt>, AllocError>
    ensures { IfOk result (λ l. l ≡ filter (is_listed types.now) order.now) }
{
    let mut ordered = Listed::new(alloc);
    for pt in order {
        if is_listed(types, *pt) {
            ordered.push(*pt)?;
        }
    }
    Ok(ordered)
}

/// A section with these rows, its types in this order.
#[tactic(auto, unfolding(crate::specs::Listing::with_rows))]
fn with_rows(
    alloc: Global,
    order: &[Pt],
    rows: &[PayloadParams],
    section: MediaLine,
) -> Result<MediaLine, AllocError>
    ensures { IfOk result (λ m. m ≡ with_rows order.now rows.now section) }
{
    let mut section = section;
    let types = types_listed(alloc, rows)?;
    let mut all = Vec::new(alloc);
    all.push(MediaAttribute::Mid(mid_of(&section)))?;
    let attrs = mem::replace(&mut section.attrs, Listed::new(alloc));
    let (mut others, mut sources) = parted(alloc, attrs.into_vec())?;
    all.append(&mut others)?;
    push_rows(alloc, rows, &mut all)?;
    all.append(&mut sources)?;
    section.attrs = Listed::of(all);
    section.pts = types_in_order(alloc, types.as_slice(), order)?;
    Ok(section)
}

/// A section of an answer, if this one was offered.
fn with_offered(
    alloc: Global,
    offered: Option<&MediaLine>,
    section: MediaLine,
) -> Result<MediaLine, AllocError>
    ensures { IfOk result (λ m. m ≡ with_offered (option_copied offered.entry) section) }
{
    let Some(offered) = offered else {
        return Ok(section);
    };
    let rows = rows_listed(alloc, offered, &section)?;
    with_rows(alloc, offered.pts.as_slice(), rows.as_slice(), section)
}

/// A section, in an answer with the types that were offered in it, as they were offered there.
pub(crate) fn listed_for(
    alloc: Global,
    is_answer: bool,
    olds: &[MediaLine],
    section: MediaLine,
) -> Result<MediaLine, AllocError>
    ensures { IfOk result (λ m. m ≡ listed_for is_answer olds.now section) }
{
    if !is_answer {
        return Ok(section);
    }
    let offered = section_named(olds, mid_of(&section));
    with_offered(alloc, offered, section)
}

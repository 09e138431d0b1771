//! Sections and sessions as an end reads them.

ghost use Rattle.std.specs.Prelude.{◌≡◌, IfOk, filter, map};
ghost use Rattle.rtp_media_browsers.specs.Following.{following};
ghost use Rattle.rtp_media_browsers.specs.ForEnds.{end_section, end_session, restricted, with_sections};
ghost use Rattle.rtp_media_browsers.specs.Lines.{stays, stays_in_session};
ghost use Rattle.rtp_media_browsers.specs.Names.{is_among};

use crate::following::following;
use crate::lines::{is_bundle_name, is_session_transport, stays};
use crate::names::mids_of;
use rtp_wire::Mid;
use sdp_formats_data::{MediaAttribute, MediaLine, NameSet, Sdp, Session, SessionAttribute};
use sdp_formats_grammar::Listed;
use sdp_formats_values::Bandwidth;
use std::alloc::{AllocError, Global};
use std::mem;

/// The attributes that a section keeps.
fn kept_attributes(closed: bool, attributes: Vec<MediaAttribute>) -> Listed<MediaAttribute>
    ensures { result ≡ filter (stays closed) attributes.items }
{
    let mut kept = attributes;
    kept.retain(|attribute| stays(closed, attribute));
    Listed::of(kept)
}

/// A section as an end reads it.
#[tactic(auto, unfolding(crate::specs::ForEnds::end_section))]
fn end_section(alloc: Global, section: MediaLine) -> MediaLine
    ensures { result ≡ end_section section }
{
    let mut section = section;
    let attrs = mem::replace(&mut section.attrs, Listed::new(alloc));
    section.attrs = kept_attributes(section.disabled, attrs.into_vec());
    section.disabled = false;
    section
}

/// Those of the names that are in the set.
fn names_among(alloc: Global, names: &NameSet<'_>, mids: &[Mid]) -> Result<Listed<Mid>, AllocError>
    ensures { IfOk result (λ l. l ≡ filter (is_among names.now) mids.now) }
{
    let kept = mids
        .iter()
        .copied()
        .filter(|mid| names.has(*mid))
        .collect(alloc)?;
    Ok(Listed::of(kept))
}

/// A session attribute; a BUNDLE group is restricted to these mids.
#[tactic(auto, unfolding(crate::specs::ForEnds::restricted))]
fn restricted(
    alloc: Global,
    names: &NameSet<'_>,
    attribute: &SessionAttribute,
) -> Result<SessionAttribute, AllocError>
    ensures { IfOk result (λ a. a ≡ restricted names.now attribute.now) }
{
    if let SessionAttribute::Group { typ, mids } = attribute {
        if is_bundle_name(typ) {
            return Ok(SessionAttribute::Group {
                typ: typ.clone(alloc)?,
                mids: names_among(alloc, names, mids.as_slice())?,
            });
        }
    }
    attribute.clone(alloc)
}

/// Copies of the attributes that stay in the session.
fn staying(
    alloc: Global,
    attributes: &Listed<SessionAttribute>,
) -> Result<Vec<SessionAttribute>, AllocError>
    ensures { IfOk result (λ v. v.items ≡ filter stays_in_session attributes.now) }
{
    let mut kept = SessionAttribute::clone_all(alloc, attributes.as_slice())?.into_vec();
    kept.retain(|attribute| !is_session_transport(attribute));
    Ok(kept)
}

/// The attributes of the session, of groups of meaning BUNDLE these names alone.
fn all_restricted(
    alloc: Global,
    names: &NameSet<'_>,
    attributes: &[SessionAttribute],
) -> Result<Listed<SessionAttribute>, AllocError>
    ensures { IfOk result (λ l. l ≡ map (restricted names.now) attributes.now) }
{
    let mut kept = Listed::new(alloc);
    for attribute in attributes {
        kept.push(restricted(alloc, names, attribute)?)?;
    }
    Ok(kept)
}

/// The session as an end reads it, with these mids in its BUNDLE group.
#[tactic(auto, unfolding(crate::specs::ForEnds::end_session))]
fn end_session(alloc: Global, names: &[Mid], session: &Session) -> Result<Session, AllocError>
    ensures { IfOk result (λ s. s ≡ end_session names.now session.now) }
{
    let names = NameSet::of(alloc, names)?;
    let attributes = staying(alloc, &session.attrs)?;
    Ok(Session {
        id: session.id,
        bw: Bandwidth::if_any(alloc, &session.bw)?,
        attrs: all_restricted(alloc, &names, attributes.as_slice())?,
    })
}

/// The sections as an end reads them.
fn end_sections(alloc: Global, sections: Vec<MediaLine>) -> Result<Listed<MediaLine>, AllocError>
    ensures { IfOk result (λ l. l ≡ map end_section sections.items) }
{
    let mut kept = Listed::new(alloc);
    for section in sections {
        kept.push(end_section(alloc, section))?;
    }
    Ok(kept)
}

/// A text of these sections, as an end reads it.
#[tactic(auto, unfolding(crate::specs::ForEnds::with_sections))]
fn with_sections(
    alloc: Global,
    session: &Session,
    sections: Listed<MediaLine>,
) -> Result<Sdp, AllocError>
    ensures { IfOk result (λ sdp. sdp ≡ with_sections session.now sections) }
{
    let names = mids_of(alloc, sections.as_slice())?;
    Ok(Sdp {
        session: end_session(alloc, names.as_slice(), session)?,
        media_lines: sections,
    })
}

/// The text of these sections of a browser's, as an end with old ones reads it.
pub(crate) fn of_sections(
    alloc: Global,
    session: &Session,
    olds: &[MediaLine],
    sections: Vec<MediaLine>,
) -> Result<Sdp, AllocError>
    ensures { IfOk result (λ sdp. sdp
        ≡ with_sections session.now (following olds.now (map end_section sections.items))) }
{
    let sections = end_sections(alloc, sections)?;
    let all = following(alloc, olds, sections.as_slice())?;
    with_sections(alloc, session, all)
}

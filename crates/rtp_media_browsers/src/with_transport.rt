//! Texts of an end with the transport's lines.

ghost use Rattle.std.specs.Prelude.{◌≡◌, ◌++◌, IfOk, OnOk, map};
ghost use Rattle.std.specs.List.{flat_map};
ghost use Rattle.sdp_formats_data.specs.Media.{is_mid};
ghost use Rattle.sdp_formats_data.specs.declared.media.MediaAttribute.TheVariants as line;
ghost use Rattle.rtp_media_browsers.specs.ForBrowsers.{bundled_as, attribute_with_transport, section_with_transport};
ghost use Rattle.rtp_media_browsers.specs.ForBrowsers.{session_with_transport};
ghost use Rattle.rtp_media_browsers.specs.ForBrowsers.{for_browser, is_in_use, names_in_use, shown, told_section};
ghost use Rattle.rtp_media_browsers.specs.ForBrowsers.{gathering_lines, lite_line, mixed_line, transport_lines};

use crate::identifying::identified;
use crate::lines::is_bundle_name;
use crate::listing::listed_for;
use crate::placing::placed;
use crate::state::BrowserState;
use crate::transport::{Gathering, Transport};
use rtp_media_sections::mid_of;
use rtp_wire::Mid;
use sdp_formats_data::{MediaAttribute, MediaLine, Sdp, Session, SessionAttribute};
use sdp_formats_grammar::{Listed, Text};
use sdp_formats_values::Candidate;
use std::alloc::{AllocError, Global};
use std::mem;

/// A text of these words.
fn words(alloc: Global, words: &str) -> Result<Text, AllocError>
    ensures { IfOk result (λ t. t ≡ words.now) }
{
    Ok(Text::of(String::from_str(alloc, words)?))
}

/// Adds the lines of candidates.
fn push_candidates(
    alloc: Global,
    candidates: &[Candidate],
    attributes: &mut Listed<MediaAttribute>,
) -> Result<(), AllocError>
    ensures { OnOk result (attributes.new ≡ attributes.old ++ map line.Candidate candidates.now) }
{
    for candidate in candidates {
        attributes.push(MediaAttribute::Candidate(candidate.clone(alloc)?))?;
    }
    Ok(())
}

/// Adds that candidates come later, or those that are all.
#[tactic(auto, unfolding(crate::specs::ForBrowsers::gathering_lines))]
fn push_gathering(
    alloc: Global,
    gathering: &Gathering,
    attributes: &mut Listed<MediaAttribute>,
) -> Result<(), AllocError>
    ensures { OnOk result (attributes.new ≡ attributes.old ++ gathering_lines gathering.now) }
{
    match gathering {
        Gathering::Trickling => {
            let options = words(alloc, "trickle")?;
            attributes.push(MediaAttribute::IceOptions(options))
        }
        Gathering::Done(candidates) => {
            push_candidates(alloc, candidates.as_slice(), attributes)?;
            attributes.push(MediaAttribute::EndOfCandidates)
        }
    }
}

/// Adds the transport's lines.
#[tactic(auto, unfolding(crate::specs::ForBrowsers::transport_lines))]
fn push_transport(
    alloc: Global,
    transport: &Transport,
    attributes: &mut Listed<MediaAttribute>,
) -> Result<(), AllocError>
    ensures { OnOk result (attributes.new ≡ attributes.old ++ transport_lines transport.now) }
{
    attributes.push(MediaAttribute::IceUfrag(transport.creds.ufrag.clone(alloc)?))?;
    attributes.push(MediaAttribute::IcePwd(transport.creds.pass.clone(alloc)?))?;
    push_gathering(alloc, &transport.gathering, attributes)?;
    attributes.push(MediaAttribute::Fingerprint(transport.fingerprint.clone(alloc)?))?;
    attributes.push(MediaAttribute::Setup(transport.setup))?;
    attributes.push(MediaAttribute::RtcpMux)
}

/// Whether it is the section's name.
#[tactic(auto, unfolding(sdp_formats_data::specs::Media::is_mid))]
pub(crate) fn is_mid(attribute: &MediaAttribute) -> bool
    ensures { result ≡ is_mid attribute.now }
{
    matches!(attribute, MediaAttribute::Mid(_))
}

/// Adds the attribute, and the transport's lines after it if it is the section's name.
#[tactic(auto, unfolding(crate::specs::ForBrowsers::attribute_with_transport))]
fn push_with_transport(
    alloc: Global,
    transport: &Transport,
    attribute: MediaAttribute,
    attributes: &mut Listed<MediaAttribute>,
) -> Result<(), AllocError>
    ensures { OnOk result (attributes.new ≡ attributes.old ++ attribute_with_transport transport.now attribute) }
{
    let names_section = is_mid(&attribute);
    attributes.push(attribute)?;
    if names_section {
        push_transport(alloc, transport, attributes)?;
    }
    Ok(())
}

/// The attributes with the transport's lines after the section's name.
fn attributes_with_transport(
    alloc: Global,
    transport: &Transport,
    attributes: Vec<MediaAttribute>,
) -> Result<Listed<MediaAttribute>, AllocError>
    ensures { IfOk result (λ l. l ≡ flat_map (attribute_with_transport transport.now) attributes.items) }
{
    let mut with_transport = Listed::new(alloc);
    for attribute in attributes {
        push_with_transport(alloc, transport, attribute, &mut with_transport)?;
    }
    Ok(with_transport)
}

/// The section with the transport's lines.
#[tactic(auto, unfolding(crate::specs::ForBrowsers::section_with_transport))]
fn section_with_transport(
    alloc: Global,
    transport: &Transport,
    section: MediaLine,
) -> Result<MediaLine, AllocError>
    ensures { IfOk result (λ m. m ≡ section_with_transport transport.now section) }
{
    let mut section = section;
    let attrs = mem::replace(&mut section.attrs, Listed::new(alloc));
    section.attrs = attributes_with_transport(alloc, transport, attrs.into_vec())?;
    Ok(section)
}

/// A section of an end as its browser is told of it.
fn told_section(
    alloc: Global,
    state: &BrowserState,
    transport: &Transport,
    section: MediaLine,
) -> Result<MediaLine, AllocError>
    ensures { IfOk result (λ m. m ≡ told_section state.now transport.now section) }
{
    let section = section_with_transport(alloc, transport, section)?;
    let section = listed_for(
        alloc,
        state.is_answering,
        state.sections.as_slice(),
        section,
    )?;
    identified(alloc, state.identity.as_ref(), section)
}

fn told_sections(
    alloc: Global,
    state: &BrowserState,
    transport: &Transport,
    sections: Vec<MediaLine>,
) -> Result<Vec<MediaLine>, AllocError>
    ensures { IfOk result (λ v. v.items ≡ map (told_section state.now transport.now) sections.items) }
{
    let mut told = Vec::new(alloc);
    for section in sections {
        told.push(told_section(alloc, state, transport, section)?)?;
    }
    Ok(told)
}

/// A session attribute; a BUNDLE group is of these sections.
#[tactic(auto, unfolding(crate::specs::ForBrowsers::bundled_as))]
fn bundled_as(
    alloc: Global,
    names: &[Mid],
    attribute: &SessionAttribute,
) -> Result<SessionAttribute, AllocError>
    ensures { IfOk result (λ a. a ≡ bundled_as names.now attribute.now) }
{
    if let SessionAttribute::Group { typ, .. } = attribute {
        if is_bundle_name(typ) {
            return Ok(SessionAttribute::Group {
                typ: typ.clone(alloc)?,
                mids: Listed::of(Vec::from_slice(alloc, names)?),
            });
        }
    }
    attribute.clone(alloc)
}

fn all_bundled(
    alloc: Global,
    names: &[Mid],
    attributes: &[SessionAttribute],
) -> Result<Listed<SessionAttribute>, AllocError>
    ensures { IfOk result (λ l. l ≡ map (bundled_as names.now) attributes.now) }
{
    let mut bundled = Listed::new(alloc);
    for attribute in attributes {
        bundled.push(bundled_as(alloc, names, attribute)?)?;
    }
    Ok(bundled)
}

/// Adds that header extensions are mixed, if they are.
fn push_mixed(
    alloc: Global,
    mixed: bool,
    attributes: &mut Listed<SessionAttribute>,
) -> Result<(), AllocError>
    ensures { OnOk result (attributes.new ≡ attributes.old ++ mixed_line mixed) }
{
    if mixed {
        let text = words(alloc, "extmap-allow-mixed")?;
        attributes.push(SessionAttribute::Unused(text))?;
    }
    Ok(())
}

/// Adds that the end is an ICE-lite one, if it is.
fn push_lite(lite: bool, attributes: &mut Listed<SessionAttribute>) -> Result<(), AllocError>
    ensures { OnOk result (attributes.new ≡ attributes.old ++ lite_line lite) }
{
    if lite {
        attributes.push(SessionAttribute::IceLite)?;
    }
    Ok(())
}

/// The session with these lines.
#[tactic(auto, unfolding(crate::specs::ForBrowsers::session_with_transport))]
fn session_with_transport(
    alloc: Global,
    names: &[Mid],
    mixed: bool,
    lite: bool,
    session: Session,
) -> Result<Session, AllocError>
    ensures { IfOk result (λ s. s ≡ session_with_transport names.now mixed lite session) }
{
    let mut session = session;
    session.attrs = all_bundled(alloc, names, session.attrs.as_slice())?;
    push_mixed(alloc, mixed, &mut session.attrs)?;
    push_lite(lite, &mut session.attrs)?;
    Ok(session)
}

#[tactic(auto, unfolding(crate::specs::ForBrowsers::is_in_use))]
fn is_in_use(section: &MediaLine) -> bool
    ensures { result ≡ is_in_use section.now }
{
    !section.disabled
}

/// The names of the sections that are in use.
fn names_in_use(alloc: Global, sections: &[MediaLine]) -> Result<Vec<Mid>, AllocError>
    ensures { IfOk result (λ names. names.items ≡ names_in_use sections.now) }
{
    let mut names = Vec::new(alloc);
    for section in sections {
        if is_in_use(section) {
            names.push(mid_of(section))?;
        }
    }
    Ok(names)
}

/// A session text with these sections.
#[tactic(auto, unfolding(crate::specs::ForBrowsers::shown))]
fn shown(
    alloc: Global,
    state: &BrowserState,
    transport: &Transport,
    session: Session,
    sections: Listed<MediaLine>,
) -> Result<Sdp, AllocError>
    ensures { IfOk result (λ s. s ≡ shown state.now transport.now session sections) }
{
    let names = names_in_use(alloc, sections.as_slice())?;
    let (mixed, lite) = (state.allows_mixed, transport.is_lite);
    Ok(Sdp {
        session: session_with_transport(alloc, names.as_slice(), mixed, lite, session)?,
        media_lines: sections,
    })
}

/// A text of an end with the transport's lines, and the sections that were taken out in their places.
pub(crate) fn with_transport(
    alloc: Global,
    state: &BrowserState,
    transport: &Transport,
    sdp: Sdp,
) -> Result<Sdp, AllocError>
    ensures { IfOk result (λ s. s ≡ for_browser state.now transport.now sdp) }
{
    let Sdp {
        session,
        media_lines,
    } = sdp;
    let sections = told_sections(alloc, state, transport, media_lines.into_vec())?;
    let (places, olds) = (state.places.as_slice(), state.sections.as_slice());
    let sections = placed(alloc, places, olds, sections.as_slice())?;
    shown(alloc, state, transport, session, sections)
}

//! What a browser's text tells of its transport.

ghost use Rattle.std.specs.Prelude.{◌≡◌, IfOk, map};
ghost use Rattle.std.specs.List.{list_any};
ghost use Rattle.std.specs.Option.{option_copied};
ghost use Rattle.sdp_formats_data.specs.ListedCandidates.{section_candidates, session_candidates};
ghost use Rattle.sdp_formats_data.specs.Preference.{IsPreferred};
ghost use Rattle.sdp_formats_data.specs.Transport.{section_prints, session_prints};
ghost use Rattle.rtp_media_browsers.specs.Remotes.{Tells, TellsFirst, creds_told, else_of, names_trickle};
ghost use Rattle.rtp_media_browsers.specs.Remotes.{session_trickles, setup_told, trickles};

use crate::state::Remote;
use sdp_formats_data::{MediaAttribute, MediaLine, Session, SessionAttribute};
use sdp_formats_grammar::{Listed, first_part};
use sdp_formats_values::{Candidate, Fingerprint, IceCreds, Setup};
use std::alloc::{AllocError, Global};

/// The credentials of the section, or else of the session.
fn creds_told(
    alloc: Global,
    session: &Session,
    section: &MediaLine,
) -> Result<Option<IceCreds>, AllocError>
    ensures { IfOk result (λ creds. creds ≡ creds_told session.now section.now) }
{
    let Some((ufrag, pass)) = section.ice_creds().or(session.ice_creds()) else {
        return Ok(None);
    };
    Ok(Some(IceCreds {
        ufrag: ufrag.clone(alloc)?,
        pass: pass.clone(alloc)?,
    }))
}

/// The fingerprint of the section, or else of the session.
#[tactic(auto, using(crate::proofs::Prints::own_print))]
fn fingerprint_told<'a>(session: &'a Session, section: &'a MediaLine) -> Option<&'a Fingerprint>
    ensures { IsPreferred (else_of (section_prints section.now) (session_prints session.now)) (option_copied result) }
{
    match section.fingerprint() {
        Some(fingerprint) => Some(fingerprint),
        None => session.fingerprint(),
    }
}

/// A copy of a fingerprint.
fn copied(
    alloc: Global,
    fingerprint: Option<&Fingerprint>,
) -> Result<Option<Fingerprint>, AllocError>
    ensures { IfOk result (λ f. f ≡ option_copied fingerprint.entry) }
{
    match fingerprint {
        Some(fingerprint) => Ok(Some(fingerprint.clone(alloc)?)),
        None => Ok(None),
    }
}

/// Which end opens the connection, by the section, or else by the session.
fn setup_told(session: &Session, section: &MediaLine) -> Option<Setup>
    ensures { result ≡ setup_told session.now section.now }
{
    match section.setup() {
        Some(setup) => Some(setup),
        None => session.setup(),
    }
}

/// Copies of candidates.
fn copies(alloc: Global, candidates: &[&Candidate]) -> Result<Listed<Candidate>, AllocError>
    ensures { IfOk result (λ l. l ≡ map (λ c. c.now) candidates.now) }
{
    let mut copies = Listed::new(alloc);
    for candidate in candidates {
        copies.push((*candidate).clone(alloc)?)?;
    }
    Ok(copies)
}

/// The candidates of the section, or else of the session.
fn candidates_told(
    alloc: Global,
    session: &Session,
    section: &MediaLine,
) -> Result<Listed<Candidate>, AllocError>
    ensures { IfOk result (λ l. l ≡ else_of (section_candidates section.now) (session_candidates session.now)) }
{
    let own = section.ice_candidates(alloc)?;
    if own.is_empty() {
        let all = session.ice_candidates(alloc)?;
        return copies(alloc, all.as_slice());
    }
    copies(alloc, own.as_slice())
}

/// Whether one of the words is `trickle`.
fn names_trickle(options: &str) -> bool
    ensures { result ≡ names_trickle options.now }
{
    let mut rest = Some(options);
    while let Some(left) = rest {
        let (word, behind) = first_part(left, ' ');
        if word == "trickle" {
            return true;
        }
        rest = behind;
    }
    false
}

#[tactic(auto, unfolding(crate::specs::Remotes::trickles))]
fn trickles(attribute: &MediaAttribute) -> bool
    ensures { result ≡ trickles attribute.now }
{
    match attribute {
        MediaAttribute::IceOptions(options) => names_trickle(options.as_str()),
        _ => false,
    }
}

#[tactic(auto, unfolding(crate::specs::Remotes::session_trickles))]
fn session_trickles(attribute: &SessionAttribute) -> bool
    ensures { result ≡ session_trickles attribute.now }
{
    match attribute {
        SessionAttribute::IceOptions(options) => names_trickle(options.as_str()),
        _ => false,
    }
}

fn is_trickling(attributes: &[MediaAttribute]) -> bool
    ensures { result ≡ list_any trickles attributes.now }
{
    attributes.iter().any(|attribute| trickles(attribute))
}

fn is_session_trickling(attributes: &[SessionAttribute]) -> bool
    ensures { result ≡ list_any session_trickles attributes.now }
{
    attributes
        .iter()
        .any(|attribute| session_trickles(attribute))
}

/// What the text of this session and this first section tells.
fn told_by(alloc: Global, session: &Session, section: &MediaLine) -> Result<Remote, AllocError>
    ensures { IfOk result (λ remote. Tells session.now section.now remote) }
{
    Ok(Remote {
        creds: creds_told(alloc, session, section)?,
        fingerprint: copied(alloc, fingerprint_told(session, section))?,
        setup: setup_told(session, section),
        candidates: candidates_told(alloc, session, section)?,
        is_trickling: is_trickling(section.attrs.as_slice())
            || is_session_trickling(session.attrs.as_slice()),
        is_lite: session.ice_lite(),
    })
}

/// What the text of this session tells by the first of some sections.
pub(crate) fn told(
    alloc: Global,
    session: &Session,
    sections: &[MediaLine],
) -> Result<Remote, AllocError>
    ensures { IfOk result (λ remote. TellsFirst session.now sections.now remote) }
{
    match sections.first() {
        Some(section) => told_by(alloc, session, section),
        None => Ok(Remote::silent(alloc)),
    }
}

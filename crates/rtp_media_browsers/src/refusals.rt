//! Why a browser's text, or a text for one, is refused.

ghost use Rattle.std.specs.Prelude.{◌≡◌, IfOk};
ghost use Rattle.sdp_formats_data.specs.Lookups.{first_of};
ghost use Rattle.sdp_formats_data.specs.WholeTexts.{is_name};
ghost use Rattle.rtp_media_browsers.specs.Names.{mids_of};
ghost use Rattle.rtp_media_browsers.specs.Refusals.{answer_test, begin_with, browser_refusal, bundle_refusal};
ghost use Rattle.rtp_media_browsers.specs.Refusals.{are_at, has_no_print, has_planned, is_found, keys_in, may_be_at};
ghost use Rattle.rtp_media_browsers.specs.Refusals.{name_refusal, offer_test};
ghost use Rattle.std.specs.List.{list_all};
ghost use Rattle.rtp_media_browsers.specs.Refusals.{Checks, outside_in, rejected_in, twice_refusal};

use crate::error::BrowserError;
use crate::fit::{are_ice_chars, may_say};
use crate::lines::{bundled, count_bundles, has_crypto};
use crate::names::{changed_name, mids_of};
use crate::state::{BrowserState, Place};
use crate::transport::Transport;
use rtp_media_sections::mid_of;
use rtp_wire::Mid;
use sdp_formats_data::{MediaLine, NameSet, Sdp, Session};
use std::alloc::{AllocError, Global};

/// The refusal, if there is one.
fn refuse(refusal: Option<BrowserError>) -> Result<(), BrowserError>
    ensures { Checks refusal result }
{
    match refusal {
        Some(refusal) => Err(refusal),
        None => Ok(()),
    }
}

/// A mid that occurs twice.
fn twice_refusal(alloc: Global, sections: &[MediaLine]) -> Result<Option<BrowserError>, AllocError>
    ensures { IfOk result (λ r. r ≡ twice_refusal sections.now) }
{
    let mids = mids_of(alloc, sections)?;
    if NameSet::of(alloc, mids.as_slice())?.are_apart() {
        return Ok(None);
    }
    Ok(Some(BrowserError::MidTwice))
}

/// A mid that reading changes; a mid that occurs twice.
fn name_refusal(
    alloc: Global,
    text: &str,
    sections: &[MediaLine],
) -> Result<Option<BrowserError>, AllocError>
    ensures { IfOk result (λ r. r ≡ name_refusal text.now sections.now) }
{
    match changed_name(text) {
        Some(name) => Ok(Some(BrowserError::MidNotKept(name))),
        None => twice_refusal(alloc, sections),
    }
}

/// A section outside of the bundle.
fn outside_in(bundle: &NameSet<'_>, section: &MediaLine) -> Option<BrowserError>
    ensures { result ≡ outside_in bundle.now section.now }
{
    let mid = mid_of(section);
    if bundle.has(mid) {
        return None;
    }
    Some(BrowserError::OutsideBundle(mid))
}

fn first_outside(bundle: &NameSet<'_>, sections: &[MediaLine]) -> Option<BrowserError>
    ensures { result ≡ first_of (outside_in bundle.now) sections.now }
{
    for section in sections {
        if let Some(refusal) = outside_in(bundle, section) {
            return Some(refusal);
        }
    }
    None
}

/// Whether neither the section nor the session has a fingerprint.
fn has_no_print(session: &Session, section: &MediaLine) -> bool
    ensures { result ≡ has_no_print session.now section.now }
{
    section.fingerprint().is_none() && session.fingerprint().is_none()
}

/// SDES keys (`a=crypto`) in the section, but no fingerprint.
fn keys_in(session: &Session, section: &MediaLine) -> Option<BrowserError>
    ensures { result ≡ keys_in session.now section.now }
{
    if has_crypto(section.attrs.as_slice()) && has_no_print(session, section) {
        return Some(BrowserError::KeysAlone(mid_of(section)));
    }
    None
}

fn first_with_keys(session: &Session, sections: &[MediaLine]) -> Option<BrowserError>
    ensures { result ≡ first_of (keys_in session.now) sections.now }
{
    for section in sections {
        if let Some(refusal) = keys_in(session, section) {
            return Some(refusal);
        }
    }
    None
}

/// Why these sections of a text for an end with old ones don't share a single transport.
fn bundle_refusal(
    alloc: Global,
    olds: &[MediaLine],
    sdp: &Sdp,
    sections: &[MediaLine],
) -> Result<Option<BrowserError>, AllocError>
    ensures { IfOk result (λ r. r ≡ bundle_refusal olds.now sdp.now sections.now) }
{
    if count_bundles(sdp.session.attrs.as_slice()) > 1 {
        return Ok(Some(BrowserError::SeveralBundles));
    }
    let bundle = NameSet::of(alloc, bundled(sdp))?;
    if let Some(refusal) = first_outside(&bundle, sections) {
        return Ok(Some(refusal));
    }
    if sections.is_empty() && olds.is_empty() {
        return Ok(Some(BrowserError::NothingLeft));
    }
    Ok(first_with_keys(&sdp.session, sections))
}

/// Tests an offer of which these sections are left, for an end with old ones.
///
/// # Errors
///
/// `MidNotKept`, `MidTwice`, `SeveralBundles`, `OutsideBundle`, `NothingLeft`, `KeysAlone`, the first that applies; or
/// `Memory`.
pub(crate) fn test_offer(
    alloc: Global,
    text: &str,
    olds: &[MediaLine],
    sdp: &Sdp,
    sections: &[MediaLine],
) -> Result<(), BrowserError>
    ensures { Checks (offer_test text.now olds.now sdp.now sections.now) result }
{
    refuse(name_refusal(alloc, text, sdp.media_lines.as_slice())?)?;
    refuse(bundle_refusal(alloc, olds, sdp, sections)?)
}

/// A section that the browser rejects.
fn rejected_in(section: &MediaLine) -> Option<BrowserError>
    ensures { result ≡ rejected_in section.now }
{
    if section.disabled {
        return Some(BrowserError::Rejected(mid_of(section)));
    }
    None
}

fn first_rejected(sections: &[MediaLine]) -> Option<BrowserError>
    ensures { result ≡ first_of rejected_in sections.now }
{
    for section in sections {
        if let Some(refusal) = rejected_in(section) {
            return Some(refusal);
        }
    }
    None
}

fn is_same_name(name: Mid, other: Mid) -> bool
    ensures { result ≡ is_name name other }
{
    name.as_bytes() == other.as_bytes()
}

/// Whether the sections begin with those of these names.
fn begin_with(names: &[Mid], sections: &[MediaLine]) -> bool
    ensures { result ≡ begin_with names.now sections.now }
{
    for (number, name) in names.iter().enumerate() {
        match sections.get(number) {
            Some(section) => {
                if !is_same_name(*name, mid_of(section)) {
                    return false;
                }
            }
            None => return false,
        }
    }
    true
}

/// Whether a section may be at this place of an answer.
#[tactic(auto, unfolding(crate::specs::Refusals::may_be_at))]
fn may_be_at(place: &Place, section: &MediaLine) -> bool
    ensures { result ≡ may_be_at place.now section.now }
{
    match place {
        Place::Kept(name) => is_same_name(*name, mid_of(section)),
        Place::Taken(rejected) => is_same_name(mid_of(rejected), mid_of(section)),
        Place::Free(_) => true,
    }
}

/// Whether the sections begin with those of these places.
fn are_at(places: &[Place], sections: &[MediaLine]) -> bool
    ensures { result ≡ are_at places.now sections.now }
{
    for (number, place) in places.iter().enumerate() {
        match sections.get(number) {
            Some(section) => {
                if !may_be_at(place, section) {
                    return false;
                }
            }
            None => return false,
        }
    }
    true
}

/// Tests an answer of which these sections are left.
///
/// # Errors
///
/// `MidNotKept`, `MidTwice`, `NotCorresponding`, `Rejected`, `SeveralBundles`, `OutsideBundle`, `NothingLeft`,
/// `KeysAlone`, the first that applies; or `Memory`.
pub(crate) fn test_answer(
    alloc: Global,
    text: &str,
    state: &BrowserState,
    sdp: &Sdp,
    sections: &[MediaLine],
) -> Result<(), BrowserError>
    ensures { Checks (answer_test text.now state.now sdp.now sections.now) result }
{
    refuse(name_refusal(alloc, text, sdp.media_lines.as_slice())?)?;
    if !are_at(state.places.as_slice(), sdp.media_lines.as_slice()) {
        return Err(BrowserError::NotCorresponding);
    }
    refuse(first_rejected(sections))?;
    refuse(bundle_refusal(alloc, state.sections.as_slice(), sdp, sections)?)
}

/// Whether the section of a place is among these.
#[tactic(auto, unfolding(crate::specs::Refusals::is_found))]
fn is_found(names: &NameSet<'_>, place: &Place) -> bool
    ensures { result ≡ is_found names.now place.now }
{
    match place {
        Place::Kept(name) => names.has(*name),
        Place::Taken(_) | Place::Free(_) => true,
    }
}

fn are_found(names: &NameSet<'_>, places: &[Place]) -> bool
    ensures { result ≡ list_all (is_found names.now) places.now }
{
    places.iter().all(|place| is_found(names, place))
}

/// Whether a text has the end's sections, in order, and those of the state.
fn has_planned(
    alloc: Global,
    state: &BrowserState,
    sections: &[MediaLine],
) -> Result<bool, AllocError>
    ensures { IfOk result (λ b. b ≡ has_planned state.now sections.now) }
{
    let olds = mids_of(alloc, state.sections.as_slice())?;
    let mids = mids_of(alloc, sections)?;
    let names = NameSet::of(alloc, mids.as_slice())?;
    Ok(begin_with(olds.as_slice(), sections) && are_found(&names, state.places.as_slice()))
}

/// Tests a text of an end, and its transport.
///
/// # Errors
///
/// `UfragNotFit`, `PasswordNotFit`, `SetupNotFit`, `NotCorresponding`, the first that applies; or `Memory`.
pub(crate) fn test_own(
    alloc: Global,
    state: &BrowserState,
    transport: &Transport,
    sdp: &Sdp,
) -> Result<(), BrowserError>
    ensures { Checks (browser_refusal state.now transport.now sdp.now) result }
{
    if !are_ice_chars(4, transport.creds.ufrag.as_str()) {
        return Err(BrowserError::UfragNotFit);
    }
    if !are_ice_chars(22, transport.creds.pass.as_str()) {
        return Err(BrowserError::PasswordNotFit);
    }
    if !may_say(
        state.is_answering,
        transport.setup,
        state.setup,
        state.remote.setup,
    ) {
        return Err(BrowserError::SetupNotFit);
    }
    if !has_planned(alloc, state, sdp.media_lines.as_slice())? {
        return Err(BrowserError::NotCorresponding);
    }
    Ok(())
}

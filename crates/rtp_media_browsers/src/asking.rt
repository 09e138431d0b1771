//! Requests that name their sections.

ghost use Rattle.std.specs.Prelude.{◌≡◌, [], IfErr, IfOk};
ghost use Rattle.rtp_media_browsers.specs.Asking.{AreRequests, IsRefusedRequest, chosen, given, is_for_kind};
ghost use Rattle.rtp_media_browsers.specs.Asking.{is_for_mid};
ghost use Rattle.rtp_media_browsers.specs.Asking.{is_open, kind_from, left_over, left_refusal, named_from, place_asked};
ghost use Rattle.rtp_media_browsers.specs.Asking.{behind_choice, request_given};
ghost use Rattle.rtp_media_browsers.specs.Tidied.{tidied};

use crate::bundle::Bundle;
use crate::error::BrowserError;
use crate::lines::bundled;
use crate::reading::read_whole;
use crate::repairing::test_repairs;
use crate::request::SectionRequest;
use crate::tidying::tidied;
use media_types::MediaKind;
use rtp_media_sections::{kind_of, mid_of};
use rtp_wire::Mid;
use sdp_formats_data::MediaLine;
use std::alloc::{AllocError, AllocFailed, Global};
use thiserror::Error;

/// Which section of an offer a request is for.
#[derive(Clone, Copy, Debug, PartialEq, Eq, Drop)]
pub enum Target {
    /// The section of this name.
    Mid(Mid),
    /// The first section of this kind that no other request is for.
    Kind(MediaKind),
}

/// A request for one section of an offer.
#[derive(Debug, Drop)]
pub struct NamedRequest {
    /// Which section it is for.
    pub target: Target,
    /// What is requested of it.
    pub request: SectionRequest,
}

/// Why requests don't fit an offer; of several reasons the first in this list is returned.
#[derive(Clone, Copy, Debug, PartialEq, Eq, Drop, Error)]
pub enum RequestError {
    /// The offer can't be read.
    #[error("{0}")]
    Text(BrowserError),
    /// The offer has no such section in use, or another request has it.
    #[error("no section is there for a request")]
    NoSection(Target),
    /// The request for this section has repairs, and the section offers no retransmission (RFC 4588 8.1).
    #[error("section {0} has no retransmission")]
    NoRetransmission(Mid),
}

impl From<BrowserError> for RequestError {
    ghost use Rattle.std.specs.Prelude.{◌≡◌};
    ghost use Rattle.rtp_media_browsers.specs.declared.asking.RequestError.TheVariants.{Text};

    ghost from_gives = { λ b e. e ≡ Text b };

    fn from(error: BrowserError) -> RequestError {
        RequestError::Text(error)
    }
}

impl From<AllocError> for RequestError {
    ghost use Rattle.std.specs.Prelude.{◌≡◌};
    ghost use Rattle.rtp_media_browsers.specs.declared.asking.RequestError.TheVariants.{Text};
    ghost use Rattle.rtp_media_browsers.specs.declared.error.BrowserError.TheVariants.{Memory};

    ghost from_gives = { λ _ e. e ≡ Text Memory };

    fn from(_error: AllocError) -> RequestError {
        RequestError::Text(BrowserError::Memory)
    }
}

impl<T: Drop> From<AllocFailed<T>> for RequestError {
    ghost use Rattle.std.specs.Prelude.{◌≡◌};
    ghost use Rattle.rtp_media_browsers.specs.declared.asking.RequestError.TheVariants.{Text};
    ghost use Rattle.rtp_media_browsers.specs.declared.error.BrowserError.TheVariants.{Memory};

    ghost from_gives = { λ _ e. e ≡ Text Memory };

    fn from(_error: AllocFailed<T>) -> RequestError {
        RequestError::Text(BrowserError::Memory)
    }
}

/// Whether a section of an offer is one of media in use, with the transport that an end has.
fn is_open(bundle: &Bundle<'_>, section: &MediaLine) -> bool
    ensures { result ≡ is_open bundle.now section.now }
{
    section.typ.is_media()
        && (!section.disabled || bundle.has_only(section))
        && !bundle.is_without(section)
}

#[tactic(auto, unfolding(crate::specs::Asking::is_for_mid))]
fn is_for_mid(mid: Mid, asked: &NamedRequest) -> bool
    ensures { result ≡ is_for_mid mid asked.now }
{
    match asked.target {
        Target::Mid(name) => name.as_bytes() == mid.as_bytes(),
        Target::Kind(_) => false,
    }
}

#[tactic(auto, unfolding(crate::specs::Asking::is_for_kind))]
fn is_for_kind(is_audio: bool, asked: &NamedRequest) -> bool
    ensures { result ≡ is_for_kind is_audio asked.now }
{
    match asked.target {
        Target::Mid(_) => false,
        Target::Kind(MediaKind::Audio) => is_audio,
        Target::Kind(MediaKind::Video) => !is_audio,
    }
}

/// The first request that names a section.
fn named_at(asked: &[NamedRequest], mid: Mid) -> Option<usize>
    ensures { result ≡ named_from mid 0 asked.now }
{
    for (number, request) in asked.iter().enumerate() {
        if is_for_mid(mid, request) {
            return Some(number);
        }
    }
    None
}

/// The first request for a section of a kind.
fn kind_at(asked: &[NamedRequest], is_audio: bool) -> Option<usize>
    ensures { result ≡ kind_from is_audio 0 asked.now }
{
    for (number, request) in asked.iter().enumerate() {
        if is_for_kind(is_audio, request) {
            return Some(number);
        }
    }
    None
}

/// The request for a section: the first that names it, or else the first for its kind.
fn place_asked(asked: &[NamedRequest], section: &MediaLine) -> Option<usize>
    ensures { result ≡ place_asked asked.now section.now }
{
    match named_at(asked, mid_of(section)) {
        Some(number) => Some(number),
        None => kind_at(asked, kind_of(&section.typ).is_audio()),
    }
}

fn chosen(bundle: &Bundle<'_>, asked: &[NamedRequest], section: &MediaLine) -> Option<usize>
    ensures { result ≡ chosen bundle.now asked.now section.now }
{
    if !is_open(bundle, section) {
        return None;
    }
    place_asked(asked, section)
}

/// Takes a request out of those that are left.
fn take_request(asked: &mut Vec<NamedRequest>, number: Option<usize>) -> SectionRequest
    ensures request { result ≡ request_given asked.old.items number }
    ensures left { asked.new.items ≡ behind_choice asked.old.items number }
{
    match number {
        Some(number) => {
            if number < asked.len() {
                return asked.remove(number).request;
            }
            SectionRequest::Reject
        }
        None => SectionRequest::Reject,
    }
}

/// The request for each section of an offer with this bundle; those that are for none are left.
fn given(
    alloc: Global,
    bundle: &[Mid],
    asked: &mut Vec<NamedRequest>,
    sections: &[MediaLine],
) -> Result<Vec<SectionRequest>, AllocError>
    ensures requests { IfOk result (λ w. w.items ≡ given bundle.now asked.old.items sections.now) }
    ensures left { IfOk result (λ w. asked.new.items ≡ left_over bundle.now asked.old.items sections.now) }
{
    let bundle = Bundle::of(alloc, bundle)?;
    let mut requests = Vec::new(alloc);
    for section in sections {
        let number = chosen(&bundle, asked.as_slice(), section);
        requests.push(take_request(asked, number))?;
    }
    Ok(requests)
}

/// A request that no section takes.
fn left_refusal(asked: &[NamedRequest]) -> Option<RequestError>
    ensures { result ≡ left_refusal asked.now }
{
    match asked.first() {
        Some(request) => Some(RequestError::NoSection(request.target)),
        None => None,
    }
}

/// The requests for the sections of an offer that is tidied.
#[tactic(auto, using(crate::proofs::Asked::unread_request, crate::proofs::Asked::want_of_request, crate::proofs::Asked::refused_request))]
fn requests_of(
    alloc: Global,
    offer: &str,
    asked: Vec<NamedRequest>,
) -> Result<Vec<SectionRequest>, RequestError>
    ensures requests { IfOk result (λ w. AreRequests offer.now asked.items w.items) }
    ensures refused { IfErr result (λ e. IsRefusedRequest offer.now asked.items e) }
{
    let sdp = read_whole(alloc, offer)?;
    let sections = sdp.media_lines.as_slice();
    let mut asked = asked;
    let requests = given(alloc, bundled(&sdp), &mut asked, sections)?;
    if let Some(error) = left_refusal(asked.as_slice()) {
        return Err(error);
    }
    test_repairs(requests.as_slice(), sections)?;
    Ok(requests)
}

/// The requests for the sections of an offer, in its order, for `for_end` and `sections_for`. Each section in use takes
/// the first request that names it, or else the first for its kind that no section before it took; one without a
/// request is rejected.
///
/// # Errors
///
/// `Text` with `Unreadable` or `RestUnread`, `NoSection`, `NoRetransmission`, the first that applies; or `Text` with
/// `Memory`.
#[tactic(auto, using(crate::proofs::Asked::want_of_request))]
pub fn requests_for(
    alloc: Global,
    offer: &str,
    asked: Vec<NamedRequest>,
) -> Result<Vec<SectionRequest>, RequestError>
    ensures requests { IfOk result (λ w. AreRequests (tidied offer.now) asked.items w.items) }
    ensures refused { IfErr result (λ e. IsRefusedRequest (tidied offer.now) asked.items e) }
{
    let offer = tidied(alloc, offer)?;
    requests_of(alloc, offer.as_str(), asked)
}

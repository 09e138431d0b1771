//! Sections in which an end only receives.

ghost use Rattle.std.specs.Prelude.{◌≡◌, IfOk, Some, map};
ghost use Rattle.std.specs.List.{list_any};
ghost use Rattle.std.specs.Option.{option_copied};
ghost use Rattle.rtp_media_browsers.specs.Places.{left};
ghost use Rattle.rtp_media_browsers.specs.Received.{all_as_asked, as_asked, is_received, only_sent};

use crate::placing::left;
use crate::request::{SectionRequest, is_received};
use crate::state::Place;
use sdp_formats_data::{MediaAttribute, MediaLine};
use sdp_formats_grammar::Listed;
use std::alloc::{AllocError, Global};

/// A direction without what the browser receives, and any other line as it is.
#[tactic(auto, unfolding(crate::specs::Received::only_sent))]
fn only_sent(alloc: Global, attribute: &MediaAttribute) -> Result<MediaAttribute, AllocError>
    ensures { IfOk result (λ a. a ≡ only_sent attribute.now) }
{
    match attribute {
        MediaAttribute::SendRecv => Ok(MediaAttribute::SendOnly),
        MediaAttribute::RecvOnly => Ok(MediaAttribute::Inactive),
        _ => attribute.clone(alloc),
    }
}

/// A copy of these lines.
fn all_only_sent(
    alloc: Global,
    attributes: &[MediaAttribute],
) -> Result<Listed<MediaAttribute>, AllocError>
    ensures { IfOk result (λ l. l ≡ map only_sent attributes.now) }
{
    let mut all = Listed::new(alloc);
    for attribute in attributes {
        all.push(only_sent(alloc, attribute)?)?;
    }
    Ok(all)
}

/// A copy of a section as its request has it.
fn as_asked(
    alloc: Global,
    request: Option<&SectionRequest>,
    section: &MediaLine,
) -> Result<MediaLine, AllocError>
    ensures { IfOk result (λ m. m ≡ as_asked (option_copied request.entry) section.now) }
{
    let mut copy = section.clone(alloc)?;
    if is_received(request) {
        copy.attrs = all_only_sent(alloc, section.attrs.as_slice())?;
    }
    Ok(copy)
}

/// Copies of the sections of an offer, each as its request has it.
fn all_as_asked(
    alloc: Global,
    requests: &[SectionRequest],
    sections: &[MediaLine],
) -> Result<Vec<MediaLine>, AllocError>
    ensures { IfOk result (λ v. v.items ≡ all_as_asked requests.now 0 sections.now) }
{
    let mut all = Vec::new(alloc);
    for (number, section) in sections.iter().enumerate() {
        all.push(as_asked(alloc, requests.get(number), section)?)?;
    }
    Ok(all)
}

fn is_one_received(requests: &[SectionRequest]) -> bool
    ensures { result ≡ list_any (λ w. is_received (Some w)) requests.now }
{
    requests.iter().any(|request| is_received(Some(request)))
}

/// The sections of an offer that aren't removed, each as its request has it.
///
/// # Conditions
///
/// `sections` are those that aren't removed, as the offer has them.
#[tactic(auto, using(crate::proofs::AsAsked::none_received))]
pub(crate) fn asked_of(
    alloc: Global,
    requests: &[SectionRequest],
    places: &[Place],
    all: &[MediaLine],
    sections: Vec<MediaLine>,
) -> Result<Vec<MediaLine>, AllocError>
    requires { sections.items ≡ left places.now all.now }
    ensures { IfOk result (λ v. v.items ≡ left places.now (all_as_asked requests.now 0 all.now)) }
{
    if !is_one_received(requests) {
        return Ok(sections);
    }
    let asked = all_as_asked(alloc, requests, all)?;
    left(alloc, places, asked.as_slice())
}

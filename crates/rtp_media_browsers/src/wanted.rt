//! The sections an end should answer with.

ghost use Rattle.std.specs.Prelude.{◌≡◌, IfOk};
ghost use Rattle.std.specs.Option.{option_copied};
ghost use Rattle.rtp_media_browsers.specs.Wanted.{number_from, wanted, wanted_in, wanted_of, request_at};

use crate::placing::is_place_of;
use crate::request::SectionRequest;
use crate::state::{BrowserState, Place};
use rtp_media_sections::{SectionSpec, kind_of, mid_of};
use rtp_wire::{Direction, Mid};
use sdp_formats_data::MediaLine;
use std::alloc::{AllocError, Global};

/// The place of the section of a name.
fn number_of(places: &[Place], mid: Mid) -> Option<usize>
    ensures { result ≡ number_from mid 0 places.now }
{
    for (number, place) in places.iter().enumerate() {
        if is_place_of(mid, place) {
            return Some(number);
        }
    }
    None
}

impl BrowserState {
    /// The place of the section of a name in the browser's texts, counted from 0, if it isn't rejected. Where the
    /// end refuses what it was handed as `NoCommonRow`, reject the section of that name alone: make its request
    /// `Reject`, and go on with the state from before (RFC 3264 6).
    pub fn place_of(&self, mid: Mid) -> Option<usize>
        ensures { result ≡ number_from mid 0 self.now.places }
    {
        number_of(self.places.as_slice(), mid)
    }
}

/// The request for a place.
fn request_at(requests: &[SectionRequest], number: Option<usize>) -> Option<&SectionRequest>
    ensures { option_copied result ≡ request_at requests.now number }
{
    match number {
        Some(number) => requests.get(number),
        None => None,
    }
}

/// A section of an end as its request says.
fn wanted(
    alloc: Global,
    request: Option<&SectionRequest>,
    section: &MediaLine,
) -> Result<SectionSpec, AllocError>
    ensures { IfOk result (λ w. w ≡ wanted (option_copied request.entry) section.now) }
{
    match request {
        Some(
            SectionRequest::Accept {
                direction,
                ssrcs,
                repairs,
            },
        ) => Ok(SectionSpec {
            mid: mid_of(section),
            kind: kind_of(&section.typ),
            dir: *direction,
            ssrcs: ssrcs.clone()?,
            repairs: repairs.clone()?,
        }),
        Some(SectionRequest::Receive) => Ok(SectionSpec {
            mid: mid_of(section),
            kind: kind_of(&section.typ),
            dir: Direction::RecvOnly,
            ssrcs: Vec::new(alloc),
            repairs: Vec::new(alloc),
        }),
        _ => Ok(SectionSpec {
            mid: mid_of(section),
            kind: kind_of(&section.typ),
            dir: Direction::Inactive,
            ssrcs: Vec::new(alloc),
            repairs: Vec::new(alloc),
        }),
    }
}

/// A section of the state's end as its request says.
fn wanted_in(
    alloc: Global,
    state: &BrowserState,
    requests: &[SectionRequest],
    section: &MediaLine,
) -> Result<SectionSpec, AllocError>
    ensures { IfOk result (λ w. w ≡ wanted_in state.now requests.now section.now) }
{
    let number = state.place_of(mid_of(section));
    wanted(alloc, request_at(requests, number), section)
}

/// The sections of an end's answer, in its order, after `for_end` and with the requests that it was given: each section
/// that the end has, as its request says; one that was stopped or is rejected is inactive, without SSRCs.
///
/// # Errors
///
/// `AllocError` if memory runs out.
pub fn sections_for(
    alloc: Global,
    state: &BrowserState,
    requests: &[SectionRequest],
) -> Result<Vec<SectionSpec>, AllocError>
    ensures { IfOk result (λ specs. specs.items ≡ wanted_of state.now requests.now) }
{
    let mut specs = Vec::new(alloc);
    let sections = state.sections.as_slice();
    for section in sections {
        specs.push(wanted_in(alloc, state, requests, section)?)?;
    }
    Ok(specs)
}

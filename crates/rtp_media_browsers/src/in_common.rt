//! Requests for the sections of an offer that have a row in common with the end.

ghost use Rattle.std.specs.Prelude.{◌≡◌, ◌≢◌, ◌&&◌, ◌==◌, IfErr, IfOk, Err, Ok, false, filter, find, map, true};
ghost use Rattle.std.specs.List.{list_any};
ghost use Rattle.rtp_media_browsers.specs.Calls.{RefusesOffer};
ghost use Rattle.rtp_media_browsers.specs.InCommon.{AreInCommon, HasRows, Lacks, RefusesInCommon, Rejects, SaysToEnd};
ghost use Rattle.rtp_media_browsers.specs.InCommon.{after_first, begins_with_named, has_named, is_answered, left_of};
ghost use Rattle.rtp_media_browsers.specs.InCommon.{less_of};
ghost use Rattle.rtp_media_browsers.specs.InCommon.{names_without, without_named};
ghost use Rattle.rtp_media_browsers.specs.Tidied.{tidied};
ghost use Rattle.rtp_media_exchange.specs.Refusals.{answers_none};
ghost use Rattle.rtp_media_sections.specs.Answered.{locked_row};
ghost use Rattle.rtp_media_sections.specs.Lines.{remote_of, section_of};
ghost use Rattle.rtp_wire.specs.Direction.{receives};
ghost use Rattle.sdp_formats_rounds.specs.Laws.{rounds};
ghost use Rattle.sdp_formats_rounds.specs.declared.error.RoundError.TheVariants.{Memory};

use crate::calls::offer_handed;
use crate::error::BrowserError;
use crate::request::SectionRequest;
use crate::state::{BrowserState, Place};
use crate::tidying::tidied;
use rtp_media_sections::Section;
use rtp_wire::{Direction, Mid, Pt};
use sdp_formats_data::{MediaLine, NameSet, SdpError};
use sdp_formats_reader::sdp_parser;
use sdp_formats_rounds::{CodecConfig, RoundError};
use sdp_formats_rows::PayloadParams;
use std::alloc::{AllocError, Global};

fn locked_at(rows: &[PayloadParams], pt: Pt) -> Option<PayloadParams>
    ensures { result ≡ find (λ row. row.locked && (row.pt == pt)) rows.now }
{
    rows.iter()
        .copied()
        .find(|row| row.is_locked() && row.pt().get() == pt.get())
}

/// The locked row of a type, if there is one.
fn locked_row(rows: &[PayloadParams], pt: Option<Pt>) -> Option<PayloadParams>
    ensures { result ≡ locked_row rows.now pt }
{
    match pt {
        Some(pt) => locked_at(rows, pt),
        None => None,
    }
}

/// Whether the answer lists a row for an offered one.
#[tactic(auto, unfolding(crate::specs::InCommon::is_answered))]
fn is_answered(config: &CodecConfig, dir: Direction, offered: &PayloadParams) -> bool
    ensures { result ≡ is_answered config.now.rows (receives dir) offered.now }
{
    locked_row(config.params(), config.sdp_match_remote(*offered, dir)).is_some()
}

fn is_any_answered(config: &CodecConfig, dir: Direction, offered: &[PayloadParams]) -> bool
    ensures { result ≡ list_any (is_answered config.now.rows (receives dir)) offered.now }
{
    offered.iter().any(|row| is_answered(config, dir, row))
}

/// Whether the answer would list a row for a section, if the rounds leave these rows.
fn answers_some(config: &CodecConfig, section: &Section) -> bool
    ensures { result ≡ list_any (is_answered config.now.rows (receives section.now.dir)) section.now.rows }
{
    is_any_answered(config, section.dir, section.rows.as_slice())
}

/// Whether it would list none.
fn answers_none(config: &CodecConfig, section: &Section) -> bool
    ensures { result ≡ answers_none config.now.rows section.now }
{
    !answers_some(config, section)
}

/// The rows after the rounds with these sections.
fn after_rounds(config: &CodecConfig, sections: &[Section]) -> Result<CodecConfig, RoundError>
    ensures rows { IfOk result (λ c. rounds (map remote_of sections.now) config.now.rows ≡ Ok c.rows) }
    ensures refused { IfErr result
        (λ e. e ≢ Memory → rounds (map remote_of sections.now) config.now.rows ≡ Err e) }
{
    let mut after = config.clone()?;
    for section in sections {
        after.round(section.rows.as_slice(), section.dir)?;
    }
    Ok(after)
}

/// The names of the sections to which the answer would list no row, if the rounds leave these rows.
fn names_none(
    alloc: Global,
    config: &CodecConfig,
    sections: &[Section],
) -> Result<Vec<Mid>, AllocError>
    ensures { IfOk result
        (λ names. names.items ≡ map (λ s. s.mid) (filter (answers_none config.now.rows) sections.now)) }
{
    let mut names = Vec::new(alloc);
    for section in sections {
        if answers_none(config, section) {
            names.push(section.mid)?;
        }
    }
    Ok(names)
}

/// The names of the sections that have no row in common with an end of this config.
fn names_without(
    alloc: Global,
    config: &CodecConfig,
    sections: &[Section],
) -> Result<Vec<Mid>, AllocError>
    ensures { IfOk result (λ names. names.items ≡ names_without config.now.rows sections.now) }
{
    match after_rounds(config, sections) {
        Ok(after) => names_none(alloc, &after, sections),
        Err(RoundError::Memory) => Err(AllocError),
        Err(_) => Ok(Vec::new(alloc)),
    }
}

fn all_read(alloc: Global, lines: &[MediaLine]) -> Result<Vec<Section>, AllocError>
    ensures { IfOk result (λ sections. sections.items ≡ map section_of lines.now) }
{
    let mut sections = Vec::new(alloc);
    for line in lines {
        sections.push(Section::read(alloc, line)?)?;
    }
    Ok(sections)
}

/// What the sections of a text say to an end; nothing, if it can't read the text.
fn said_to_end(alloc: Global, text: &str) -> Result<Vec<Section>, AllocError>
    ensures { IfOk result (λ sections. SaysToEnd text.now sections.items) }
{
    match sdp_parser(alloc, text) {
        Ok((sdp, _)) => all_read(alloc, sdp.media_lines.as_slice()),
        Err(SdpError::Memory) => Err(AllocError),
        Err(_) => Ok(Vec::new(alloc)),
    }
}

/// The names of the sections that have no row in common with an end of this config, of what it is handed of an offer.
fn lacking(
    alloc: Global,
    state: &mut BrowserState,
    config: &CodecConfig,
    offer: &str,
    requests: &[SectionRequest],
) -> Result<Vec<Mid>, BrowserError>
    ensures lacks { IfOk result
        (λ names. Lacks offer.now config.now.rows requests.now state.old state.new names.items) }
    ensures refused { IfErr result (λ e. RefusesOffer offer.now state.old requests.now e) }
{
    let handed = offer_handed(alloc, state, offer, requests)?;
    let sections = said_to_end(alloc, handed.as_str())?;
    Ok(names_without(alloc, config, sections.as_slice())?)
}

/// Whether it is the place of the section of one of these names.
#[tactic(auto, unfolding(crate::specs::InCommon::has_named))]
fn has_named(names: &NameSet<'_>, place: &Place) -> bool
    ensures { result ≡ has_named names.now place.now }
{
    match place {
        Place::Kept(name) => names.has(*name),
        Place::Taken(_) | Place::Free(_) => false,
    }
}

fn is_any_named(names: &NameSet<'_>, places: &[Place]) -> bool
    ensures { result ≡ list_any (has_named names.now) places.now }
{
    places.iter().any(|place| has_named(names, place))
}

fn begins_with_named(names: &NameSet<'_>, places: &[Place]) -> bool
    ensures { result ≡ begins_with_named names.now places.now }
{
    match places {
        [place, ..] => has_named(names, place),
        [] => false,
    }
}

fn after_first(places: &[Place]) -> &[Place]
    ensures { result.now ≡ after_first places.now }
{
    match places {
        [_, rest @ ..] => rest,
        [] => places,
    }
}

/// The request for a section that has no row in common with the end.
fn less_of(request: &SectionRequest) -> SectionRequest
    ensures { result ≡ less_of request.now }
{
    match request {
        SectionRequest::Accept { direction, .. } => {
            if direction.is_receiving() {
                return SectionRequest::Receive;
            }
            SectionRequest::Reject
        }
        SectionRequest::Receive | SectionRequest::Reject => SectionRequest::Reject,
    }
}

fn left_of(is_named: bool, request: SectionRequest) -> SectionRequest
    ensures { result ≡ left_of is_named request }
{
    if is_named {
        return less_of(&request);
    }
    request
}

/// The requests, place by place: those of sections of these names are less.
fn without_named(
    alloc: Global,
    names: &NameSet<'_>,
    places: &[Place],
    requests: Vec<SectionRequest>,
) -> Result<Vec<SectionRequest>, AllocError>
    ensures { IfOk result (λ w. w.items ≡ without_named names.now places.now requests.items) }
{
    let mut left = Vec::new(alloc);
    let mut rest = places;
    for request in requests {
        left.push(left_of(begins_with_named(names, rest), request))?;
        rest = after_first(rest);
    }
    Ok(left)
}

/// Asks less of the sections without a row in common of a tidied offer; and whether there are some.
fn reject_lacking(
    alloc: Global,
    state: &BrowserState,
    config: &CodecConfig,
    offer: &str,
    requests: Vec<SectionRequest>,
) -> Result<(Vec<SectionRequest>, bool), BrowserError>
    ensures some { IfOk result
        (λ r. r.1 ≡ true → Rejects offer.now state.now config.now.rows requests.items r.0.items) }
    ensures none { IfOk result
        (λ r. r.1 ≡ false → HasRows offer.now state.now config.now.rows r.0.items) }
    ensures same { IfOk result (λ r. r.1 ≡ false → r.0.items ≡ requests.items) }
    ensures refused { IfErr result (λ e. RefusesOffer offer.now state.now requests.items e) }
{
    let mut planned = state.clone(alloc)?;
    let names = lacking(alloc, &mut planned, config, offer, requests.as_slice())?;
    let names = NameSet::of(alloc, names.as_slice())?;
    let places = planned.places.as_slice();
    if !is_any_named(&names, places) {
        return Ok((requests, false));
    }
    Ok((without_named(alloc, &names, places, requests)?, true))
}

/// The same until there is none.
#[tactic(auto, using(crate::proofs::FewerRequests::nothing_rejected, crate::proofs::FewerRequests::one_more_turn, crate::proofs::FewerRequests::in_common, crate::proofs::FewerRequests::not_in_common, crate::proofs::FewerRequests::fewer_asked))]
fn reject_in_turn(
    alloc: Global,
    state: &BrowserState,
    config: &CodecConfig,
    offer: &str,
    requests: Vec<SectionRequest>,
) -> Result<Vec<SectionRequest>, BrowserError>
    ensures requests { IfOk result
        (λ w. AreInCommon offer.now state.now config.now.rows requests.items w.items) }
    ensures refused { IfErr result
        (λ e. RefusesInCommon offer.now state.now config.now.rows requests.items e) }
{
    let mut left = requests;
    loop {
        let (next, some) = reject_lacking(alloc, state, config, offer, left)?;
        if !some {
            return Ok(next);
        }
        left = next;
    }
}

/// The requests for an offer, with those rejected whose sections have no row in common with the end (RFC 3264 6), and
/// all others as they are, for `for_end` and `sections_for`: the sections to which the answer of an end with this
/// config would list no row. If the end has the codec, but under a type of another section, it only receives in the
/// section. The rounds go without what is rejected, so the offer is looked at again until there is none, at most twice
/// for each request that accepts. The end then doesn't refuse what it is handed as `NoCommonRow`, except for a section
/// that was stopped.
///
/// `config` is the end's own, as `End::config` tells it; `state` is that from before the offer, and doesn't change.
///
/// # Errors
///
/// Those of `for_end`, by these requests or with sections rejected: `NothingLeft` if no section has a row in common.
#[tactic(auto, using(crate::proofs::FewerRequests::want_in_common))]
pub fn requests_in_common(
    alloc: Global,
    state: &BrowserState,
    config: &CodecConfig,
    offer: &str,
    requests: Vec<SectionRequest>,
) -> Result<Vec<SectionRequest>, BrowserError>
    ensures requests { IfOk result
        (λ w. AreInCommon (tidied offer.now) state.now config.now.rows requests.items w.items) }
    ensures refused { IfErr result
        (λ e. RefusesInCommon (tidied offer.now) state.now config.now.rows requests.items e) }
{
    let offer = tidied(alloc, offer)?;
    reject_in_turn(alloc, state, config, offer.as_str(), requests)
}

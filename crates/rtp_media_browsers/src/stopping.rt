//! Sections that the browser or the end stops.

ghost use Rattle.std.specs.Prelude.{◌≡◌, IfOk, OnErr, OnOk, map};
ghost use Rattle.std.specs.Option.{option_copied};
ghost use Rattle.rtp_media_browsers.specs.Following.{section_named};
ghost use Rattle.rtp_media_browsers.specs.Calls.{told_places};
ghost use Rattle.rtp_media_browsers.specs.Places.{answered_or_new, answered_place, answered_places, freed};
ghost use Rattle.rtp_media_browsers.specs.Places.{stopped_place};

use crate::copies::clone_all;
use crate::following::{has_name, section_named};
use crate::placing::rejected;
use crate::state::{BrowserState, Place};
use rtp_media_sections::mid_of;
use rtp_wire::Mid;
use sdp_formats_data::MediaLine;
use sdp_formats_grammar::Listed;
use std::alloc::{AllocError, Global};

/// The place after the browser's answer.
fn answered_place(alloc: Global, place: &Place, section: &MediaLine) -> Result<Place, AllocError>
    ensures { IfOk result (λ p. p ≡ answered_place place.now section.now) }
{
    match place {
        Place::Kept(name) => {
            if section.disabled {
                return Ok(Place::Free(rejected(alloc, section)?));
            }
            Ok(Place::Kept(*name))
        }
        Place::Taken(old) => {
            if section.disabled {
                return Ok(Place::Free(old.clone(alloc)?));
            }
            place.clone(alloc)
        }
        Place::Free(old) => {
            if section.disabled && has_name(mid_of(old), section) {
                return place.clone(alloc);
            }
            Ok(Place::Kept(mid_of(section)))
        }
    }
}

/// The place of a section of the browser's answer, if the state has one or if it is new.
fn answered_or_new(
    alloc: Global,
    place: Option<&Place>,
    section: &MediaLine,
) -> Result<Place, AllocError>
    ensures { IfOk result (λ p. p ≡ answered_or_new (option_copied place.entry) section.now) }
{
    match place {
        Some(place) => answered_place(alloc, place, section),
        None => Ok(Place::Kept(mid_of(section))),
    }
}

/// The places after the browser's answer; those of further sections, which the end's offer added, follow.
pub(crate) fn answered_places(
    alloc: Global,
    places: &[Place],
    sections: &[MediaLine],
) -> Result<Listed<Place>, AllocError>
    ensures { IfOk result (λ l. l ≡ answered_places places.now sections.now) }
{
    let mut after = Listed::new(alloc);
    for (number, section) in sections.iter().enumerate() {
        after.push(answered_or_new(alloc, places.get(number), section)?)?;
    }
    Ok(after)
}

/// The place after an answer to the browser, which says port 0 of what isn't answered.
fn freed(alloc: Global, place: &Place) -> Result<Place, AllocError>
    ensures { IfOk result (λ p. p ≡ freed place.now) }
{
    match place {
        Place::Taken(section) => Ok(Place::Free(section.clone(alloc)?)),
        Place::Kept(_) | Place::Free(_) => place.clone(alloc),
    }
}

/// The places after a text for the browser.
pub(crate) fn told_places(alloc: Global, state: &BrowserState) -> Result<Listed<Place>, AllocError>
    ensures { IfOk result (λ l. l ≡ told_places state.now) }
{
    if !state.is_answering {
        return clone_all(alloc, state.places.as_slice());
    }
    all_freed(alloc, state.places.as_slice())
}

fn all_freed(alloc: Global, places: &[Place]) -> Result<Listed<Place>, AllocError>
    ensures { IfOk result (λ l. l ≡ map freed places.now) }
{
    let mut after = Listed::new(alloc);
    for place in places {
        after.push(freed(alloc, place)?)?;
    }
    Ok(after)
}

/// The place of a section that the end stops, and any other place as it is.
#[tactic(auto, unfolding(crate::specs::Places::stopped_place))]
fn stopped_place(
    alloc: Global,
    section: Option<&MediaLine>,
    mid: Mid,
    place: &Place,
) -> Result<Place, AllocError>
    ensures { IfOk result (λ p. p ≡ stopped_place (option_copied section.entry) mid place.now) }
{
    match (section, place) {
        (Some(section), Place::Kept(name)) => {
            if mid.as_bytes() == name.as_bytes() {
                return Ok(Place::Taken(rejected(alloc, section)?));
            }
            Ok(Place::Kept(*name))
        }
        _ => place.clone(alloc),
    }
}

/// The places where the end stops the section of a name.
fn stopped_places(
    alloc: Global,
    section: Option<&MediaLine>,
    mid: Mid,
    places: &[Place],
) -> Result<Listed<Place>, AllocError>
    ensures { IfOk result (λ l. l ≡ map (stopped_place (option_copied section.entry) mid) places.now) }
{
    let mut after = Listed::new(alloc);
    for place in places {
        after.push(stopped_place(alloc, section, mid, place)?)?;
    }
    Ok(after)
}

impl BrowserState {
    /// Stops the section of a name: the end's next text rejects it in its place (RFC 8829 5.2.2). The end still has
    /// the section, and offers it inactive. A name that the end doesn't have changes nothing. Once the browser answered
    /// that, its place is free for a new section. If the offer is then withdrawn, go on with a copy of the state that
    /// was made before.
    ///
    /// # Errors
    ///
    /// `AllocError` if memory runs out. The state is then as before.
    pub fn stop(&mut self, alloc: Global, mid: Mid) -> Result<(), AllocError>
        ensures stopped { OnOk result (self.new ≡ record self.old {
          places = map (stopped_place (section_named self.old.sections mid) mid) self.old.places;
        }) }
        ensures unchanged { OnErr result (self.new ≡ self.old) }
    {
        let section = section_named(self.sections.as_slice(), mid);
        self.places = stopped_places(alloc, section, mid, self.places.as_slice())?;
        Ok(())
    }
}

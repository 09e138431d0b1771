//! The places of the sections of a browser's text.

ghost use Rattle.std.specs.Prelude.{◌≡◌, ◌++◌, IfOk, OnOk, filter};
ghost use Rattle.rtp_media_browsers.specs.Places.{after_place, at_place, if_any, is_map};
ghost use Rattle.rtp_media_browsers.specs.Places.{is_place_of, is_taken, left, left_at, place_of, placed, placed_from};
ghost use Rattle.rtp_media_browsers.specs.Places.{places_from, rejected, rejected_media};
ghost use Rattle.std.specs.Option.{option_copied};

use crate::bundle::Bundle;
use crate::following::{push_new, section_named};
use crate::request::{SectionRequest, is_accepted};
use crate::state::Place;
use rtp_media_sections::mid_of;
use rtp_wire::Mid;
use sdp_formats_data::{MediaAttribute, MediaLine};
use sdp_formats_grammar::Listed;
use std::alloc::{AllocError, Global};

/// Whether a section of an offer is removed.
pub(crate) fn is_taken(
    bundle: &Bundle<'_>,
    request: Option<&SectionRequest>,
    section: &MediaLine,
) -> bool
    ensures { result ≡ is_taken bundle.now (option_copied request.entry) section.now }
{
    !section.typ.is_media()
        || (section.disabled && !bundle.has_only(section))
        || bundle.is_without(section)
        || !is_accepted(request)
}

/// Whether it maps a payload type.
#[tactic(auto, unfolding(crate::specs::Places::is_map))]
fn is_map(attribute: &MediaAttribute) -> bool
    ensures { result ≡ is_map attribute.now }
{
    matches!(attribute, MediaAttribute::RtpMap { .. })
}

/// Copies of the lines that say what the payload types are.
fn maps_of(
    alloc: Global,
    attributes: &Listed<MediaAttribute>,
) -> Result<Vec<MediaAttribute>, AllocError>
    ensures { IfOk result (λ v. v.items ≡ filter is_map attributes.now) }
{
    let mut maps = MediaAttribute::clone_all(alloc, attributes.as_slice())?.into_vec();
    maps.retain(|attribute| is_map(attribute));
    Ok(maps)
}

/// Adds, for audio and video, the direction, and what the payload types are.
fn push_rejected(
    alloc: Global,
    section: &MediaLine,
    attributes: &mut Vec<MediaAttribute>,
) -> Result<(), AllocError>
    ensures { OnOk result (attributes.new.items ≡ attributes.old.items ++ rejected_media section.now) }
{
    if !section.typ.is_media() {
        return Ok(());
    }
    attributes.push(MediaAttribute::Inactive)?;
    let mut maps = maps_of(alloc, &section.attrs)?;
    attributes.append(&mut maps)
}

/// What is in an answer for a section that is rejected.
pub(crate) fn rejected(alloc: Global, section: &MediaLine) -> Result<MediaLine, AllocError>
    ensures { IfOk result (λ m. m ≡ rejected section.now) }
{
    let mut attrs = Vec::new(alloc);
    attrs.push(MediaAttribute::Mid(mid_of(section)))?;
    push_rejected(alloc, section, &mut attrs)?;
    Ok(MediaLine {
        typ: section.typ.clone(alloc)?,
        disabled: true,
        proto: section.proto,
        pts: section.pts.copied(alloc)?,
        bw: None,
        attrs: Listed::of(attrs),
    })
}

/// The place of a section of an offer.
fn place_of(
    alloc: Global,
    bundle: &Bundle<'_>,
    request: Option<&SectionRequest>,
    section: &MediaLine,
) -> Result<Place, AllocError>
    ensures { IfOk result (λ p. p ≡ place_of bundle.now (option_copied request.entry) section.now) }
{
    if is_taken(bundle, request, section) {
        return Ok(Place::Taken(rejected(alloc, section)?));
    }
    Ok(Place::Kept(mid_of(section)))
}

/// The places of the sections of an offer with this bundle.
pub(crate) fn places_of(
    alloc: Global,
    bundle: &[Mid],
    requests: &[SectionRequest],
    sections: &[MediaLine],
) -> Result<Listed<Place>, AllocError>
    ensures { IfOk result (λ l. l ≡ places_from bundle.now requests.now 0 sections.now) }
{
    let bundle = Bundle::of(alloc, bundle)?;
    let mut places = Listed::new(alloc);
    for (number, section) in sections.iter().enumerate() {
        places.push(place_of(alloc, &bundle, requests.get(number), section)?)?;
    }
    Ok(places)
}

/// Adds the section, if it isn't taken out.
fn push_left(
    alloc: Global,
    place: Option<&Place>,
    section: &MediaLine,
    kept: &mut Vec<MediaLine>,
) -> Result<(), AllocError>
    ensures { OnOk result (kept.new.items ≡ kept.old.items ++ left_at (option_copied place.entry) section.now) }
{
    if matches!(place, Some(Place::Taken(_) | Place::Free(_))) {
        return Ok(());
    }
    kept.push(section.clone(alloc)?)?;
    Ok(())
}

/// The sections that aren't removed.
pub(crate) fn left(
    alloc: Global,
    places: &[Place],
    sections: &[MediaLine],
) -> Result<Vec<MediaLine>, AllocError>
    ensures { IfOk result (λ v. v.items ≡ left places.now sections.now) }
{
    let mut kept = Vec::new(alloc);
    for (number, section) in sections.iter().enumerate() {
        push_left(alloc, places.get(number), section, &mut kept)?;
    }
    Ok(kept)
}

/// The place of a section of the end, if its name is given.
#[tactic(auto, unfolding(crate::specs::Places::is_place_of))]
pub(crate) fn is_place_of(mid: Mid, place: &Place) -> bool
    ensures { result ≡ is_place_of mid place.now }
{
    match place {
        Place::Kept(name) => mid.as_bytes() == name.as_bytes(),
        Place::Taken(_) | Place::Free(_) => false,
    }
}

/// What a browser gets at a place, given the new sections that have no place yet.
#[tactic(auto, unfolding(crate::specs::Places::at_place))]
fn at_place<'a>(
    sections: &'a [MediaLine],
    news: &'a [MediaLine],
    place: &'a Place,
) -> Option<&'a MediaLine>
    ensures { if_any (option_copied result) ≡ at_place sections.now news.now place.now }
{
    match place {
        Place::Taken(section) => Some(section),
        Place::Kept(name) => section_named(sections, *name),
        Place::Free(section) => match news.first() {
            Some(first) => Some(first),
            None => Some(section),
        },
    }
}

/// The new sections that have no place after this one.
#[tactic(auto, unfolding(crate::specs::Places::after_place))]
fn after_place<'a>(place: &Place, news: &'a [MediaLine]) -> &'a [MediaLine]
    ensures { result.now ≡ after_place place.now news.now }
{
    match (place, news) {
        (Place::Free(_), [_, rest @ ..]) => rest,
        _ => news,
    }
}

/// Adds what a browser gets at a place.
fn push_at(
    alloc: Global,
    section: Option<&MediaLine>,
    all: &mut Listed<MediaLine>,
) -> Result<(), AllocError>
    ensures { OnOk result (all.new ≡ all.old ++ if_any (option_copied section.entry)) }
{
    match section {
        Some(section) => all.push(section.clone(alloc)?),
        None => Ok(()),
    }
}

/// Adds copies of sections.
fn push_all(
    alloc: Global,
    sections: &[MediaLine],
    all: &mut Listed<MediaLine>,
) -> Result<(), AllocError>
    ensures { OnOk result (all.new ≡ all.old ++ sections.now) }
{
    for section in sections {
        all.push(section.clone(alloc)?)?;
    }
    Ok(())
}

/// The sections place by place, with new ones at the free places and after them.
fn placed_from(
    alloc: Global,
    sections: &[MediaLine],
    places: &[Place],
    news: &[MediaLine],
) -> Result<Listed<MediaLine>, AllocError>
    ensures { IfOk result (λ l. l ≡ placed_from sections.now places.now news.now) }
{
    let mut all = Listed::new(alloc);
    let mut left = news;
    for place in places {
        push_at(alloc, at_place(sections, left, place), &mut all)?;
        left = after_place(place, left);
    }
    push_all(alloc, left, &mut all)?;
    Ok(all)
}

/// The sections that a browser gets: place by place, with those that are new to it at the free ones and after them.
pub(crate) fn placed(
    alloc: Global,
    places: &[Place],
    olds: &[MediaLine],
    sections: &[MediaLine],
) -> Result<Listed<MediaLine>, AllocError>
    ensures { IfOk result (λ l. l ≡ placed places.now olds.now sections.now) }
{
    let mut news = Listed::new(alloc);
    push_new(alloc, olds, sections, &mut news)?;
    placed_from(alloc, sections, places, news.as_slice())
}

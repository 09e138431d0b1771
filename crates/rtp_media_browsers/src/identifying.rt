//! Sections of an end as a browser is told of them.

ghost use Rattle.std.specs.Prelude.{◌≡◌, ◌++◌, Some, IfOk, OnOk, map};
ghost use Rattle.std.specs.Option.{option_copied};
ghost use Rattle.rtp_media_browsers.specs.Identities.{identified, is_track_of, named_line, named_value};
ghost use Rattle.rtp_media_browsers.specs.Identities.{track_lines, tracks_sent};
ghost use Rattle.rtp_media_sections.specs.Lines.{mid_of};
ghost use Rattle.rtp_wire.specs.Direction.{sends};
ghost use Rattle.sdp_formats_data.specs.Lookups.{direction_of};

use crate::identity::{Identity, Track};
use rtp_media_sections::mid_of;
use rtp_wire::Mid;
use sdp_formats_data::{MediaAttribute, MediaLine};
use sdp_formats_grammar::{Listed, Text};
use std::alloc::{AllocError, Global};

/// The value of a source's attribute.
fn named_value(alloc: Global, cname: &Text, attr: &Text, value: &Text) -> Result<Text, AllocError>
    ensures { IfOk result (λ t. t ≡ named_value cname.now attr.now value.now) }
{
    if attr.as_str() == "cname" {
        return cname.clone(alloc);
    }
    value.clone(alloc)
}

/// An attribute; the CNAME of a source is this one.
#[tactic(auto, unfolding(crate::specs::Identities::named_line))]
fn named_line(
    alloc: Global,
    cname: &Text,
    attribute: &MediaAttribute,
) -> Result<MediaAttribute, AllocError>
    ensures { IfOk result (λ a. a ≡ named_line cname.now attribute.now) }
{
    match attribute {
        MediaAttribute::Ssrc { ssrc, attr, value } => Ok(MediaAttribute::Ssrc {
            ssrc: *ssrc,
            attr: attr.clone(alloc)?,
            value: named_value(alloc, cname, attr, value)?,
        }),
        _ => attribute.clone(alloc),
    }
}

fn named_lines(
    alloc: Global,
    cname: &Text,
    attributes: &[MediaAttribute],
) -> Result<Listed<MediaAttribute>, AllocError>
    ensures { IfOk result (λ l. l ≡ map (named_line cname.now) attributes.now) }
{
    let mut named = Listed::new(alloc);
    for attribute in attributes {
        named.push(named_line(alloc, cname, attribute)?)?;
    }
    Ok(named)
}

fn is_track_of(mid: Mid, track: &Track) -> bool
    ensures { result ≡ is_track_of mid track.now }
{
    track.mid.as_bytes() == mid.as_bytes()
}

/// Adds the streams and tracks of a section.
fn push_tracks(
    alloc: Global,
    tracks: &[Track],
    mid: Mid,
    attributes: &mut Listed<MediaAttribute>,
) -> Result<(), AllocError>
    ensures { OnOk result (attributes.new ≡ attributes.old ++ track_lines tracks.now mid) }
{
    for track in tracks {
        if is_track_of(mid, track) {
            attributes.push(MediaAttribute::Msid(track.msid.clone(alloc)?))?;
        }
    }
    Ok(())
}

/// Adds the streams and tracks of a section that sends.
fn push_sent(
    alloc: Global,
    tracks: &[Track],
    section: &MediaLine,
    attributes: &mut Listed<MediaAttribute>,
) -> Result<(), AllocError>
    ensures { OnOk result (attributes.new
        ≡ attributes.old ++ tracks_sent (sends (direction_of section.now.attrs)) tracks.now (mid_of section.now)) }
{
    if !section.direction().is_sending() {
        return Ok(());
    }
    push_tracks(alloc, tracks, mid_of(section), attributes)
}

/// A section with this CNAME and these tracks.
fn with_identity(
    alloc: Global,
    identity: &Identity,
    section: MediaLine,
) -> Result<MediaLine, AllocError>
    ensures { IfOk result (λ m. m ≡ identified (Some identity.now) section) }
{
    let mut section = section;
    let mut attrs = named_lines(alloc, &identity.cname, section.attrs.as_slice())?;
    push_sent(alloc, identity.tracks.as_slice(), &section, &mut attrs)?;
    section.attrs = attrs;
    Ok(section)
}

/// A section with the end's CNAME and its tracks, if they are given.
pub(crate) fn identified(
    alloc: Global,
    identity: Option<&Identity>,
    section: MediaLine,
) -> Result<MediaLine, AllocError>
    ensures { IfOk result (λ m. m ≡ identified (option_copied identity.entry) section) }
{
    match identity {
        Some(identity) => with_identity(alloc, identity, section),
        None => Ok(section),
    }
}

//! The sections of an end, which stay in all its texts.

ghost use Rattle.std.specs.Prelude.{◌≡◌, ◌++◌, IfOk, OnOk, filter, map};
ghost use Rattle.std.specs.Option.{option_copied};
ghost use Rattle.rtp_media_browsers.specs.Following.{current, following, halted, has_name, is_new, is_of_type};
ghost use Rattle.rtp_media_browsers.specs.Following.{section_named};

use crate::names::mids_of;
use rtp_media_sections::mid_of;
use rtp_wire::Mid;
use sdp_formats_data::{MediaAttribute, MediaLine, NameSet};
use sdp_formats_grammar::Listed;
use std::alloc::{AllocError, Global};

/// Whether it is the section of a name.
pub(crate) fn has_name(mid: Mid, section: &MediaLine) -> bool
    ensures { result ≡ has_name mid section.now }
{
    mid.as_bytes() == mid_of(section).as_bytes()
}

/// The section of a name.
pub(crate) fn section_named(sections: &[MediaLine], mid: Mid) -> Option<&MediaLine>
    ensures { option_copied result ≡ section_named sections.now mid }
{
    for section in sections {
        if has_name(mid, section) {
            return Some(section);
        }
    }
    None
}

/// Whether it says what a payload type is.
#[tactic(auto, unfolding(crate::specs::Following::is_of_type))]
pub(crate) fn is_of_type(attribute: &MediaAttribute) -> bool
    ensures { result ≡ is_of_type attribute.now }
{
    matches!(
        attribute,
        MediaAttribute::RtpMap { .. } | MediaAttribute::Fmtp { .. } | MediaAttribute::RtcpFb { .. }
    )
}

/// Copies of the lines that say what payload types are.
fn type_lines(
    alloc: Global,
    attributes: &Listed<MediaAttribute>,
) -> Result<Vec<MediaAttribute>, AllocError>
    ensures { IfOk result (λ v. v.items ≡ filter is_of_type attributes.now) }
{
    let mut lines = MediaAttribute::clone_all(alloc, attributes.as_slice())?.into_vec();
    lines.retain(|attribute| is_of_type(attribute));
    Ok(lines)
}

/// A section that is stopped, as its end goes on with it.
fn halted(alloc: Global, section: &MediaLine) -> Result<MediaLine, AllocError>
    ensures { IfOk result (λ m. m ≡ halted section.now) }
{
    let mut attrs = Vec::new(alloc);
    attrs.push(MediaAttribute::Mid(mid_of(section)))?;
    attrs.push(MediaAttribute::Inactive)?;
    let mut lines = type_lines(alloc, &section.attrs)?;
    attrs.append(&mut lines)?;
    Ok(MediaLine {
        typ: section.typ.clone(alloc)?,
        disabled: false,
        proto: section.proto,
        pts: section.pts.copied(alloc)?,
        bw: None,
        attrs: Listed::of(attrs),
    })
}

/// What an end is handed for one of its sections.
fn current(alloc: Global, sections: &[MediaLine], old: &MediaLine) -> Result<MediaLine, AllocError>
    ensures { IfOk result (λ m. m ≡ current sections.now old.now) }
{
    match section_named(sections, mid_of(old)) {
        Some(section) => section.clone(alloc),
        None => halted(alloc, old),
    }
}

/// The sections of an end, each as it is now.
fn currents(
    alloc: Global,
    sections: &[MediaLine],
    olds: &[MediaLine],
) -> Result<Listed<MediaLine>, AllocError>
    ensures { IfOk result (λ l. l ≡ map (current sections.now) olds.now) }
{
    let mut all = Listed::new(alloc);
    for old in olds {
        all.push(current(alloc, sections, old)?)?;
    }
    Ok(all)
}

/// Adds copies of the sections that are new to an end.
pub(crate) fn push_new(
    alloc: Global,
    olds: &[MediaLine],
    sections: &[MediaLine],
    all: &mut Listed<MediaLine>,
) -> Result<(), AllocError>
    ensures { OnOk result (all.new ≡ all.old ++ filter (is_new olds.now) sections.now) }
{
    let mids = mids_of(alloc, olds)?;
    let names = NameSet::of(alloc, mids.as_slice())?;
    for section in sections {
        if !names.has(mid_of(section)) {
            all.push(section.clone(alloc)?)?;
        }
    }
    Ok(())
}

/// The sections of an end, each as it is now, and the new ones after them.
pub(crate) fn following(
    alloc: Global,
    olds: &[MediaLine],
    sections: &[MediaLine],
) -> Result<Listed<MediaLine>, AllocError>
    ensures { IfOk result (λ l. l ≡ following olds.now sections.now) }
{
    let mut all = currents(alloc, sections, olds)?;
    push_new(alloc, olds, sections, &mut all)?;
    Ok(all)
}

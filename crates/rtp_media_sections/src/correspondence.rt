//! How lists of sections correspond, by names and kinds.

ghost use Rattle.std.specs.Prelude.{◌≡◌, ◌≤◌, [], length, zip, IfOk, IsTrue};
ghost use Rattle.std.specs.List.{list_all};
ghost use Rattle.rtp_media_sections.specs.Agreement.{begins_with, is_agreed, may_follow};
ghost use Rattle.rtp_media_sections.specs.Sections.{are_distinct, corresponds, has_shape, is_wanted, same_kind};

use crate::agreement::AgreedSection;
use crate::sections::Section;
use crate::wanted::SectionSpec;
use media_types::MediaKind;
use rtp_wire::Mid;
use std::alloc::{AllocError, Global};
use std::collections::BTreeSet;

fn same_kind(a: MediaKind, b: MediaKind) -> bool
    ensures { result ≡ same_kind a b }
{
    match a {
        MediaKind::Audio => b.is_audio(),
        MediaKind::Video => b.is_video(),
    }
}

impl SectionSpec {
    fn has_shape(&self, mid: Mid, kind: MediaKind) -> bool
        ensures { result ≡ has_shape mid kind self.now }
    {
        mid.as_bytes() == self.mid.as_bytes() && same_kind(kind, self.kind)
    }
}

/// Whether the sections of a text are the wanted ones, place by place.
fn are_wanted(sections: &[Section], wanted: &[SectionSpec]) -> bool
    requires { length sections.now ≤ length wanted.now }
    ensures { result ≡ list_all is_wanted (zip sections.now wanted.now) }
{
    for (place, section) in sections.iter().enumerate() {
        if !wanted[place].has_shape(section.mid, section.kind) {
            return false;
        }
    }
    true
}

/// Whether the sections of a text have the names and kinds of the wanted ones, in the same order.
pub fn corresponds(sections: &[Section], wanted: &[SectionSpec]) -> bool
    ensures same { result ≡ corresponds sections.now wanted.now }
    ensures length { IsTrue result → length wanted.now ≡ length sections.now }
{
    sections.len() == wanted.len() && are_wanted(sections, wanted)
}

/// Whether agreed sections are the wanted ones, place by place.
fn are_agreed(agreed: &[AgreedSection], wanted: &[SectionSpec]) -> bool
    requires { length agreed.now ≤ length wanted.now }
    ensures { result ≡ list_all is_agreed (zip agreed.now wanted.now) }
{
    for (place, section) in agreed.iter().enumerate() {
        if !wanted[place].has_shape(section.mid(), section.kind()) {
            return false;
        }
    }
    true
}

fn begins_with(wanted: &[SectionSpec], agreed: &[AgreedSection]) -> bool
    ensures { result ≡ begins_with wanted.now agreed.now }
{
    agreed.len() <= wanted.len() && are_agreed(agreed, wanted)
}

fn are_distinct(alloc: Global, wanted: &[SectionSpec]) -> Result<bool, AllocError>
    ensures { IfOk result (λ distinct. distinct ≡ are_distinct [] wanted.now) }
{
    let mut names = BTreeSet::new(alloc);
    for section in wanted {
        if !names.insert(section.mid.as_str())? {
            return Ok(false);
        }
    }
    Ok(true)
}

/// Whether sections may be exchanged after the agreed ones: there is one, no name is twice, and they begin with
/// the agreed ones.
///
/// # Errors
///
/// `AllocError` if memory runs out.
pub fn may_follow(
    alloc: Global,
    agreed: &[AgreedSection],
    wanted: &[SectionSpec],
) -> Result<bool, AllocError>
    ensures { IfOk result (λ follows. follows ≡ may_follow agreed.now wanted.now) }
{
    Ok(!wanted.is_empty() && are_distinct(alloc, wanted)? && begins_with(wanted, agreed))
}

//! The first fault of a section.

ghost use Rattle.std.specs.Prelude.{◌≡◌, count_by};
ghost use Rattle.std.specs.List.{list_all};
ghost use Rattle.sdp_formats_data.specs.Media.{is_mid};
ghost use Rattle.sdp_formats_data.specs.Consistency.{fault_of, is_consistent, is_direction_of, is_of};
ghost use Rattle.sdp_formats_data.specs.Consistency.{is_setup, last_fault_of, later_fault_of};

use crate::mapped::are_mapped;
use crate::media::{MediaAttribute, MediaLine};
use crate::retransmitted::apts_agree;
use sdp_formats_values::Proto;

// What is counted in a section.
#[derive(Clone, Copy, Drop)]
enum Counted {
    Mid,
    Setup,
    Direction,
}

/// What is wrong with a section.
#[derive(Clone, Copy, Debug, PartialEq, Eq, Drop)]
pub enum Inconsistency {
    /// It has no `a=mid` (RFC 9143 7.2.2).
    MissingMid,
    /// It has more than one `a=mid`.
    SeveralMids,
    /// It has more than one `a=setup` (RFC 4145 4).
    SeveralSetups,
    /// It carries RTP and hasn't exactly one direction (RFC 8866 6.7).
    Directions,
    /// It carries RTP, isn't refused, and lists no payload type.
    NoPayloadType,
    /// A listed payload type has several `a=rtpmap` lines, or none and isn't static (RFC 3551 6).
    RtpMaps,
    /// An RTX payload type has several different `apt` values (RFC 4588 8.6).
    ConflictingApts,
}

/// Is it an `a=mid` line?
#[tactic(auto, unfolding(crate::specs::Media::is_mid))]
fn is_mid(attribute: &MediaAttribute) -> bool
    ensures { result ≡ is_mid attribute.now }
{
    matches!(attribute, MediaAttribute::Mid(_))
}

/// Is it an `a=setup` line?
#[tactic(auto, unfolding(crate::specs::Consistency::is_setup))]
fn is_setup(attribute: &MediaAttribute) -> bool
    ensures { result ≡ is_setup attribute.now }
{
    matches!(attribute, MediaAttribute::Setup(_))
}

/// Is it one of the four directions?
#[tactic(auto, unfolding(crate::specs::Consistency::is_direction_of))]
fn is_direction_of(attribute: &MediaAttribute) -> bool
    ensures { result ≡ is_direction_of attribute.now }
{
    attribute.is_direction()
}

/// Is the attribute one of what is counted?
fn is_of(kind: Counted, attribute: &MediaAttribute) -> bool
    ensures { result ≡ is_of kind attribute.now }
{
    match kind {
        Counted::Mid => is_mid(attribute),
        Counted::Setup => is_setup(attribute),
        Counted::Direction => is_direction_of(attribute),
    }
}

/// How many attributes there are of this kind.
fn count(attributes: &[MediaAttribute], kind: Counted) -> usize
    ensures { result ≡ count_by (is_of kind) attributes.now }
{
    attributes
        .iter()
        .filter(|attribute| is_of(kind, *attribute))
        .count()
}

/// The first fault of mapped types and retransmissions.
fn last_fault(section: &MediaLine) -> Option<Inconsistency>
    ensures { result ≡ last_fault_of section.now }
{
    if !are_mapped(section.attrs.as_slice(), section.pts.as_slice()) {
        return Some(Inconsistency::RtpMaps);
    }
    if !apts_agree(section.attrs.as_slice()) {
        return Some(Inconsistency::ConflictingApts);
    }
    None
}

/// The first fault of direction, payload types and what comes after.
fn later_fault(section: &MediaLine) -> Option<Inconsistency>
    ensures { result ≡ later_fault_of section.now }
{
    let is_rtp = section.proto == Proto::Srtp;
    if is_rtp && count(section.attrs.as_slice(), Counted::Direction) != 1 {
        return Some(Inconsistency::Directions);
    }
    if is_rtp && section.pts.as_slice().is_empty() && !section.disabled {
        return Some(Inconsistency::NoPayloadType);
    }
    last_fault(section)
}

/// Whether no section has a fault.
pub fn are_consistent(sections: &[MediaLine]) -> bool
    ensures { result ≡ list_all is_consistent sections.now }
{
    sections.iter().all(|section| section.is_consistent())
}

impl MediaLine {
    /// The first fault of a section; None if it has none.
    pub fn check_consistent(&self) -> Option<Inconsistency>
        ensures { result ≡ fault_of self.now }
    {
        let mids = count(self.attrs.as_slice(), Counted::Mid);
        if mids == 0 {
            return Some(Inconsistency::MissingMid);
        }
        if mids > 1 {
            return Some(Inconsistency::SeveralMids);
        }
        if count(self.attrs.as_slice(), Counted::Setup) > 1 {
            return Some(Inconsistency::SeveralSetups);
        }
        later_fault(self)
    }

    /// Whether a section has no fault.
    pub fn is_consistent(&self) -> bool
        ensures { result ≡ is_consistent self.now }
    {
        self.check_consistent().is_none()
    }
}

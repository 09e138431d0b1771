//! Whether the parts of a whole text go together.

ghost use Rattle.std.specs.Prelude.{◌≡◌, ◌↔◌, IfOk, IsTrue};
ghost use Rattle.std.specs.List.{filter_map};
ghost use Rattle.std.specs.Option.{option_copied};
ghost use Rattle.sdp_formats_data.specs.Asserted.{AssertsWhole};
ghost use Rattle.sdp_formats_data.specs.Lookups.{first_of};
ghost use Rattle.sdp_formats_data.specs.WholeTexts.{IsWhole, are_apart, belongs, group_in};
ghost use Rattle.sdp_formats_data.specs.WholeTexts.{grouped_mid, lists, mid_of};

use crate::error::SdpError;
use crate::faults::are_consistent;
use crate::media::MediaLine;
use crate::name_set::NameSet;
use crate::session::{Sdp, SessionAttribute};
use crate::value_equality::mid_lists_law;
use rtp_wire::Mid;
use sdp_formats_grammar::Listed;
use std::alloc::{AllocError, Global};

fn are_apart(alloc: Global, names: &[Mid]) -> Result<bool, AllocError>
    ensures { IfOk result (λ r. r ≡ are_apart names.now) }
{
    let names = NameSet::of(alloc, names)?;
    Ok(names.are_apart())
}

fn names_of(alloc: Global, sections: &[MediaLine]) -> Result<Vec<Mid>, AllocError>
    ensures { IfOk result (λ names. names.items ≡ filter_map mid_of sections.now) }
{
    let mut names = Vec::new(alloc);
    for section in sections {
        if let Some(name) = section.mid() {
            names.push(name)?;
        }
    }
    Ok(names)
}

#[tactic(auto, unfolding(crate::specs::WholeTexts::group_in))]
fn first_group(attributes: &[SessionAttribute]) -> Option<&Listed<Mid>>
    ensures { option_copied result ≡ first_of group_in attributes.now }
{
    for attribute in attributes {
        if let SessionAttribute::Group { mids, .. } = attribute {
            return Some(mids);
        }
    }
    None
}

fn lists(mids: &NameSet<'_>, name: Option<Mid>) -> bool
    ensures { result ≡ lists mids.now name }
{
    match name {
        Some(name) => mids.has(name),
        None => false,
    }
}

fn belongs(mids: &NameSet<'_>, section: &MediaLine) -> bool
    ensures { result ≡ belongs mids.now section.now }
{
    !section.disabled || lists(mids, section.mid())
}

fn grouped_mid(mids: &NameSet<'_>, section: &MediaLine) -> Option<Mid>
    ensures { result ≡ grouped_mid mids.now section.now }
{
    if belongs(mids, section) {
        return section.mid();
    }
    None
}

fn grouped(
    alloc: Global,
    mids: &NameSet<'_>,
    sections: &[MediaLine],
) -> Result<Vec<Mid>, AllocError>
    ensures { IfOk result (λ names. names.items ≡ filter_map (grouped_mid mids.now) sections.now) }
{
    let mut names = Vec::new(alloc);
    for section in sections {
        if let Some(name) = grouped_mid(mids, section) {
            names.push(name)?;
        }
    }
    Ok(names)
}

fn is_grouped(alloc: Global, mids: &Listed<Mid>, sections: &[MediaLine]) -> Result<bool, AllocError>
    ensures { IfOk result (λ r. IsTrue r ↔ (mids.now ≡ filter_map (grouped_mid mids.now) sections.now)) }
{
    let listed = NameSet::of(alloc, mids.as_slice())?;
    let names = Listed::of(grouped(alloc, &listed, sections)?);
    mid_lists_law();
    Ok(*mids == names)
}

impl Sdp {
    /// Whether the parts of a text go together: no section has a fault, no two have one name, and the first `a=group`
    /// names the sections that are in use, with those of port 0 that it names, in their order (RFC 9143 7).
    ///
    /// # Errors
    ///
    /// `AllocError` if memory runs out.
    pub fn is_whole(&self, alloc: Global) -> Result<bool, AllocError>
        ensures { IfOk result (λ r. IsTrue r ↔ IsWhole self.now) }
    {
        let sections = self.media_lines.as_slice();
        let names = names_of(alloc, sections)?;
        if !are_consistent(sections) || !are_apart(alloc, names.as_slice())? {
            return Ok(false);
        }
        match first_group(self.session.attrs.as_slice()) {
            Some(mids) => is_grouped(alloc, mids, sections),
            None => Ok(false),
        }
    }
    /// Tests that the parts of a text go together, as `is_whole` tells.
    ///
    /// # Errors
    ///
    /// `Inconsistent` if they don't go together; `Memory` if memory runs out.
    pub fn assert_consistency(&self, alloc: Global) -> Result<(), SdpError>
        ensures { AssertsWhole self.now result }
    {
        if self.is_whole(alloc)? {
            return Ok(());
        }
        let text = String::from_str(
            alloc,
            "a section with a fault, names that aren't apart, or another group",
        )?;
        Err(SdpError::Inconsistent(text))
    }
}

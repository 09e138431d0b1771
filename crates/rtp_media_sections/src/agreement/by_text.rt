//! Agreed sections with the rows of a text.

ghost use Rattle.std.specs.Prelude.{◌≡◌, IfOk, filter, find};
ghost use Rattle.std.specs.Option.{option_copied};
ghost use Rattle.rtp_media_sections.specs.Agreement.{has_alike, is_text_of, with_text};

use super::AgreedSection;
use crate::meaning::has_alike;
use crate::sections::Section;
use crate::ssrc_list::SsrcList;
use sdp_formats_rows::PayloadParams;
use std::alloc::{AllocError, Global};

fn is_text_of(agreed: &AgreedSection, section: &Section) -> bool
    ensures { result ≡ is_text_of agreed.now section.now }
{
    section.is_media && section.mid.as_bytes() == agreed.mid.as_bytes()
}

/// The section of a text that is that of an agreed one.
fn section_for<'a>(sections: &'a [Section], agreed: &AgreedSection) -> Option<&'a Section>
    ensures { option_copied result ≡ find (is_text_of agreed.now) sections.now }
{
    for section in sections {
        if is_text_of(agreed, section) {
            return Some(section);
        }
    }
    None
}

/// Those of the rows that an end has under some type.
fn rows_alike(
    alloc: Global,
    own: &[PayloadParams],
    rows: &[PayloadParams],
) -> Result<Vec<PayloadParams>, AllocError>
    ensures { IfOk result (λ left. left.items ≡ filter (has_alike own.now) rows.now) }
{
    let mut left = Vec::new(alloc);
    for row in rows {
        if has_alike(own, row) {
            left.push(*row)?;
        }
    }
    Ok(left)
}

impl AgreedSection {
    /// Whether its rows were taken from a text after the exchange, and need not be those under which the end's rows are
    /// locked.
    pub fn goes_by_text(&self) -> bool
        ensures { result ≡ self.now.by_text }
    {
        self.by_text
    }

    /// A copy of the section with these rows.
    fn with_rows(
        &self,
        alloc: Global,
        rows: Vec<PayloadParams>,
        by_text: bool,
    ) -> Result<Self, AllocError>
        ensures { IfOk result (λ a. a ≡ record self.now { rows = rows.items; by_text = by_text }) }
    {
        Ok(AgreedSection {
            mid: self.mid,
            kind: self.kind,
            rows,
            exts: self.exts.clone(alloc)?,
            own_ssrcs: SsrcList::of(alloc, Vec::from_slice(alloc, self.own_ssrcs.as_slice())?)?,
            remote_ssrcs: SsrcList::of(
                alloc,
                Vec::from_slice(alloc, self.remote_ssrcs.as_slice())?,
            )?,
            own_repairs: self.own_repairs.clone()?,
            remote_repairs: self.remote_repairs.clone()?,
            sends: self.sends,
            receives: self.receives,
            by_text,
        })
    }

    /// A copy of the section with the rows that a text's section of its name lists, as far as an end with these rows
    /// has them under some type; a section that the text doesn't have, or rejects, is copied as it is.
    ///
    /// # Errors
    ///
    /// `AllocError` if memory runs out.
    pub fn with_text(
        &self,
        alloc: Global,
        own: &[PayloadParams],
        sections: &[Section],
    ) -> Result<Self, AllocError>
        ensures { IfOk result (λ a. a ≡ with_text own.now sections.now self.now) }
    {
        match section_for(sections, self) {
            Some(section) => {
                let rows = rows_alike(alloc, own, section.rows.as_slice())?;
                self.with_rows(alloc, rows, true)
            }
            None => self.with_rows(alloc, self.rows.clone()?, self.by_text),
        }
    }
}

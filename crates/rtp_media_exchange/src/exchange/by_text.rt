//! Agreed sections that go by a text of their own.

ghost use Rattle.std.specs.Prelude.{◌≡◌, IfErr, OnErr, OnOk, IfOk, map};
ghost use Rattle.rtp_media_exchange.specs.Reading.{IsUnread};
ghost use Rattle.rtp_media_exchange.specs.TakenTypes.{TakesTypes};
ghost use Rattle.rtp_media_sections.specs.Agreement.{with_text};

use super::Exchange;
use crate::errors::ExchangeError;
use crate::said_sections::read;
use rtp_media_sections::{AgreedSection, Section};
use sdp_formats_rows::PayloadParams;
use std::alloc::{AllocError, Global};

/// Copies of agreed sections, each with the rows of a text's section of its name.
fn with_texts(
    alloc: Global,
    own: &[PayloadParams],
    sections: &[Section],
    agreed: &[AgreedSection],
) -> Result<Vec<AgreedSection>, AllocError>
    ensures { IfOk result (λ all. all.items ≡ map (with_text own.now sections.now) agreed.now) }
{
    let mut all = Vec::new(alloc);
    for section in agreed {
        all.push(section.with_text(alloc, own, sections)?)?;
    }
    Ok(all)
}

impl Exchange {
    /// Takes the rows of the agreed sections from a text, each from the section of its name: payload types, types of
    /// retransmissions and of redundancy are those that the section lists, as far as the end has such rows under some
    /// type. Sections that the text doesn't have, or rejects, and all else stay as they are.
    ///
    /// # Errors
    ///
    /// `Unreadable`; or `Memory`. Nothing has then changed.
    pub fn take_types(&mut self, text: &str) -> Result<(), ExchangeError>
        ensures after { OnOk result (TakesTypes self.old text.now self.new) }
        ensures refused { IfErr result (λ e. IsUnread text.now e) }
        ensures unchanged { OnErr result (self.new ≡ self.old) }
    {
        let sections = read(self.alloc, text)?;
        self.agreed = with_texts(
            self.alloc,
            self.config.params(),
            sections.as_slice(),
            self.agreed.as_slice(),
        )?;
        Ok(())
    }
}

//! Answers to offers, and their acceptance.

ghost use Rattle.std.specs.Prelude.{◌≡◌, string_bytes, IfOk, IfErr, IsTrue, OnOk, OnErr};
ghost use Rattle.rtp_media_exchange.specs.Offers.{Accepts, Answers};
ghost use Rattle.rtp_media_exchange.specs.Refusals.{MayAccept, MayAnswer, RefusesAccept, RefusesAnswer};
ghost use Rattle.rtp_media_exchange.specs.Says.{AgreesOnText};
ghost use Rattle.rtp_media_sections.specs.Sections.{are_sound};

use super::Exchange;
use crate::agree::accepted_agreement;
use crate::answering::written;
use crate::errors::ExchangeError;
use crate::said_sections::read;
use rtp_media_sections::{
    SectionSpec, printable_sections_law, printed_sections_law, read_sections_keep_rows,
    wanted_sections_law,
};

impl Exchange {
    /// The text of the answer to an offer, of these sections; it is then agreed. A round runs with each offered
    /// section: rows that match are locked under the types that were offered, and the answer lists those of them.
    ///
    /// # Conditions
    ///
    /// The repairs of each section fit its SSRCs (`SectionSpec::is_sound`).
    ///
    /// # Errors
    ///
    /// The first that holds of `Unreadable`, `OutOfTurn`, `NotMedia`, `NotCorresponding`, `Round`, `NoCommonRow` and
    /// `NotWritable`; or `Memory`. Nothing has then changed.
    pub fn answer(
        &mut self,
        text: &str,
        sections: Vec<SectionSpec>,
    ) -> Result<String, ExchangeError>
        requires sound { IsTrue (are_sound sections.items) }
        ensures text { IfOk result (λ answer. Answers self.old text.now sections.items (string_bytes answer) self.new) }
        ensures agreed { IfOk result (λ answer. AgreesOnText (string_bytes answer) self.new.agreed) }
        ensures accepted { OnOk result (MayAnswer self.old text.now sections.items) }
        ensures refused { IfErr result (λ e. RefusesAnswer self.old text.now sections.items e) }
        ensures unchanged { OnErr result (self.new ≡ self.old) }
    {
        let offer = read(self.alloc, text)?;
        let (config, answer) = self.settle_answer(offer.as_slice(), sections.as_slice())?;
        let (text, agreed) = written(
            self.alloc,
            &self.session,
            sections.as_slice(),
            offer.as_slice(),
            answer.as_slice(),
        )?;
        printed_sections_law();
        printable_sections_law();
        read_sections_keep_rows();
        wanted_sections_law();
        self.config = config;
        self.agreed = agreed;
        Ok(text)
    }

    /// Takes the text of the answer to the pending offer; it is then agreed. A round runs with each section of the
    /// answer.
    ///
    /// # Errors
    ///
    /// The first that holds of `Unreadable`, `OutOfTurn`, `NotMedia`, `NotCorresponding`, `Round` and `NoCommonRow` (no
    /// locked row has the type of a row of this section); or `Memory`. Nothing has then changed, and the offer is still
    /// pending.
    pub fn accept(&mut self, text: &str) -> Result<(), ExchangeError>
        ensures after { OnOk result (Accepts self.old text.now self.new) }
        ensures agreed { OnOk result (AgreesOnText text.now self.new.agreed) }
        ensures accepted { OnOk result (MayAccept self.old text.now) }
        ensures refused { IfErr result (λ e. RefusesAccept self.old text.now e) }
        ensures unchanged { OnErr result (self.new ≡ self.old) }
    {
        let answer = read(self.alloc, text)?;
        let Some(pending) = &self.pending else {
            return Err(ExchangeError::OutOfTurn);
        };
        let wanted = pending.sections.as_slice();
        let config = self.settle_accept(answer.as_slice(), wanted)?;
        let agreed = accepted_agreement(self.alloc, wanted, answer.as_slice())?;
        read_sections_keep_rows();
        self.config = config;
        self.agreed = agreed;
        self.pending = None;
        Ok(())
    }
}

//! Offers.

ghost use Rattle.std.specs.Prelude.{◌≡◌, None, Some, find, string_bytes, IfOk, IfErr, IsTrue, OnOk, OnErr};
ghost use Rattle.rtp_media_exchange.specs.Exchanges.{with_offer};
ghost use Rattle.rtp_media_exchange.specs.Offers.{offer_of};
ghost use Rattle.rtp_media_exchange.specs.Refusals.{Refuses, lists_none, no_row_of, not_written, refusal_of_offer};
ghost use Rattle.rtp_media_exchange.specs.Requests.{SaysOffer};
ghost use Rattle.rtp_media_sections.specs.Sections.{are_sound};
ghost use Rattle.sdp_formats_data.specs.PrintedSession.{sdp_text};

use super::{Exchange, Pending};
use crate::errors::ExchangeError;
use crate::offered::{check_listed, check_named, offered_sections};
use crate::print::text_of;
use crate::widths::pass_sections;
use rtp_media_sections::{
    SectionSpec, may_follow, printable_sections_law, printed_sections_law, wanted_sections_law,
};

impl Exchange {
    /// That these sections may be offered.
    ///
    /// # Errors
    ///
    /// The first that holds of `OutOfTurn`, `NotCorresponding`, `NoCommonRow` and `NotWritable`; or `Memory`.
    #[tactic(auto, unfolding(crate::specs::Refusals::refusal_of_offer))]
    fn check_offer(&self, wanted: &[SectionSpec]) -> Result<(), ExchangeError>
        ensures ok { OnOk result (refusal_of_offer self.now wanted.now ≡ None) }
        ensures listed { OnOk result (no_row_of (find (lists_none self.now.config.rows) wanted.now) ≡ None) }
        ensures named { OnOk result (not_written wanted.now ≡ None) }
        ensures refused { IfErr result (λ e. Refuses e (refusal_of_offer self.now wanted.now)) }
    {
        if self.pending.is_some() {
            return Err(ExchangeError::OutOfTurn);
        }
        if !may_follow(self.alloc, self.agreed.as_slice(), wanted)? {
            return Err(ExchangeError::NotCorresponding);
        }
        check_listed(&self.config, wanted)?;
        check_named(wanted)?;
        Ok(())
    }

    /// The text of an offer of these sections; it is then pending. A later offer begins with the sections that were
    /// agreed last.
    ///
    /// # Conditions
    ///
    /// The repairs of each section fit its SSRCs (`SectionSpec::is_sound`).
    ///
    /// # Errors
    ///
    /// The first that holds of `OutOfTurn`, `NotCorresponding`, `NoCommonRow` and `NotWritable`; or `Memory`. Nothing
    /// has then changed.
    #[tactic(auto, unfolding(crate::specs::Offers::offer_of))]
    pub fn offer(&mut self, sections: Vec<SectionSpec>) -> Result<String, ExchangeError>
        requires sound { IsTrue (are_sound sections.items) }
        ensures text { IfOk result (λ text. string_bytes text ≡ sdp_text (offer_of self.old sections.items)) }
        ensures says { IfOk result (λ text. SaysOffer (string_bytes text) sections.items) }
        ensures accepted { OnOk result (refusal_of_offer self.old sections.items ≡ None) }
        ensures pending { OnOk result (self.new ≡ with_offer self.old (Some sections.items)) }
        ensures refused { IfErr result (λ e. Refuses e (refusal_of_offer self.old sections.items)) }
        ensures unchanged { OnErr result (self.new ≡ self.old) }
    {
        self.check_offer(sections.as_slice())?;
        let offered = offered_sections(self.alloc, &self.exts, &self.config, sections.as_slice())?;
        let text = text_of(self.alloc, &self.session, offered.as_slice())?;
        pass_sections(sections.as_slice());
        printed_sections_law();
        printable_sections_law();
        wanted_sections_law();
        self.pending = Some(Pending { sections });
        Ok(text)
    }
}

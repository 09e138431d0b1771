//! What the sections of a text come to at an end.

ghost use Rattle.std.specs.Prelude.{◌≡◌, None, Ok, Some, length, map, IfOk, IfErr, IsTrue, OnOk};
ghost use Rattle.sdp_formats_rounds.specs.Laws.{rounds};
ghost use Rattle.rtp_media_exchange.specs.Offers.{answered_sections};
ghost use Rattle.rtp_media_exchange.specs.Answering.{HasWidths};
ghost use Rattle.rtp_media_exchange.specs.Refusals.{Refuses, no_answer, not_written, refusal_by_offer};
ghost use Rattle.rtp_media_exchange.specs.Refusals.{refusal_of_answer, refusal_of_sections};
ghost use Rattle.sdp_formats_rounds.specs.Members.{IsEach};
ghost use Rattle.rtp_media_sections.specs.Lines.{remote_of};
ghost use Rattle.rtp_media_sections.specs.Sections.{corresponds};

use super::Exchange;
use crate::answering::answered_sections;
use crate::errors::ExchangeError;
use crate::offered::check_named;
use crate::settle::{check_accepted, check_media, settled};
use crate::widths::pass_sections;
use rtp_media_sections::{Section, SectionSpec, corresponds, may_follow};
use sdp_formats_rounds::CodecConfig;

impl Exchange {
    /// The config after the rounds with the sections of a text, if these are exchanged for wanted ones.
    #[tactic(auto, unfolding(crate::specs::Refusals::refusal_of_sections))]
    fn settle(
        &self,
        sections: &[Section],
        wanted: &[SectionSpec],
    ) -> Result<CodecConfig, ExchangeError>
        ensures rows { IfOk result (λ c. rounds (map remote_of sections.now) self.now.config.rows ≡ Ok c.rows) }
        ensures distances { IfOk result (λ c. c.distances ≡ self.now.config.distances) }
        ensures length { OnOk result (length wanted.now ≡ length sections.now) }
        ensures shapes { OnOk result (IsTrue (corresponds sections.now wanted.now)) }
        ensures accepted { OnOk result (refusal_of_sections self.now sections.now wanted.now ≡ None) }
        ensures refused { IfErr result (λ e. Refuses e (refusal_of_sections self.now sections.now wanted.now)) }
    {
        check_media(sections)?;
        if !corresponds(sections, wanted)
            || !may_follow(self.alloc, self.agreed.as_slice(), wanted)?
        {
            return Err(ExchangeError::NotCorresponding);
        }
        settled(&self.config, sections)
    }

    /// The config after the rounds with offered sections, and the sections that answer them.
    ///
    /// # Errors
    ///
    /// The first that holds of `OutOfTurn`, `NotMedia`, `NotCorresponding`, `Round`, `NoCommonRow` and `NotWritable`;
    /// or `Memory`.
    #[tactic(auto, unfolding(crate::specs::Refusals::refusal_of_answer))]
    pub(crate) fn settle_answer(
        &self,
        offer: &[Section],
        wanted: &[SectionSpec],
    ) -> Result<(CodecConfig, Vec<Section>), ExchangeError>
        ensures rows { IfOk result (λ s. rounds (map remote_of offer.now) self.now.config.rows ≡ Ok s.0.rows) }
        ensures distances { IfOk result (λ s. s.0.distances ≡ self.now.config.distances) }
        ensures length { OnOk result (length wanted.now ≡ length offer.now) }
        ensures shapes { OnOk result (IsTrue (corresponds offer.now wanted.now)) }
        ensures answer { IfOk result (λ s. s.1.items
            ≡ answered_sections self.now.wanted s.0.rows wanted.now offer.now) }
        ensures listed { IfOk result (λ s. no_answer s.0.rows offer.now ≡ None) }
        ensures written { OnOk result (not_written wanted.now ≡ None) }
        ensures widths { OnOk result (IsEach HasWidths wanted.now) }
        ensures free { OnOk result (self.now.pending ≡ None) }
        ensures accepted { OnOk result (refusal_of_answer self.now offer.now wanted.now ≡ None) }
        ensures refused { IfErr result (λ e. Refuses e (refusal_of_answer self.now offer.now wanted.now)) }
    {
        if self.pending.is_some() {
            return Err(ExchangeError::OutOfTurn);
        }
        let config = self.settle(offer, wanted)?;
        let answer = answered_sections(self.alloc, &self.exts, &config, wanted, offer)?;
        check_named(wanted)?;
        pass_sections(wanted);
        Ok((config, answer))
    }

    /// The config after the rounds with the sections of an answer to wanted ones that are pending.
    ///
    /// # Errors
    ///
    /// The first that holds of `NotMedia`, `NotCorresponding`, `Round` and `NoCommonRow`; or `Memory`.
    pub(crate) fn settle_accept(
        &self,
        answer: &[Section],
        wanted: &[SectionSpec],
    ) -> Result<CodecConfig, ExchangeError>
        ensures rows { IfOk result (λ c. rounds (map remote_of answer.now) self.now.config.rows ≡ Ok c.rows) }
        ensures distances { IfOk result (λ c. c.distances ≡ self.now.config.distances) }
        ensures length { OnOk result (length wanted.now ≡ length answer.now) }
        ensures accepted { OnOk result (refusal_by_offer self.now answer.now (Some wanted.now) ≡ None) }
        ensures refused { IfErr result (λ e. Refuses e (refusal_by_offer self.now answer.now (Some wanted.now))) }
    {
        let config = self.settle(answer, wanted)?;
        check_accepted(&config, answer)?;
        Ok(config)
    }
}

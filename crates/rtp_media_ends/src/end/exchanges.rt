//! Exchanges of texts between two ends.

ghost use Rattle.std.specs.Prelude.{◌≡◌, ◌≢◌, None, Some, is_some, string_bytes, IfOk, IfErr, IsTrue, OnOk, OnErr};
ghost use Rattle.sdp_formats_data.specs.PrintedSession.{sdp_text};
ghost use Rattle.rtp_media_exchange.specs.Exchanges.{with_offer};
ghost use Rattle.rtp_media_exchange.specs.Offers.{Accepts, Answers, offer_of};
ghost use Rattle.rtp_media_exchange.specs.Refusals.{MayAccept, MayAnswer, Refuses, RefusesAccept, RefusesAnswer};
ghost use Rattle.rtp_media_exchange.specs.Refusals.{RefusesNew, refusal_of_new, refusal_of_offer};
ghost use Rattle.sdp_formats_reader.specs.Writable.{IsWritableSession};
ghost use Rattle.rtp_media_exchange.specs.Says.{AgreesOnText};
ghost use Rattle.rtp_media_exchange.specs.Reading.{IsUnread};
ghost use Rattle.rtp_media_exchange.specs.Requests.{SaysOffer};
ghost use Rattle.rtp_media_exchange.specs.TakenTypes.{TakesTypes};
ghost use Rattle.rtp_media_sections.specs.Sections.{are_sound};
ghost use Rattle.rtp_media_ends.specs.Ends.{new_end, with_exchange};
ghost use Rattle.rtp_media_ends.specs.Connections.{Connects, HaveExchanged, HaveOneAgreement, IsRefused};

use super::End;
use rtp_media_exchange::{EndError, Exchange, ExchangeError, mutual_law, one_agreement_law};
use rtp_media_sections::SectionSpec;
use rtp_media_stream_table::StreamTable;
use rtp_wire::ExtensionMap;
use sdp_formats_data::Session;
use sdp_formats_rounds::CodecConfig;
use std::alloc::Global;

impl End {
    /// An end of these rows, session and wanted header extensions (RFC 8285), which has agreed on nothing. The
    /// session's bandwidth and attributes are in each text that the end writes, the attributes after the bundle.
    ///
    /// # Errors
    /// The first that holds of `RowNotPlain`, `TypesNotDistinct` and `NotWritable`; or `Memory`.
    pub fn new(
        alloc: Global,
        config: CodecConfig,
        session: Session,
        exts: ExtensionMap,
    ) -> Result<Self, EndError>
        ensures new { IfOk result (λ e. e ≡ new_end session exts config) }
        ensures accepted { OnOk result (refusal_of_new config.rows exts ≡ None) }
        ensures writable { OnOk result (IsWritableSession session) }
        ensures refused { IfErr result (λ e. e ≢ EndError.Memory → RefusesNew config.rows session exts e) }
    {
        Ok(End {
            alloc,
            exchange: Exchange::new(alloc, config, session, exts)?,
            streams: StreamTable::new(alloc),
        })
    }

    /// The text of an offer of these sections (RFC 3264 5); it is then pending. A later offer begins with the sections
    /// that were agreed last.
    ///
    /// # Conditions
    /// The repairs of each section fit its SSRCs: [`SectionSpec::is_sound`].
    ///
    /// # Errors
    /// The first that holds of `OutOfTurn`, `NotCorresponding`, `NoCommonRow` and `NotWritable`; or
    /// `Memory`. The end is then unchanged.
    pub fn offer(&mut self, sections: Vec<SectionSpec>) -> Result<String, ExchangeError>
        requires sound { IsTrue (are_sound sections.items) }
        ensures says { IfOk result (λ text. SaysOffer (string_bytes text) sections.items) }
        ensures text { IfOk result (λ text. string_bytes text ≡ sdp_text (offer_of self.old.exchange sections.items)) }
        ensures accepted { OnOk result (refusal_of_offer self.old.exchange sections.items ≡ None) }
        ensures after { OnOk result (self.new ≡ with_exchange self.old
            (with_offer self.old.exchange (Some sections.items))) }
        ensures refused { IfErr result (λ e. Refuses e (refusal_of_offer self.old.exchange sections.items)) }
        ensures unchanged { OnErr result (self.new ≡ self.old) }
    {
        let exchange = &mut self.exchange;
        exchange.offer(sections)
    }

    /// The text of the answer to an offer, of these sections (RFC 3264 6); it is then agreed. Streams that are open
    /// stay as they are.
    ///
    /// # Conditions
    /// The repairs of each section fit its SSRCs: [`SectionSpec::is_sound`].
    ///
    /// # Errors
    /// The first that holds of `Unreadable`, `OutOfTurn`, `NotMedia`, `NotCorresponding`, `Round`, `NoCommonRow` and
    /// `NotWritable`; or `Memory`. The end is then unchanged.
    pub fn answer(
        &mut self,
        text: &str,
        sections: Vec<SectionSpec>,
    ) -> Result<String, ExchangeError>
        requires sound { IsTrue (are_sound sections.items) }
        ensures text { IfOk result (λ answer. Answers self.old.exchange text.now sections.items (string_bytes answer)
            self.new.exchange) }
        ensures agreed { IfOk result (λ answer. AgreesOnText (string_bytes answer) self.new.exchange.agreed) }
        ensures accepted { OnOk result (MayAnswer self.old.exchange text.now sections.items) }
        ensures streams { self.new ≡ with_exchange self.old self.new.exchange }
        ensures refused { IfErr result (λ e. RefusesAnswer self.old.exchange text.now sections.items e) }
        ensures unchanged { OnErr result (self.new ≡ self.old) }
    {
        let exchange = &mut self.exchange;
        exchange.answer(text, sections)
    }

    /// Takes the text of the answer to the pending offer (RFC 3264 7); it is then agreed.
    ///
    /// # Errors
    /// The first that holds of `Unreadable`, `OutOfTurn`, `NotMedia`, `NotCorresponding`, `Round` and `NoCommonRow`; or
    /// `Memory`. The end is then unchanged, and the offer still pending.
    pub fn accept(&mut self, text: &str) -> Result<(), ExchangeError>
        ensures after { OnOk result (Accepts self.old.exchange text.now self.new.exchange) }
        ensures agreed { OnOk result (AgreesOnText text.now self.new.exchange.agreed) }
        ensures accepted { OnOk result (MayAccept self.old.exchange text.now) }
        ensures streams { self.new ≡ with_exchange self.old self.new.exchange }
        ensures refused { IfErr result (λ e. RefusesAccept self.old.exchange text.now e) }
        ensures unchanged { OnErr result (self.new ≡ self.old) }
    {
        let exchange = &mut self.exchange;
        exchange.accept(text)
    }

    /// Takes the rows of the agreed sections from a text, each from the section of its name (RFC 3264 6.1): the streams
    /// that are opened from then on have the payload types, the types of retransmissions and of redundancy that this
    /// section lists, as far as the end has such rows under some type. Sections that the text doesn't have, or rejects,
    /// and streams that are open stay as they are.
    ///
    /// For an answer to a browser hand it the browser's text of the answer, for a browser's answer what `accept` took.
    ///
    /// # Errors
    /// `Unreadable`; or `Memory`. The end is then unchanged.
    pub fn take_types(&mut self, text: &str) -> Result<(), ExchangeError>
        ensures after { OnOk result (TakesTypes self.old.exchange text.now self.new.exchange) }
        ensures streams { self.new ≡ with_exchange self.old self.new.exchange }
        ensures refused { IfErr result (λ e. IsUnread text.now e) }
        ensures unchanged { OnErr result (self.new ≡ self.old) }
    {
        let exchange = &mut self.exchange;
        exchange.take_types(text)
    }

    /// Whether an offer was pending, which is now given up; all else stays.
    pub fn withdraw(&mut self) -> bool
        ensures was { result ≡ is_some self.old.exchange.pending }
        ensures after { self.new ≡ with_exchange self.old (with_offer self.old.exchange None) }
    {
        let exchange = &mut self.exchange;
        exchange.withdraw()
    }
}

/// Has `a` offer, `b` answer and `a` accept, and returns both texts. Both ends have then agreed on the
/// rows and the map of header extensions of each section of the answer, and each takes the repairs that the other
/// names.
///
/// # Conditions
/// The repairs of each section fit its SSRCs: [`SectionSpec::is_sound`].
///
/// # Errors
/// What the first refused call answers. If `b`'s answer is refused, `a`'s offer stays pending;
/// if `a` refuses the answer, its offer stays pending too, and `b` has agreed.
pub fn connect(
    a: &mut End,
    b: &mut End,
    sections_a: Vec<SectionSpec>,
    sections_b: Vec<SectionSpec>,
) -> Result<(String, String), ExchangeError>
    requires sound_a { IsTrue (are_sound sections_a.items) }
    requires sound_b { IsTrue (are_sound sections_b.items) }
    ensures texts { IfOk result (λ texts. Connects a.old b.old sections_a.items sections_b.items
        (string_bytes texts.0) (string_bytes texts.1) a.new b.new) }
    ensures exchanged { IfOk result (λ texts. HaveExchanged (string_bytes texts.1) a.new b.new) }
    ensures agree { OnOk result (HaveOneAgreement a.new.exchange.agreed b.new.exchange.agreed) }
    ensures refused { IfErr result (λ e. IsRefused a.old b.old sections_a.items sections_b.items e a.new b.new) }
{
    one_agreement_law();
    mutual_law();
    let offer = a.offer(sections_a)?;
    let answer = match b.answer(offer.as_str(), sections_b) {
        Ok(answer) => answer,
        Err(refusal) => return Err(refusal),
    };
    match a.accept(answer.as_str()) {
        Ok(()) => Ok((offer, answer)),
        Err(refusal) => Err(refusal),
    }
}

//! Offers, answers and what they agree on.

ghost use Rattle.std.specs.Prelude.{◌≡◌, ◌≢◌, None, is_some, IfOk, IfErr, OnOk};
ghost use Rattle.std.specs.Option.{option_copied};
ghost use Rattle.rtp_media_exchange.specs.Exchanges.{fixed, fresh, with_offer};
ghost use Rattle.rtp_media_exchange.specs.Refusals.{RefusesNew, refusal_of_new};
ghost use Rattle.rtp_media_sections.specs.Agreement.{own_row_agrees, section_of};
ghost use Rattle.sdp_formats_reader.specs.Writable.{IsWritableSession};

mod answer;
mod by_text;
mod offer;
mod settle;

use crate::errors::{EndError, ExchangeError};
use crate::fixed::fixed_config;
use crate::named::section_named;
use crate::plain::check_new;
use rtp_media_sections::{AgreedSection, SectionSpec, own_row_agrees};
use rtp_wire::{ExtensionMap, Mid, SessionId};
use sdp_formats_data::Session;
use sdp_formats_laws::formats_law;
use sdp_formats_rounds::CodecConfig;
use sdp_formats_rows::PayloadParams;
use std::alloc::{AllocError, Global};
use std::marker::Model;

/// What an end keeps of its exchanges: its session, the header extensions that it wants, its rows, an offer that waits
/// for its answer, and what was agreed last.
#[derive(Debug)]
pub struct Exchange {
    alloc: Global,
    session: Session,
    exts: ExtensionMap,
    config: CodecConfig,
    pending: Option<Pending>,
    agreed: Vec<AgreedSection>,
}

/// Written by hand, so that crates that drop this type need no proof about its fields.
impl Drop for Exchange {
    fn drop(self) {
        let Exchange {
            alloc: _alloc,
            session: _session,
            exts: _exts,
            config: _config,
            pending: _pending,
            agreed: _agreed,
        } = self;
    }
}

/// The sections of a pending offer.
#[derive(Debug, Drop)]
pub(crate) struct Pending {
    sections: Vec<SectionSpec>,
}

impl Model for Pending {
    ghost use Rattle.std.specs.Prelude.{List};
    ghost use Rattle.rtp_media_sections.specs.Sections.{Wanted};

    ghost Value = { List Wanted };

    ghost view = { λ p. p.sections.items };
}

impl Model for Exchange {
    ghost use Rattle.rtp_media_exchange.specs.Exchanges.{Exchanged, IsKept};

    ghost Value = { Exchanged };

    ghost view = { λ x. record {
      session = x.session;
      wanted = x.exts;
      config = x.config;
      pending = x.pending;
      agreed = x.agreed.items;
    } };

    ghost invariant = { λ x. IsKept x.session x.exts x.config.rows };
}

impl Exchange {
    /// An end's exchanges before the first one: its rows, its session and its map of extensions. The session's
    /// bandwidth and attributes are in each text that the end writes, the attributes after the bundle.
    ///
    /// # Errors
    ///
    /// The first that holds of `RowNotPlain`, `TypesNotDistinct` and `NotWritable`; or `Memory`.
    pub fn new(
        alloc: Global,
        config: CodecConfig,
        session: Session,
        exts: ExtensionMap,
    ) -> Result<Self, EndError>
        ensures new { IfOk result (λ x. x ≡ fresh session exts config) }
        ensures accepted { OnOk result (refusal_of_new config.rows exts ≡ None) }
        ensures writable { OnOk result (IsWritableSession session) }
        ensures refused { IfErr result (λ e. e ≢ EndError.Memory → RefusesNew config.rows session exts e) }
    {
        check_new(alloc, config.params(), &session, &exts)?;
        Ok(Exchange {
            alloc,
            session,
            exts,
            config,
            pending: None,
            agreed: Vec::new(alloc),
        })
    }

    /// Exchanges of session 0 that have agreed on one section with another such end, without an exchange: `0`, audio
    /// both ways, Opus at payload type 111, SSRC 44 at either side.
    ///
    /// # Errors
    ///
    /// `AllocError` if memory runs out.
    #[tactic(auto, unfolding(crate::specs::Exchanges::fixed))]
    pub fn fixed(alloc: Global) -> Result<Self, AllocError>
        ensures { IfOk result (λ x. x ≡ fixed) }
    {
        let config = fixed_config(alloc)?;
        let mut agreed = Vec::new(alloc);
        agreed.push(AgreedSection::fixed(alloc)?)?;
        formats_law();
        Ok(Exchange {
            alloc,
            session: Session::new(alloc, SessionId::from(0)),
            exts: ExtensionMap::empty(),
            config,
            pending: None,
            agreed,
        })
    }

    /// The rows of the end, in order of preference, as the exchanges so far left them.
    pub fn config(&self) -> &CodecConfig
        ensures { result.now ≡ self.now.config }
    {
        &self.config
    }

    /// Whether an offer was pending, which is now given up; all else stays.
    pub fn withdraw(&mut self) -> bool
        ensures was { result ≡ is_some self.old.pending }
        ensures after { self.new ≡ with_offer self.old None }
    {
        let was = self.pending.is_some();
        self.pending = None;
        was
    }

    /// The section of this name as it was agreed on last.
    pub fn agreed(&self, mid: Mid) -> Option<&AgreedSection>
        ensures { option_copied result ≡ section_of self.now.agreed mid }
    {
        section_named(self.agreed.as_slice(), mid)
    }

    /// The sections that were agreed on last, in the order of the texts.
    pub fn agreed_sections(&self) -> &[AgreedSection]
        ensures { result.now ≡ self.now.agreed }
    {
        self.agreed.as_slice()
    }

    /// Whether one of the end's own rows is locked with the agreed row's payload type and is the
    /// same to a stream.
    pub fn agrees_with(&self, row: &PayloadParams) -> bool
        ensures { result ≡ own_row_agrees self.now.config.rows row.now }
    {
        own_row_agrees(self.config.params(), row)
    }
}

//! A session between an end and a browser.

use crate::transport::Own;
use rtp_media::{End, EndError, ExchangeError, SectionSpec, Session, are_sound};
use rtp_media_browsers::{
    BrowserError, BrowserState, RequestError, SectionRequest, answer_for_end, for_browser, for_end,
    map_for_browsers, requests_in_common, rows_for_browsers, sections_for,
};
use rtp_wire::SessionId;
use sdp_formats_values::Setup;
use std::alloc::{AllocError, Global};
use thiserror::Error;

/// Why a browser's offer isn't answered, or its answer isn't accepted.
#[derive(Debug, Drop, Error)]
pub(crate) enum CallError {
    /// The text is refused on its way between browser and end.
    #[error("{0}")]
    Browser(BrowserError),
    /// The requests don't fit the offer.
    #[error("{0}")]
    SectionRequest(RequestError),
    /// The end refuses it.
    #[error("the end: {0}")]
    Exchange(ExchangeError),
    /// A section's RTX pairs don't fit its SSRCs.
    #[error("the repairs of a section don't fit its SSRCs")]
    Unsound,
    /// Out of memory.
    #[error("out of memory")]
    Memory,
}

impl From<BrowserError> for CallError {
    fn from(error: BrowserError) -> CallError {
        CallError::Browser(error)
    }
}

impl From<ExchangeError> for CallError {
    fn from(error: ExchangeError) -> CallError {
        CallError::Exchange(error)
    }
}

impl From<AllocError> for CallError {
    fn from(_error: AllocError) -> CallError {
        CallError::Memory
    }
}

/// An end, and what it remembers of its browser.
#[derive(Drop)]
pub(crate) struct Call {
    alloc: Global,
    pub(crate) end: End,
    pub(crate) state: BrowserState,
    pub(crate) own: Own,
}

impl Call {
    /// An end of the rows and header extensions for browsers, before its first exchange; Opus with redundancy, or
    /// without.
    pub(crate) fn new(alloc: Global, session: u64, use_red: bool) -> Result<Call, EndError> {
        let session = Session::new(alloc, SessionId::from(session));
        let mut rows = rows_for_browsers(alloc)?;
        if use_red {
            rows.enable_opus(true, true)?;
        }
        Ok(Call {
            alloc,
            end: End::new(alloc, rows, session, map_for_browsers())?,
            state: BrowserState::new(alloc),
            own: Own::new(alloc)?,
        })
    }

    /// The text the browser gets for its offer. Sections without a row in common are rejected alone. If the offer is
    /// refused, nothing changes.
    pub(crate) fn answer(
        &mut self,
        offer: &str,
        requests: Vec<SectionRequest>,
    ) -> Result<String, CallError> {
        let alloc = self.alloc;
        let requests = requests_in_common(alloc, &self.state, self.end.config(), offer, requests)?;
        let mut state = self.state.clone(alloc)?;
        let text = for_end(alloc, &mut state, offer, requests.as_slice())?;
        let sections = sections_for(alloc, &state, requests.as_slice())?;
        if !are_sound(sections.as_slice()) {
            return Err(CallError::Unsound);
        }
        let answer = self.end.answer(text.as_str(), sections)?;
        self.state = state;
        let text = self.with_transport(answer.as_str(), self.own.setup)?;
        self.end.take_types(text.as_str())?;
        Ok(text)
    }

    /// The end's offer as the browser gets it.
    pub(crate) fn offer(&mut self, sections: Vec<SectionSpec>) -> Result<String, CallError> {
        if !are_sound(sections.as_slice()) {
            return Err(CallError::Unsound);
        }
        let offer = self.end.offer(sections)?;
        self.with_transport(offer.as_str(), Setup::ActPass)
    }

    fn with_transport(&mut self, text: &str, setup: Setup) -> Result<String, CallError> {
        let transport = self.own.transport(self.alloc, setup)?;
        Ok(for_browser(self.alloc, &mut self.state, text, &transport)?)
    }

    /// Takes the browser's answer to the end's offer. If the end refuses it, the state is as before.
    pub(crate) fn accept(&mut self, answer: &str) -> Result<String, CallError> {
        let before = self.state.clone(self.alloc)?;
        let text = answer_for_end(self.alloc, &mut self.state, answer)?;
        if let Err(error) = self.end.accept(text.as_str()) {
            self.state = before;
            return Err(CallError::Exchange(error));
        }
        self.end.take_types(text.as_str())?;
        Ok(text)
    }
}

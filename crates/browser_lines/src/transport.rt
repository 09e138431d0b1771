//! The transport of the end, whose certificate and credentials are known beforehand.

use rtp_media_browsers::{Gathering, Transport};
use sdp_formats_grammar::{Listed, Text};
use sdp_formats_values::{Candidate, Fingerprint, IceCreds, Setup, candidate_of};
use std::alloc::{AllocError, Global};

/// The digest of the certificate.
const DIGEST: [u8; 32] = [
    0x1C, 0x9B, 0x0D, 0x4F, 0x6A, 0x2E, 0x88, 0x73, 0xC5, 0xD0, 0x11, 0x4E, 0x9F, 0x3A, 0xA6, 0xB7,
    0xD8, 0x29, 0x0C, 0x5E, 0x4B, 0x6F, 0x70, 0x81, 0xA2, 0xB3, 0xC4, 0xD5, 0xE6, 0xF7, 0x08, 0x19,
];

/// A text of the program's own.
fn text(alloc: Global, text: &str) -> Result<Text, AllocError> {
    Ok(Text::of(String::from_str(alloc, text)?))
}

/// What is known beforehand of the end's transport, and its part in the connection if it answers.
#[derive(Drop)]
pub(crate) struct Own {
    ufrag: String,
    pass: String,
    candidates: Vec<String>,
    pub(crate) setup: Setup,
    pub(crate) is_lite: bool,
}

impl Own {
    /// A transport with the passive DTLS role.
    pub(crate) fn new(alloc: Global) -> Result<Own, AllocError> {
        Own::of(alloc, "F7gI", "x9cml/YzichV2+XlhiMu8g")
    }

    /// The same of other credentials.
    pub(crate) fn of(alloc: Global, ufrag: &str, pass: &str) -> Result<Own, AllocError> {
        Ok(Own {
            ufrag: String::from_str(alloc, ufrag)?,
            pass: String::from_str(alloc, pass)?,
            candidates: Vec::new(alloc),
            setup: Setup::Passive,
            is_lite: false,
        })
    }

    /// Adds a candidate: with it no others come later. False if it isn't one.
    pub(crate) fn add_candidate(&mut self, alloc: Global, value: &str) -> Result<bool, AllocError> {
        if candidate_of(alloc, value).is_err() {
            return Ok(false);
        }
        self.candidates.push(String::from_str(alloc, value)?)?;
        Ok(true)
    }

    fn gathering(&self, alloc: Global) -> Result<Gathering, AllocError> {
        let mut candidates: Vec<Candidate> = Vec::new(alloc);
        for value in &self.candidates {
            if let Ok(candidate) = candidate_of(alloc, value.as_str()) {
                candidates.push(candidate)?;
            }
        }
        if candidates.is_empty() {
            return Ok(Gathering::Trickling);
        }
        Ok(Gathering::Done(Listed::of(candidates)))
    }

    /// What the browser is told; without candidates they come later.
    pub(crate) fn transport(&self, alloc: Global, setup: Setup) -> Result<Transport, AllocError> {
        let ufrag = text(alloc, self.ufrag.as_str())?;
        let pass = text(alloc, self.pass.as_str())?;
        let hash_func = text(alloc, "sha-256")?;
        let bytes = Listed::of(Vec::from_slice(alloc, &DIGEST)?);
        Ok(Transport {
            creds: IceCreds { ufrag, pass },
            gathering: self.gathering(alloc)?,
            fingerprint: Fingerprint { hash_func, bytes },
            setup,
            is_lite: self.is_lite,
        })
    }
}

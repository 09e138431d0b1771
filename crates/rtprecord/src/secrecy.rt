//! Whether media is encrypted (SRTP): DTLS or a text says so, and the payloads say nothing.

use crate::input::Arrival;
use h26x_payload::Codec;
use std::alloc::{AllocError, Global};

// How many payloads of a stream are looked at, and how many are too few to tell.
const MOST_PAYLOADS: u32 = 32;

const FEWEST_PAYLOADS: u32 = 8;

/// The ports from and to which DTLS was seen.
#[derive(Drop)]
pub(crate) struct SecuredPorts {
    ports: Vec<u16>,
}

/// The first bytes of the first payloads of a stream, which payload formats choose from a few and encryption from all.
#[derive(Clone, Copy)]
pub(crate) struct FirstBytes {
    is_seen: [bool; 256],
    /// How many differ.
    kinds: u32,
    payloads: u32,
    /// The ports of the first.
    ports: Option<(u16, u16)>,
}

impl SecuredPorts {
    /// No ports.
    pub(crate) fn new(alloc: Global) -> SecuredPorts {
        SecuredPorts {
            ports: Vec::new(alloc),
        }
    }

    /// Whether DTLS was seen on a port.
    fn has(&self, port: u16) -> bool {
        self.ports.iter().any(|known| *known == port)
    }

    /// Notes the ports of a datagram of DTLS, at most so many and one more.
    pub(crate) fn note(&mut self, arrival: &Arrival<'_>, most: usize) -> Result<(), AllocError> {
        let Some((source, destination)) = arrival.ports else {
            return Ok(());
        };
        if !self.has(source) && self.ports.len() < most {
            self.ports.push(source)?;
        }
        if !self.has(destination) && self.ports.len() <= most {
            self.ports.push(destination)?;
        }
        Ok(())
    }
}

impl FirstBytes {
    /// Of no payload.
    pub(crate) fn new() -> FirstBytes {
        FirstBytes {
            is_seen: [false; 256],
            kinds: 0,
            payloads: 0,
            ports: None,
        }
    }

    /// Notes a payload.
    pub(crate) fn note(&mut self, ports: Option<(u16, u16)>, payload: &[u8]) {
        let Some(first) = payload.first() else {
            return;
        };
        if self.payloads >= MOST_PAYLOADS {
            return;
        }
        if self.payloads == 0 {
            self.ports = ports;
        }
        self.payloads += 1;
        let place = *first as usize;
        if !self.is_seen[place] {
            self.is_seen[place] = true;
            self.kinds = self.kinds.saturating_add(1);
        }
    }

    /// Whether the payloads say nothing: more than three of four begin with a byte that none before them began with.
    fn say_nothing(&self) -> bool {
        self.payloads >= FEWEST_PAYLOADS
            && self.kinds.saturating_mul(4) > self.payloads.saturating_mul(3)
    }

    /// Whether the stream of a codec is encrypted. That of plain samples can't be told, as these take all values.
    pub(crate) fn are_encrypted(
        &self,
        codec: Codec,
        is_secure: bool,
        secured: &SecuredPorts,
    ) -> bool {
        let is_beside_dtls = match self.ports {
            Some((source, destination)) => secured.has(source) || secured.has(destination),
            None => false,
        };
        (is_secure || is_beside_dtls)
            && !matches!(codec, Codec::PCMU | Codec::PCMA | Codec::G722)
            && self.say_nothing()
    }
}

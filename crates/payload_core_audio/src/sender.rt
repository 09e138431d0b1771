//! Sending each payload with older ones (RFC 2198).

ghost use Rattle.payload_core_audio.specs.RedHistory.{AreDistances, keeping};
ghost use Rattle.payload_core_audio.specs.RedWrapping.{IsWrap, IsWrapWith};
ghost use Rattle.std.specs.Prelude.{◌≡◌, ◌<◌, ◌∷◌, ◌↔◌, [], IfOk, IsTrue, OnErr, OnOk, drop, length, take};

use crate::cut::after_prefix;
use crate::history::{DEPTH, KeptPayload, keep, levels, longest_prefix};
use crate::repeated::{push_headers, push_payloads, reach};
use crate::spelling::spell;
use std::alloc::{AllocError, Global};
use std::marker::Model;

// The distance of the oldest of them.
const GREATEST_DISTANCE: u32 = 8;

/// Wraps payloads, each with some of those that were wrapped before it.
///
/// The distances say which: 1 is the last payload before, 2 the one before that, and so on.
#[derive(Drop)]
pub struct RedSender {
    distances: Vec<u32>,
    history: Vec<KeptPayload>,
}

impl Model for RedSender {
    ghost use Rattle.std.specs.Prelude.{map};
    ghost use Rattle.payload_core_audio.specs.RedHistory.{AreDistances, Redundancy, kept_of};

    ghost Value = { Redundancy };

    ghost view = { λ s. record { distances = s.distances.items; history = map kept_of s.history.items } };

    ghost invariant = { λ s. AreDistances s.distances.items };
}

impl RedSender {
    /// Whether distances are strictly increasing, from 1 to 8, as `new` and `sync` require.
    pub fn are_distances(distances: &[u32]) -> bool
        ensures { IsTrue result ↔ AreDistances distances.now }
    {
        let mut previous = 0;
        for distance in distances {
            if *distance <= previous {
                return false;
            }
            if *distance > GREATEST_DISTANCE {
                return false;
            }
            previous = *distance;
        }
        true
    }

    /// A sender that has wrapped nothing. There may be no distances.
    ///
    /// # Conditions
    /// The distances rise strictly, each from 1 to 8: `are_distances` tests it.
    ///
    /// # Errors
    /// `AllocError`.
    pub fn new(alloc: Global, distances: &[u32]) -> Result<Self, AllocError>
        requires { AreDistances distances.now }
        ensures { IfOk result (λ s. s ≡ record { distances = distances.now; history = [] }) }
    {
        Ok(RedSender {
            distances: Vec::from_slice(alloc, distances)?,
            history: Vec::new(alloc),
        })
    }

    /// Takes other distances, and keeps the payloads that were wrapped.
    ///
    /// # Conditions
    /// The distances rise strictly, each from 1 to 8: `are_distances` tests it.
    ///
    /// # Errors
    /// `AllocError`, which changes nothing.
    pub fn sync(&mut self, distances: &[u32]) -> Result<(), AllocError>
        requires { AreDistances distances.now }
        ensures synced { OnOk result (self.new ≡ record { distances = distances.now; history = self.old.history }) }
        ensures unchanged { OnErr result (self.new ≡ self.old) }
    {
        self.distances = Vec::from_slice(*self.history.allocator(), distances)?;
        Ok(())
    }

    /// What is sent for a payload.
    fn wrapped(
        &self,
        pt: u8,
        payload: &[u8],
        time: u32,
        budget: usize,
    ) -> Result<Vec<u8>, AllocError>
        ensures { IfOk result (λ sent. IsWrap self.now pt payload.now time budget sent.items) }
    {
        let alloc = *self.history.allocator();
        if budget <= payload.len() {
            return Ok(Vec::from_slice(alloc, payload)?);
        }
        let mut olds = levels(alloc, &self.history, &self.distances, time)?;
        let count = longest_prefix(&olds, payload.len(), budget);
        olds.truncate(count);
        olds.reverse();
        spell(alloc, &olds, pt, payload)
    }

    /// What is sent for a payload, after the prefix.
    fn wrapped_with_prefix(
        &self,
        prefix: &[u8],
        pt: u8,
        payload: &[u8],
        time: u32,
        budget: usize,
    ) -> Result<Vec<u8>, AllocError>
        ensures { IfOk result (λ sent. IsWrapWith prefix.now self.now pt payload.now time budget sent.items) }
    {
        let alloc = *self.history.allocator();
        if payload.len() >= budget {
            return after_prefix(alloc, prefix, payload);
        }
        let (count, len) = reach(&self.history, &self.distances, time, payload.len(), budget);
        let distances = &self.distances[..count];
        let mut packet = Vec::with_capacity(alloc, prefix.len().saturating_add(len))?;
        packet.extend_from_slice(prefix)?;
        push_headers(&self.history, distances, time, &mut packet)?;
        packet.push(pt % 128)?;
        push_payloads(&self.history, distances, time, &mut packet)?;
        packet.extend_from_slice(payload)?;
        Ok(packet)
    }

    /// What is sent for a payload, which is put at the front of the history until `settle` or
    /// `forget`.
    pub(crate) fn prepare(
        &mut self,
        pt: u8,
        payload: &[u8],
        time: u32,
        budget: usize,
    ) -> Result<Vec<u8>, AllocError>
        ensures wrapped { IfOk result (λ sent. IsWrap self.old pt payload.now time budget sent.items) }
        ensures kept { OnOk result (self.new ≡ record {
          distances = self.old.distances;
          history =
              record { pt = pt; time = time; payload = payload.now } ∷ self.old.history;
        }) }
        ensures unchanged { OnErr result (self.new ≡ self.old) }
    {
        let sent = self.wrapped(pt, payload, time, budget)?;
        let payload = Vec::from_slice(*self.history.allocator(), payload)?;
        self.history.insert(0, KeptPayload { pt, time, payload })?;
        Ok(sent)
    }

    /// Keeps the newest eight payloads.
    pub(crate) fn settle(&mut self)
        ensures { self.new ≡ record { distances = self.old.distances; history = take 8 self.old.history } }
    {
        self.history.truncate(DEPTH);
    }

    /// Forgets the newest payload.
    pub(crate) fn forget(&mut self)
        requires { 0 < length self.old.history }
        ensures { self.new ≡ record { distances = self.old.distances; history = drop 1 self.old.history } }
    {
        self.history.remove(0);
    }

    /// The packet for a payload of this type and RTP time: the payload after the longest prefix of the
    /// existing levels, shallowest first, such that all stay within the budget in bytes. The deepest is
    /// first, and a level that fits no block is passed over.
    ///
    /// A payload that passes the budget with one byte more is returned as it is. Either way it is kept, beside
    /// the seven before it.
    ///
    /// # Errors
    /// `AllocError`, which changes nothing.
    pub fn wrap(
        &mut self,
        pt: u8,
        payload: &[u8],
        time: u32,
        budget: usize,
    ) -> Result<Vec<u8>, AllocError>
        ensures wrapped { IfOk result (λ sent. IsWrap self.old pt payload.now time budget sent.items) }
        ensures kept { OnOk result (self.new ≡ keeping self.old pt payload.now time) }
        ensures unchanged { OnErr result (self.new ≡ self.old) }
    {
        let sent = self.prepare(pt, payload, time, budget)?;
        self.settle();
        Ok(sent)
    }

    /// The packet that `wrap` makes for a payload, with these bytes in front of it, such as a header; the payload is
    /// kept as `wrap` keeps it. The budget counts the packet without them.
    ///
    /// # Errors
    /// `AllocError`, which changes nothing.
    pub fn wrap_with_prefix(
        &mut self,
        prefix: &[u8],
        pt: u8,
        payload: &[u8],
        time: u32,
        budget: usize,
    ) -> Result<Vec<u8>, AllocError>
        ensures wrapped { IfOk result (λ sent.
            IsWrapWith prefix.now self.old pt payload.now time budget sent.items) }
        ensures kept { OnOk result (self.new ≡ keeping self.old pt payload.now time) }
        ensures unchanged { OnErr result (self.new ≡ self.old) }
    {
        let sent = self.wrapped_with_prefix(prefix, pt, payload, time, budget)?;
        keep(&mut self.history, pt, time, payload)?;
        Ok(sent)
    }
}

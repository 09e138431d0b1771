//! Payloads that may be sent once more (RFC 2198).

ghost use Rattle.payload_core_audio.specs.Red.{HasRoom};
ghost use Rattle.payload_core_audio.specs.RedHistory.{kept_of};
ghost use Rattle.payload_core_audio.specs.RedSending.{masked};
ghost use Rattle.payload_core_audio.specs.RedViews.{old_block};
ghost use Rattle.payload_core_audio.specs.RedWrapping.{IsLongestPrefix, level, levels};
ghost use Rattle.std.specs.Prelude.{◌≡◌, ◌+◌, ◌<◌, ◌≤◌, ◌∷◌, All, IfOk, OnErr, OnOk, length, map, option_map};
ghost use Rattle.std.specs.Prelude.{take};

use crate::spelling::{OldPayload, fields_fit};
use std::alloc::{AllocError, Global};

/// How many payloads are kept.
pub const DEPTH: usize = 8;

/// A payload that was wrapped.
pub struct KeptPayload {
    pub pt: u8,
    pub time: u32,
    pub payload: Vec<u8>,
}

/// Written by hand, so that crates that drop this type need no proof about its fields.
impl Drop for KeptPayload {
    fn drop(self) {
        let KeptPayload {
            pt: _pt,
            time: _time,
            payload: _payload,
        } = self;
    }
}

impl KeptPayload {
    /// Becomes another payload, in the same memory if it is enough.
    fn refill(&mut self, pt: u8, time: u32, payload: &[u8]) -> Result<(), AllocError>
        ensures refilled { OnOk result (kept_of self.new ≡ record { pt = pt; time = time; payload = payload.now }) }
        ensures unchanged { OnErr result (kept_of self.new ≡ kept_of self.old) }
    {
        self.payload
            .reserve(payload.len().saturating_sub(self.payload.len()))?;
        self.payload.clear();
        self.payload.extend_from_slice(payload)?;
        self.pt = pt;
        self.time = time;
        Ok(())
    }
}

/// Puts a payload in front of the history, of which the newest eight stay. The memory of the oldest is used again.
pub fn keep(
    history: &mut Vec<KeptPayload>,
    pt: u8,
    time: u32,
    payload: &[u8],
) -> Result<(), AllocError>
    ensures kept { OnOk result (map kept_of history.new.items
        ≡ take 8 (record { pt = pt; time = time; payload = payload.now } ∷ map kept_of history.old.items)) }
    ensures unchanged { OnErr result (map kept_of history.new.items ≡ map kept_of history.old.items) }
{
    if history.len() < DEPTH {
        let payload = Vec::from_slice(*history.allocator(), payload)?;
        history.insert(0, KeptPayload { pt, time, payload })?;
        return Ok(());
    }
    history[DEPTH - 1].refill(pt, time, payload)?;
    history.truncate(DEPTH);
    if let Some(newest) = history.pop() {
        history.insert(0, newest)?;
    }
    Ok(())
}

/// The payload that was wrapped so many calls before.
pub fn level(history: &[KeptPayload], time: u32, distance: u32) -> Option<OldPayload<'_>>
    requires { 0 < distance }
    ensures { option_map old_block result ≡ level (map kept_of history.now) time distance }
{
    let kept = history.get(distance as usize - 1)?;
    Some(OldPayload {
        pt: kept.pt,
        timestamp_offset: time.wrapping_sub(kept.time),
        payload: &kept.payload,
    })
}

/// The available blocks that fit their headers, nearest first.
pub fn levels<'a>(
    alloc: Global,
    history: &'a [KeptPayload],
    distances: &[u32],
    time: u32,
) -> Result<Vec<OldPayload<'a>>, AllocError>
    requires { All (λ d. (0 < d) × (d ≤ 8)) distances.now }
    ensures { IfOk result (λ olds. map old_block olds.items
        ≡ levels (map kept_of history.now) distances.now time) }
{
    let mut olds = Vec::with_capacity(alloc, distances.len())?;
    for distance in distances {
        if let Some(old) = level(history, time, *distance) {
            if fields_fit(old.timestamp_offset, old.payload) {
                olds.push(old)?;
            }
        }
    }
    Ok(olds)
}

/// How many of the levels have room beside a primary payload of this size.
pub fn longest_prefix(olds: &[OldPayload<'_>], size: usize, budget: usize) -> usize
    requires room { All (λ b. HasRoom (masked (old_block b))) olds.now }
    requires wrapped { size + 1 ≤ budget }
    ensures { IsLongestPrefix budget size (map old_block olds.now) result }
{
    let mut left = budget - size - 1;
    for (i, old) in olds.iter().enumerate() {
        let bytes = 4 + old.payload.len();
        if left < bytes {
            return i;
        }
        left -= bytes;
    }
    olds.len()
}

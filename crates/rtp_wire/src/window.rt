//! The replay window of a stream.

ghost use Rattle.std.specs.Prelude.{ℕ, ◌≡◌, ◌+◌, ◌%◌, ◌<◌, ◌≤◌, ◌==◌, ◌&&◌, ◌||◌, not, nat_le};
ghost use Rattle.rtp_wire.specs.Replay.{accepts, reach, window_with, window_at, window_after};
ghost use Rattle.rtp_wire.specs.Ring.{is_recorded, is_set};

use crate::sequence::SeqNo;
use std::marker::Model;

/// How many numbers a window covers: the greatest and those right below it.
const REACH: usize = 1024;

/// How many words have a bit for each of them.
const WORDS: usize = REACH / 64;

/// The recent numbers of a stream: the greatest one, and which of the 1,023 below it came. It
/// doesn't allocate (RFC 3711 3.3.2).
#[derive(Debug, Drop)]
pub struct SeqNoWindow {
    greatest: u64,
    // Each number in reach has a slot: a bit that says whether it is recorded.
    slots: [u64; WORDS],
}

impl Model for SeqNoWindow {
    ghost use Rattle.rtp_wire.specs.Replay.{Window, window_code};
    ghost use Rattle.rtp_wire.specs.Ring.{numbers_of};

    ghost Value = { Window };

    ghost coded = { window_code };

    ghost view = { λ w. record { greatest = w.greatest; recorded = numbers_of w.greatest w.slots } };
}

/// The slot of a number.
fn slot_of(number: u64) -> usize
    ensures { result ≡ number % reach }
{
    (number % REACH as u64) as usize
}

/// Whether a number is recorded.
fn is_recorded(slots: &[u64; WORDS], number: u64) -> bool
    ensures { result ≡ is_recorded slots.now number }
{
    let slot = slot_of(number);
    (slots[slot / 64] >> (slot % 64)) & 1 == 1
}

/// Sets the slot of a number.
fn record(slots: &mut [u64; WORDS], number: u64)
    ensures { (slot : ℕ) → slot < reach
        → is_set slots.new slot ≡ ((slot == number % reach) || is_set slots.old slot) }
{
    let slot = slot_of(number);
    slots[slot / 64] |= 1 << (slot % 64);
}

/// Clears the slot of a number.
fn forget(slots: &mut [u64; WORDS], number: u64)
    ensures { (slot : ℕ) → slot < reach
        → is_set slots.new slot ≡ (not (slot == number % reach) && is_set slots.old slot) }
{
    let slot = slot_of(number);
    slots[slot / 64] &= !(1 << (slot % 64));
}

/// Clears the slots of the numbers above one, up to another.
fn pass_over(slots: &mut [u64; WORDS], from: u64, to: u64)
    requires { from ≤ to }
    ensures { (y : ℕ) → y ≤ to → to < y + reach
        → is_recorded slots.new y ≡ (nat_le y from && is_recorded slots.old y) }
{
    if to - from >= REACH as u64 {
        *slots = [0; WORDS];
        return;
    }
    for below in from..to {
        forget(slots, below + 1);
    }
}

impl SeqNoWindow {
    /// A window that has recorded this number alone.
    pub fn new(seq: SeqNo) -> Self
        ensures { result ≡ window_at seq }
    {
        let number = seq.get();
        let mut slots = [0; WORDS];
        record(&mut slots, number);
        SeqNoWindow {
            greatest: number,
            slots,
        }
    }

    /// A window that has recorded all numbers up to this one.
    pub fn new_after(seq: SeqNo) -> Self
        ensures { result ≡ window_after seq }
    {
        SeqNoWindow {
            greatest: seq.get(),
            slots: [u64::MAX; WORDS],
        }
    }

    /// The greatest recorded number.
    pub fn max_seq(&self) -> SeqNo
        ensures { result ≡ self.now.greatest }
    {
        SeqNo::from(self.greatest)
    }

    /// Whether the number is above the greatest, or less than 1,024 below it and not recorded.
    pub fn accepts(&self, seq: SeqNo) -> bool
        ensures { result ≡ accepts self.now seq }
    {
        let number = seq.get();
        number > self.greatest
            || (self.greatest - number < REACH as u64 && !is_recorded(&self.slots, number))
    }

    /// Records a number.
    pub fn update(&mut self, seq: SeqNo)
        ensures { self.new ≡ window_with self.old seq }
    {
        let number = seq.get();
        let greatest = self.greatest.max(number);
        pass_over(&mut self.slots, self.greatest, greatest);
        self.greatest = greatest;
        if greatest - number < REACH as u64 {
            record(&mut self.slots, number);
        }
    }
}

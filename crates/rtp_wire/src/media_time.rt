//! Media times.

ghost use Rattle.std.specs.Prelude.{◌≡◌, ◌<◌, ◌≤◌, ◌+◌, ◌*◌, ◌/◌, ◌==◌, ◌^◌, max};
ghost use Rattle.std.specs.Cmp.{partial_order_from_total, partial_equiv_from_equiv};
ghost use Rattle.std.specs.Cmp.Rules.{comparing};
ghost use Rattle.std.specs.Ordering.{as_partial_cmp};
ghost use Rattle.std.proofs.Common.{rules, refl};
ghost use Rattle.rtp_wire.specs.Time.{Time, rebased, rebased_ticks, checked_rebased, common_rate, first_ticks};
ghost use Rattle.rtp_wire.specs.Time.{second_ticks, BothFit, both_fit, sum_of, difference_of};
ghost use Rattle.rtp_wire.specs.Time.{checked_difference};
ghost use Rattle.rtp_wire.specs.Fractions.{time_cmp, time_eq, time_total};

use crate::frequency::Frequency;
use std::cmp::Ordering;
use std::marker::Model;
use std::ops::{Add, AddAssign, Sub, SubAssign};

/// A media time: so many ticks of a clock. Times compare as fractions of a second.
#[derive(Clone, Copy, Debug, Drop)]
pub struct MediaTime {
    ticks: u64,
    rate: Frequency,
}

impl Model for MediaTime {
    ghost use Rattle.rtp_wire.specs.Time.{Time};

    ghost Value = { Time };

    ghost view = { λ t. record { ticks = t.ticks; rate = t.rate } };

    ghost inverse = { λ t. record { ticks = t.ticks; rate = t.rate } };
}

impl MediaTime {
    /// No time.
    pub const ZERO: MediaTime = MediaTime {
        ticks: 0,
        rate: Frequency::SECONDS,
    };

    /// So many ticks of this clock.
    pub const fn new(numer: u64, denom: Frequency) -> Self
        ensures { result ≡ record { ticks = numer; rate = denom } }
    {
        MediaTime {
            ticks: numer,
            rate: denom,
        }
    }

    /// The ticks.
    pub const fn numer(&self) -> u64
        ensures { result ≡ self.now.ticks }
    {
        self.ticks
    }

    /// Ticks a second of its clock.
    pub fn denom(&self) -> u32
        ensures value { result ≡ self.now.rate }
        ensures positive { 0 < result }
    {
        self.rate.get()
    }

    /// Its clock.
    pub const fn frequency(&self) -> Frequency
        ensures { result ≡ self.now.rate }
    {
        self.rate
    }

    /// Microseconds.
    pub fn from_micros(micros: u64) -> MediaTime
        ensures { result ≡ record { ticks = micros; rate = 1000000 } }
    {
        MediaTime::new(micros, Frequency::MICROS)
    }

    /// Units of 2^-18 seconds.
    pub fn from_fixed_point_6_18(units: u64) -> MediaTime
        ensures { result ≡ record { ticks = units; rate = 262144 } }
    {
        MediaTime::new(units, Frequency::FIXED_POINT_6_18)
    }

    /// Ticks of a clock of 90 kHz.
    pub fn from_90khz(ticks: u64) -> MediaTime
        ensures { result ≡ record { ticks = ticks; rate = 90000 } }
    {
        MediaTime::new(ticks, Frequency::NINETY_KHZ)
    }

    /// Milliseconds.
    pub fn from_millis(millis: u64) -> MediaTime
        ensures { result ≡ record { ticks = millis; rate = 1000 } }
    {
        MediaTime::new(millis, Frequency::MILLIS)
    }

    /// Hundredths of a second.
    pub fn from_hundredths(hundredths: u64) -> MediaTime
        ensures { result ≡ record { ticks = hundredths; rate = 100 } }
    {
        MediaTime::new(hundredths, Frequency::HUNDREDTHS)
    }

    /// Seconds.
    pub fn from_secs(secs: u64) -> MediaTime
        ensures { result ≡ record { ticks = secs; rate = 1 } }
    {
        MediaTime::new(secs, Frequency::SECONDS)
    }

    /// The whole microseconds of the time.
    ///
    /// # Conditions
    /// The time in whole microseconds is below 2^64; `checked_rebase` tests it.
    pub fn as_micros(&self) -> u64
        requires { rebased_ticks self.now 1000000 < 2 ^ 64 }
        ensures { result ≡ rebased_ticks self.now 1000000 }
    {
        self.rebase(Frequency::MICROS).numer()
    }

    /// Whether the time is zero.
    pub fn is_zero(&self) -> bool
        ensures { result ≡ (self.now.ticks == 0) }
    {
        self.ticks == 0
    }

    /// The whole ticks of another clock that go into this time: its floor.
    ///
    /// # Conditions
    /// The time in whole ticks of that clock is below 2^64; `checked_rebase` tests it.
    pub fn rebase(self, denom: Frequency) -> MediaTime
        requires { rebased_ticks self denom < 2 ^ 64 }
        ensures value { result ≡ rebased self denom }
        ensures not_above { result.ticks * self.rate ≤ self.ticks * denom }
        ensures within_a_tick { self.ticks * denom < (result.ticks + 1) * self.rate }
    {
        MediaTime {
            ticks: ticks_at(self.ticks, self.rate.get(), denom.get()) as u64,
            rate: denom,
        }
    }

    /// The same; None if its ticks pass 64 bits.
    pub fn checked_rebase(self, denom: Frequency) -> Option<MediaTime>
        ensures { result ≡ checked_rebased self denom }
    {
        let ticks = self.ticks;
        if self.rate.get() == denom.get() {
            return Some(MediaTime { ticks, rate: denom });
        }
        let ticks = ticks_at(ticks, self.rate.get(), denom.get());
        match u64::try_from(ticks) {
            Ok(ticks) => Some(MediaTime { ticks, rate: denom }),
            Err(_) => None,
        }
    }

    /// The difference at the greater clock rate; None if it is below zero, or if a time does
    /// not fit 64 bits there.
    pub fn checked_sub(self, rhs: MediaTime) -> Option<MediaTime>
        ensures { result ≡ checked_difference self rhs }
    {
        let rate = greater(self.rate, rhs.rate);
        let own = self.checked_rebase(rate)?;
        let other = rhs.checked_rebase(rate)?;
        let ticks = own.ticks.checked_sub(other.ticks)?;
        Some(MediaTime { ticks, rate })
    }

    /// The difference at the greater clock rate, 0 if it is below zero.
    ///
    /// # Conditions
    /// Both times fit 64 bits at the greater clock rate; `checked_sub` needs no condition.
    pub fn saturating_sub(self, rhs: MediaTime) -> MediaTime
        requires { BothFit self rhs }
        ensures { result ≡ difference_of self rhs }
    {
        let rate = greater(self.rate, rhs.rate);
        let own = self.rebase(rate);
        let other = rhs.rebase(rate);
        MediaTime {
            ticks: own.ticks.saturating_sub(other.ticks),
            rate,
        }
    }
}

/// The greater of two clock rates.
fn greater(a: Frequency, b: Frequency) -> Frequency
    ensures { result ≡ max a b }
{
    if a.get() < b.get() { b } else { a }
}

/// The whole ticks of one clock in ticks of another, in 128 bits.
fn ticks_at(ticks: u64, from: u32, to: u32) -> u128
    requires { 0 < from }
    ensures { result ≡ ticks * to / from }
{
    ticks as u128 * to as u128 / from as u128
}

/// The sum, at the greater clock rate.
///
/// # Conditions
/// Both times and their sum fit 64 bits at the greater clock rate.
impl Add for MediaTime {
    type Output = MediaTime;

    ghost can_add = { λ a b. BothFit a b × (first_ticks a b + second_ticks a b < 2 ^ 64) };

    ghost add_gives = { λ a b r. r ≡ sum_of a b };

    fn add(self, rhs: MediaTime) -> MediaTime {
        let rate = greater(self.rate, rhs.rate);
        let own = self.rebase(rate);
        let other = rhs.rebase(rate);
        MediaTime {
            ticks: own.ticks + other.ticks,
            rate,
        }
    }
}

/// The sum, at the greater clock rate.
///
/// # Conditions
/// Both times and their sum fit 64 bits at the greater clock rate.
impl AddAssign for MediaTime {
    ghost can_add_assign = { λ a b. BothFit a b × (first_ticks a b + second_ticks a b < 2 ^ 64) };

    ghost add_assign_gives = { λ a b r. r ≡ sum_of a b };

    fn add_assign(&mut self, rhs: MediaTime) {
        *self = *self + rhs;
    }
}

/// The difference, at the greater clock rate.
///
/// # Conditions
/// Both times fit 64 bits at the greater clock rate, and the second is not above the first; `saturating_sub` and
/// `checked_sub` ask for neither.
impl Sub for MediaTime {
    type Output = MediaTime;

    ghost can_sub = { λ a b. BothFit a b × (second_ticks a b ≤ first_ticks a b) };

    ghost sub_gives = { λ a b r. r ≡ difference_of a b };

    fn sub(self, rhs: MediaTime) -> MediaTime {
        self.saturating_sub(rhs)
    }
}

/// The difference, at the greater clock rate.
///
/// # Conditions
/// Both times fit 64 bits at the greater clock rate, and the second is not above the first; `saturating_sub` and
/// `checked_sub` ask for neither.
impl SubAssign for MediaTime {
    ghost can_sub_assign = { λ a b. BothFit a b × (second_ticks a b ≤ first_ticks a b) };

    ghost sub_assign_gives = { λ a b r. r ≡ difference_of a b };

    fn sub_assign(&mut self, rhs: MediaTime) {
        *self = *self - rhs;
    }
}

/// Equal as fractions of a second.
impl PartialEq for MediaTime {
    ghost eq = { time_eq };

    ghost laws = { partial_equiv_from_equiv (Prim.search (comparing, rules, time_total)) };

    fn eq(&self, other: &MediaTime) -> bool {
        self.cmp(other) == Ordering::Equal
    }
}

impl Eq for MediaTime {
    ghost laws = { Prim.search (comparing, rules, time_total) };
}

impl PartialOrd for MediaTime {
    ghost partial_cmp = { as_partial_cmp time_cmp };

    ghost laws = { partial_order_from_total time_total };

    fn partial_cmp(&self, other: &MediaTime) -> Option<Ordering> {
        Some(self.cmp(other))
    }
}

/// Ordered as fractions of a second.
impl Ord for MediaTime {
    ghost cmp = { time_cmp };

    ghost total = { time_total };

    ghost matches_partial_cmp = { λ a b. refl };

    ghost matches_eq = { λ a b. refl };

    fn cmp(&self, other: &MediaTime) -> Ordering {
        let own = self.ticks as u128 * other.rate.get() as u128;
        let others = other.ticks as u128 * self.rate.get() as u128;
        own.cmp(&others)
    }
}

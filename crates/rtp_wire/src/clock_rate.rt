//! Clock rates.

use std::num::NonZeroU32;

/// A clock by whose ticks durations are counted: a frequency, or its ticks a second.
pub trait ClockRate: Copy + Drop {
    ghost use Rattle.std.specs.Prelude.{◌≡◌, ℕ};
    ghost use Rattle.std.specs.Int.NonZero.{non_zero_u32_get};

    /// Ticks a second.
    ghost hertz: { Self → ℕ };

    /// Ticks a second.
    fn hertz(self) -> NonZeroU32
        ensures { non_zero_u32_get result ≡ hertz self };
}

impl ClockRate for NonZeroU32 {
    ghost use Rattle.std.specs.Int.NonZero.{non_zero_u32_get};

    ghost hertz = { non_zero_u32_get };

    fn hertz(self) -> NonZeroU32 {
        self
    }
}

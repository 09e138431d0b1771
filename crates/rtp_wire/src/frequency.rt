//! Clock rates.

ghost use Rattle.std.specs.Prelude.{◌≡◌, ◌<◌, IfOk};
ghost use Rattle.serde.specs.Event.{Sends, unsigned};
ghost use Rattle.serde.specs.Steps.{Gives};
ghost use Rattle.rtp_wire.specs.Time.{frequency_of};

use crate::clock_rate::ClockRate;
use serde::de::DeserializeOwned;
use serde::{Described, Deserialize, Deserializer, Format, Serialize, Serializer};
use std::alloc::Global;
use std::fmt;
use std::marker::Model;
use std::num::NonZeroU32;
use std::str::FromStr;

/// Ticks a second of a clock, 1 to 4,294,967,295.
#[derive(Clone, Copy, Debug, PartialEq, Eq, Drop)]
pub struct Frequency(u32);

impl Model for Frequency {
    ghost use Rattle.std.specs.Prelude.{ℕ, ◌<◌};

    ghost Value = { ℕ };

    ghost view = { λ f. f.0 };

    ghost invariant = { λ f. 0 < f.0 };

    ghost inverse = { λ n. record { 0 = n } };
}

impl Frequency {
    /// A clock of this many ticks a second; None for 0.
    pub fn new(ticks: u32) -> Option<Self>
        ensures { result ≡ frequency_of ticks }
    {
        if ticks == 0 {
            return None;
        }
        Some(Frequency(ticks))
    }

    /// Ticks a second.
    pub fn get(&self) -> u32
        ensures value { result ≡ self.now }
        ensures positive { 0 < result }
    {
        self.0
    }
}

impl Frequency {
    /// Millionths of a second.
    pub const MICROS: Frequency = Frequency(1_000_000);

    /// Units of 2^-18 seconds.
    pub const FIXED_POINT_6_18: Frequency = Frequency(262_144);

    /// The clock of video.
    pub const NINETY_KHZ: Frequency = Frequency(90_000);

    /// 48,000 Hz.
    pub const FORTY_EIGHT_KHZ: Frequency = Frequency(48_000);

    /// 16,000 Hz.
    pub const SIXTEEN_KHZ: Frequency = Frequency(16_000);

    /// 8,000 Hz.
    pub const EIGHT_KHZ: Frequency = Frequency(8_000);

    /// Thousandths of a second.
    pub const MILLIS: Frequency = Frequency(1_000);

    /// Hundredths of a second.
    pub const HUNDREDTHS: Frequency = Frequency(100);

    /// Seconds.
    pub const SECONDS: Frequency = Frequency(1);
}

impl ClockRate for Frequency {
    ghost hertz = { λ f. f };

    fn hertz(self) -> NonZeroU32 {
        match NonZeroU32::new(self.get()) {
            Some(hertz) => hertz,
            None => NonZeroU32::MIN,
        }
    }
}

impl fmt::Display for Frequency {
    ghost use Rattle.std.specs.Prelude.{Some};
    ghost use Rattle.std.specs.Fmt.{decimal};

    ghost output = { λ f. Some (decimal f) };

    fn fmt<W: fmt::Write>(&self, f: &mut fmt::Formatter<W>) -> fmt::Result {
        write!(f, "{}", self.0)
    }
}

/// A text that is no clock rate: no digits, 0, or more than 4,294,967,295.
#[derive(Clone, Copy, Debug, PartialEq, Eq, Drop)]
pub struct ParseFrequencyError;

impl fmt::Display for ParseFrequencyError {
    ghost use Rattle.std.specs.Prelude.{Some, codes};

    ghost output = { λ _. Some (codes "no clock rate") };

    fn fmt<W: fmt::Write>(&self, f: &mut fmt::Formatter<W>) -> fmt::Result {
        f.write_str("no clock rate")
    }
}

/// Reads decimal digits, with or without a plus before them.
impl FromStr for Frequency {
    type Err = ParseFrequencyError;

    ghost use Rattle.rtp_wire.specs.Time.{ParsesFrequency};

    ghost from_str_gives = { λ text r. ParsesFrequency text r };

    fn from_str(text: &str) -> Result<Frequency, ParseFrequencyError> {
        match text.parse::<u32>() {
            Ok(ticks) => Frequency::new(ticks).ok_or(ParseFrequencyError),
            Err(_) => Err(ParseFrequencyError),
        }
    }
}

impl Described for Frequency {
    ghost writes = { λ frequency. Sends (unsigned frequency) };
}

/// Its ticks a second are written.
impl Serialize for Frequency {
    fn serialize<S: Serializer>(&self, out: &mut S) -> Result<(), S::Error> {
        out.u64(u64::from(self.0))
    }
}

/// A number of ticks is read, 1 to 4,294,967,295.
impl<'de> Deserialize<'de> for Frequency {
    fn deserialize<F: Format>(
        _alloc: Global,
        from: &mut Deserializer<'de, '_, F>,
    ) -> Result<Frequency, F::Error>
        ensures { IfOk result (λ frequency. Gives F.gives from.old (unsigned frequency) from.new) }
    {
        read_frequency(from)
    }
}

impl DeserializeOwned for Frequency {
    fn deserialize_owned<F: Format>(
        _alloc: Global,
        from: &mut Deserializer<'_, '_, F>,
    ) -> Result<Frequency, F::Error>
        ensures { IfOk result (λ frequency. Gives F.gives from.old (unsigned frequency) from.new) }
    {
        read_frequency(from)
    }
}

/// The clock rate whose ticks are read.
fn read_frequency<F: Format>(from: &mut Deserializer<'_, '_, F>) -> Result<Frequency, F::Error>
    ensures { IfOk result (λ frequency. Gives F.gives from.old (unsigned frequency) from.new) }
{
    let ticks = u32::try_from(from.u64()?).unwrap_or(0);
    match Frequency::new(ticks) {
        Some(frequency) => Ok(frequency),
        None => Err(from.invalid()),
    }
}

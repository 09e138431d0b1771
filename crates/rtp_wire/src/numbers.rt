//! Identifiers that are plain numbers.

ghost use Rattle.std.specs.Prelude.{◌≡◌, IfOk};
ghost use Rattle.serde.specs.Event.{Sends, unsigned};
ghost use Rattle.serde.specs.Steps.{Gives};

use serde::de::DeserializeOwned;
use serde::{Described, Deserialize, Deserializer, Format, Serialize, Serializer};
use std::alloc::Global;
use std::fmt;
use std::marker::Model;

/// A synchronization source: 32 bits that name one stream of packets (RFC 3550 3 and 5.1).
#[derive(Clone, Copy, Debug, PartialEq, Eq, Hash, Drop)]
pub struct Ssrc(u32);

impl Model for Ssrc {
    ghost use Rattle.std.specs.Prelude.{ℕ};

    ghost Value = { ℕ };

    ghost view = { λ s. s.0 };

    ghost inverse = { λ n. record { 0 = n } };
}

impl Ssrc {
    /// The number.
    pub fn get(&self) -> u32
        ensures { result ≡ self.now }
    {
        self.0
    }
}

impl From<u32> for Ssrc {
    ghost from_gives = { λ n s. s ≡ n };

    fn from(number: u32) -> Ssrc {
        Ssrc(number)
    }
}

impl fmt::Display for Ssrc {
    ghost use Rattle.std.specs.Prelude.{Some};
    ghost use Rattle.std.specs.Fmt.{decimal};

    ghost output = { λ s. Some (decimal s) };

    fn fmt<W: fmt::Write>(&self, f: &mut fmt::Formatter<W>) -> fmt::Result {
        write!(f, "{}", self.0)
    }
}

/// A payload type: which format a packet carries, 0 to 127 in a header (RFC 3550 5.1).
#[derive(Clone, Copy, Debug, PartialEq, Eq, Hash, Drop)]
pub struct Pt(u8);

impl Model for Pt {
    ghost use Rattle.std.specs.Prelude.{ℕ};

    ghost Value = { ℕ };

    ghost view = { λ s. s.0 };

    ghost inverse = { λ n. record { 0 = n } };
}

impl Pt {
    /// The payload type of this number.
    pub const fn new_with_value(number: u8) -> Pt
        ensures { result ≡ number }
    {
        Pt(number)
    }

    /// The number.
    pub fn get(&self) -> u8
        ensures { result ≡ self.now }
    {
        self.0
    }
}

impl From<u8> for Pt {
    ghost from_gives = { λ n s. s ≡ n };

    fn from(number: u8) -> Pt {
        Pt(number)
    }
}

impl fmt::Display for Pt {
    ghost use Rattle.std.specs.Prelude.{Some};
    ghost use Rattle.std.specs.Fmt.{decimal};

    ghost output = { λ s. Some (decimal s) };

    fn fmt<W: fmt::Write>(&self, f: &mut fmt::Formatter<W>) -> fmt::Result {
        write!(f, "{}", self.0)
    }
}

impl Described for Pt {
    ghost writes = { λ pt. Sends (unsigned pt) };
}

/// Its number is written.
impl Serialize for Pt {
    fn serialize<S: Serializer>(&self, out: &mut S) -> Result<(), S::Error> {
        out.u64(u64::from(self.0))
    }
}

/// A number up to 255 is read.
impl<'de> Deserialize<'de> for Pt {
    fn deserialize<F: Format>(
        _alloc: Global,
        from: &mut Deserializer<'de, '_, F>,
    ) -> Result<Pt, F::Error>
        ensures { IfOk result (λ pt. Gives F.gives from.old (unsigned pt) from.new) }
    {
        read_pt(from)
    }
}

impl DeserializeOwned for Pt {
    fn deserialize_owned<F: Format>(
        _alloc: Global,
        from: &mut Deserializer<'_, '_, F>,
    ) -> Result<Pt, F::Error>
        ensures { IfOk result (λ pt. Gives F.gives from.old (unsigned pt) from.new) }
    {
        read_pt(from)
    }
}

/// The payload type whose number is read.
fn read_pt<F: Format>(from: &mut Deserializer<'_, '_, F>) -> Result<Pt, F::Error>
    ensures { IfOk result (λ pt. Gives F.gives from.old (unsigned pt) from.new) }
{
    match u8::try_from(from.u64()?) {
        Ok(number) => Ok(Pt(number)),
        Err(_) => Err(from.invalid()),
    }
}

/// The number of a session in its text (RFC 8866 5.2).
#[derive(Clone, Copy, Debug, PartialEq, Eq, Hash, Drop)]
pub struct SessionId(u64);

impl Model for SessionId {
    ghost use Rattle.std.specs.Prelude.{ℕ};

    ghost Value = { ℕ };

    ghost view = { λ s. s.0 };

    ghost inverse = { λ n. record { 0 = n } };
}

impl SessionId {
    /// The number.
    pub fn get(&self) -> u64
        ensures { result ≡ self.now }
    {
        self.0
    }
}

impl From<u64> for SessionId {
    ghost from_gives = { λ n s. s ≡ n };

    fn from(number: u64) -> SessionId {
        SessionId(number)
    }
}

impl fmt::Display for SessionId {
    ghost use Rattle.std.specs.Prelude.{Some};
    ghost use Rattle.std.specs.Fmt.{decimal};

    ghost output = { λ s. Some (decimal s) };

    fn fmt<W: fmt::Write>(&self, f: &mut fmt::Formatter<W>) -> fmt::Result {
        write!(f, "{}", self.0)
    }
}

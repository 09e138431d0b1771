//! Sequence numbers, counted on past their 16 bits.

ghost use Rattle.std.specs.Prelude.{◌≡◌, ◌+◌, ◌*◌, ◌/◌, ◌%◌, ◌<◌, ◌^◌, ◌-◌, ◌==◌};

use std::fmt;
use std::marker::Model;

/// A sequence number that counts on where the 16 bits of a header wrap (RFC 3550 5.1 and A.1).
#[derive(Clone, Copy, Debug, PartialEq, Eq, Hash, Drop)]
pub struct SeqNo(u64);

impl Model for SeqNo {
    ghost use Rattle.std.specs.Prelude.{ℕ};

    ghost Value = { ℕ };

    ghost view = { λ s. s.0 };

    ghost inverse = { λ n. record { 0 = n } };
}

impl SeqNo {
    /// The 16 bits that a header carries.
    pub fn as_u16(&self) -> u16
        ensures { result ≡ self.now % 65536 }
    {
        (self.0 % 65536) as u16
    }

    /// How often the 16 bits wrapped: the rollover count.
    pub fn roc(&self) -> u64
        ensures value { result ≡ self.now / 65536 }
        ensures parts { result * 65536 + self.now % 65536 ≡ self.now }
    {
        self.0 / 65536
    }

    /// Whether the other number is the one right above this one.
    pub fn is_next(&self, other: SeqNo) -> bool
        ensures { result ≡ (other == self.now + 1) }
    {
        self.0.checked_add(1) == Some(other.0)
    }

    /// Counts one up, and returns the number that it was.
    ///
    /// # Conditions
    /// The number is below 2^64 - 1.
    pub fn inc(&mut self) -> SeqNo
        requires { self.old < 2 ^ 64 - 1 }
        ensures answer { result ≡ self.old }
        ensures after { self.new ≡ self.old + 1 }
    {
        let before = *self;
        self.0 += 1;
        before
    }

    /// The number.
    pub fn get(&self) -> u64
        ensures { result ≡ self.now }
    {
        self.0
    }
}

impl From<u64> for SeqNo {
    ghost from_gives = { λ n s. s ≡ n };

    fn from(number: u64) -> SeqNo {
        SeqNo(number)
    }
}

impl fmt::Display for SeqNo {
    ghost use Rattle.std.specs.Prelude.{Some};
    ghost use Rattle.std.specs.Fmt.{decimal};

    ghost output = { λ s. Some (decimal s) };

    fn fmt<W: fmt::Write>(&self, f: &mut fmt::Formatter<W>) -> fmt::Result {
        write!(f, "{}", self.0)
    }
}

//! Identifiers that are short names.

ghost use Rattle.std.specs.Prelude.{◌≡◌, ◌≤◌, length, replicate, min, MatchOption};
ghost use Rattle.std.specs.Prelude.{IsUtf8};
ghost use Rattle.rtp_wire.specs.Name.{name_byte, name_of, filled};

use std::fmt;
use std::marker::Model;

/// The byte, or an underscore for one that no name may have.
fn name_byte(byte: u8) -> u8
    ensures { result ≡ name_byte byte }
{
    if byte.is_ascii_alphanumeric() || byte == b'_' {
        byte
    } else {
        b'_'
    }
}

/// Writes the name that a text gives over zeros, and returns its length.
fn write_name(bytes: &mut [u8], text: &[u8]) -> usize
    requires { bytes.old ≡ replicate (length bytes.old) 0 }
    ensures after { bytes.new ≡ filled (length bytes.old) (name_of (length bytes.old) text.now) }
    ensures count { result ≡ length (name_of (length bytes.old) text.now) }
{
    let len = bytes.len().min(text.len());
    for i in 0..len {
        bytes[i] = name_byte(text[i]);
    }
    len
}

/// The bytes of a name as text.
fn name_text(bytes: &[u8]) -> &str
    requires { IsUtf8 bytes.now }
    ensures { result.now ≡ bytes.now }
{
    match std::str::from_utf8(bytes) {
        Ok(text) => text,
        Err(_) => unreachable!(),
    }
}

/// The name of a media section: at most 16 ASCII letters, digits and underscores (RFC 5888 4, RFC 9143).
#[derive(Clone, Copy, Debug, PartialEq, Eq, Hash, Drop)]
pub struct Mid {
    bytes: [u8; 16],
    len: usize,
}

impl Model for Mid {
    ghost use Rattle.std.specs.Prelude.{List, ℕ, take, length};
    ghost use Rattle.rtp_wire.specs.Name.{IsKept, filled};

    ghost Value = { List ℕ };

    ghost view = { λ m. take m.len m.bytes };

    ghost invariant = { λ m. IsKept 16 m.len m.bytes };

    ghost inverse = { λ text. record { bytes = filled 16 text; len = length text } };

    ghost use Rattle.std.proofs.Common.{sym, length-take-le};

    ghost inverse_ok = { λ m kept i. record {
      bytes = sym kept.zeros i;
      len = length-take-le m.len m.bytes kept.within i;
    } };
}

impl Mid {
    /// The name as text.
    pub fn as_str(&self) -> &str
        ensures text { result.now ≡ self.now }
        ensures named { name_of 16 self.now ≡ self.now }
    {
        name_text(&self.bytes[..self.len])
    }

    /// The name as bytes, which need no reading as text.
    pub fn as_bytes(&self) -> &[u8]
        ensures bytes { result.now ≡ self.now }
        ensures named { name_of 16 self.now ≡ self.now }
    {
        &self.bytes[..self.len]
    }
}

impl From<&str> for Mid {
    ghost from_gives = { λ text m. m ≡ name_of 16 text.now };

    fn from(text: &str) -> Mid {
        let mut bytes = [0; 16];
        let len = write_name(&mut bytes, text.as_bytes());
        Mid { bytes, len }
    }
}

impl fmt::Display for Mid {
    ghost use Rattle.std.specs.Prelude.{Some};

    ghost output = { λ m. Some m };

    fn fmt<W: fmt::Write>(&self, f: &mut fmt::Formatter<W>) -> fmt::Result {
        f.write_str(self.as_str())
    }
}

/// The name of one of several streams of a media section: at most 8 ASCII letters, digits and
/// underscores (RFC 8852 3.1).
#[derive(Clone, Copy, Debug, PartialEq, Eq, Hash, Drop)]
pub struct Rid {
    bytes: [u8; 8],
    len: usize,
}

impl Model for Rid {
    ghost use Rattle.std.specs.Prelude.{List, ℕ, take, length};
    ghost use Rattle.rtp_wire.specs.Name.{IsKept, filled};

    ghost Value = { List ℕ };

    ghost view = { λ r. take r.len r.bytes };

    ghost invariant = { λ r. IsKept 8 r.len r.bytes };

    ghost inverse = { λ text. record { bytes = filled 8 text; len = length text } };

    ghost use Rattle.std.proofs.Common.{sym, length-take-le};

    ghost inverse_ok = { λ r kept i. record {
      bytes = sym kept.zeros i;
      len = length-take-le r.len r.bytes kept.within i;
    } };
}

impl Rid {
    /// The name as text.
    pub fn as_str(&self) -> &str
        ensures text { result.now ≡ self.now }
        ensures named { name_of 8 self.now ≡ self.now }
    {
        name_text(&self.bytes[..self.len])
    }

    /// The name as bytes, which need no reading as text.
    pub fn as_bytes(&self) -> &[u8]
        ensures bytes { result.now ≡ self.now }
        ensures named { name_of 8 self.now ≡ self.now }
    {
        &self.bytes[..self.len]
    }
}

impl From<&str> for Rid {
    ghost from_gives = { λ text m. m ≡ name_of 8 text.now };

    fn from(text: &str) -> Rid {
        let mut bytes = [0; 8];
        let len = write_name(&mut bytes, text.as_bytes());
        Rid { bytes, len }
    }
}

impl fmt::Display for Rid {
    ghost use Rattle.std.specs.Prelude.{Some};

    ghost output = { λ r. Some r };

    fn fmt<W: fmt::Write>(&self, f: &mut fmt::Formatter<W>) -> fmt::Result {
        f.write_str(self.as_str())
    }
}

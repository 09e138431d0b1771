//! Fingerprints out of texts of their own (RFC 8122 5).

ghost use Rattle.sdp_formats_grammar.specs.Refusals.{Gives};
ghost use Rattle.sdp_formats_values.specs.FromText.{IsFromText, print_in_text};

use crate::fingerprint::Fingerprint;
use sdp_formats_grammar::{Reads, Refusal, Text, list_of, split};
use std::alloc::Global;
use std::error::Error;
use std::fmt;

/// Why a text gives no fingerprint.
#[derive(Debug, Drop)]
pub enum FingerprintError {
    /// It has no blank, or a part of its digest is no number below 256 in base 16.
    Malformed,
    /// Out of memory.
    Memory,
}

impl fmt::Display for FingerprintError {
    ghost use Rattle.std.specs.Prelude.{Some};
    ghost use Rattle.sdp_formats_values.specs.FromText.{error_text};

    ghost output = { λ e. Some (error_text e) };

    fn fmt<W: fmt::Write>(&self, f: &mut fmt::Formatter<W>) -> fmt::Result {
        match self {
            FingerprintError::Malformed => f.write_str("no fingerprint"),
            FingerprintError::Memory => f.write_str("out of memory"),
        }
    }
}

impl Error for FingerprintError {}

// A byte of a digest.
struct HexNumber;

impl Reads<u8> for HexNumber {
    ghost use Rattle.sdp_formats_values.specs.FromText.{hex_number};

    ghost reads = { hex_number };

    fn read(_alloc: Global, text: &str) -> Result<u8, Refusal> {
        u8::from_str_radix(text, 16).ok().ok_or(Refusal::Unfit)
    }
}

fn read(alloc: Global, text: &str) -> Result<Fingerprint, Refusal>
    ensures { Gives result (print_in_text.reads text.now) }
{
    let (name, digest) = split(text, ' ')?;
    Ok(Fingerprint {
        hash_func: Text::of(String::from_str(alloc, name)?),
        bytes: list_of::<u8, HexNumber>(alloc, digest, ':')?,
    })
}

impl Fingerprint {
    /// The fingerprint of a text: a hash function's name up to the first blank, and the bytes of the digest with colons
    /// between, each a number below 256 in hexadecimal digits. A byte may have a plus in front, and more or fewer than
    /// two digits, which the reader of `a=fingerprint` refuses.
    ///
    /// # Errors
    ///
    /// `Malformed` if the text is no such text, `Memory` if memory runs out.
    pub fn from_str(alloc: Global, text: &str) -> Result<Fingerprint, FingerprintError>
        ensures { IsFromText result (print_in_text.reads text.now) }
    {
        match read(alloc, text) {
            Ok(print) => Ok(print),
            Err(Refusal::Unfit) => Err(FingerprintError::Malformed),
            Err(Refusal::Memory) => Err(FingerprintError::Memory),
        }
    }
}

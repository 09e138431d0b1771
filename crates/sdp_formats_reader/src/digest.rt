//! Fingerprints as they are read (RFC 8122 5).

ghost use Rattle.std.specs.Prelude.{◌≡◌, ◌<◌, IfSome};
ghost use Rattle.sdp_formats_grammar.specs.Refusals.{Gives};
ghost use Rattle.sdp_formats_reader.specs.Digest.{hex_digit, hex_byte, fingerprint};

use sdp_formats_grammar::{Reads, Refusal, list_of, split, text_of};
use sdp_formats_values::Fingerprint;
use std::alloc::Global;

// A byte in two hexadecimal digits.
struct HexByte;

fn hex_digit(byte: u8) -> Option<u8>
    ensures value { result ≡ hex_digit byte }
    ensures range { IfSome result (λ n. n < 16) }
{
    match byte {
        b'0'..=b'9' => Some(byte - b'0'),
        b'A'..=b'F' => Some(byte - b'A' + 10),
        b'a'..=b'f' => Some(byte - b'a' + 10),
        _ => None,
    }
}

impl Reads<u8> for HexByte {
    ghost use Rattle.sdp_formats_reader.specs.Digest.{hex_byte};

    ghost reads = { hex_byte };

    fn read(_alloc: Global, text: &str) -> Result<u8, Refusal> {
        match text.as_bytes() {
            [high, low] => {
                let high = hex_digit(*high).ok_or(Refusal::Unfit)?;
                let low = hex_digit(*low).ok_or(Refusal::Unfit)?;
                Ok(high * 16 + low)
            }
            _ => Err(Refusal::Unfit),
        }
    }
}

/// The value of an `a=fingerprint` line: a hash function's name, a blank, and bytes of two hexadecimal digits with
/// colons between (RFC 8122 5).
///
/// # Errors
///
/// `Unfit` if it is no such value, `Memory` if memory runs out.
pub fn fingerprint_of(alloc: Global, value: &str) -> Result<Fingerprint, Refusal>
    ensures { Gives result (fingerprint.reads value.now) }
{
    let (hash_func, bytes) = split(value, ' ')?;
    Ok(Fingerprint {
        hash_func: text_of(alloc, hash_func)?,
        bytes: list_of::<u8, HexByte>(alloc, bytes, ':')?,
    })
}

//! Elements of EBML (RFC 8794).

ghost use Rattle.std.specs.Prelude.{◌≡◌, ◌++◌, ◌<◌, ◌^◌, OnOk};
ghost use Rattle.media_files.specs.Ebml.{double, double_bits, element, element_front, u16_be, u64_be, uint};

use std::alloc::AllocError;

// The least number of 53 bits.
const HALF: u64 = 4503599627370496;

/// Writes a number of two bytes, the most significant first.
#[tactic(auto, unfolding(crate::specs::Ebml::u16_be))]
pub fn push_u16_be(number: u16, out: &mut Vec<u8>) -> Result<(), AllocError>
    ensures { OnOk result (out.new.items ≡ out.old.items ++ u16_be number) }
{
    out.extend_from_slice(&number.to_be_bytes())
}

/// Writes a number of eight bytes, the most significant first.
#[tactic(auto, unfolding(crate::specs::Ebml::u64_be))]
fn push_u64_be(number: u64, out: &mut Vec<u8>) -> Result<(), AllocError>
    ensures { OnOk result (out.new.items ≡ out.old.items ++ u64_be number) }
{
    out.extend_from_slice(&number.to_be_bytes())
}

/// Writes the ID of an element, and the length of its data.
pub fn push_element_front(id: &[u8], len: u64, out: &mut Vec<u8>) -> Result<(), AllocError>
    requires { len < 2 ^ 56 }
    ensures { OnOk result (out.new.items ≡ out.old.items ++ element_front id.now len) }
{
    out.extend_from_slice(id)?;
    push_u64_be(72057594037927936 + len, out)
}

/// Writes an element.
#[tactic(auto, unfolding(crate::specs::Ebml::element))]
pub fn push_element(id: &[u8], bytes: &[u8], out: &mut Vec<u8>) -> Result<(), AllocError>
    ensures { OnOk result (out.new.items ≡ out.old.items ++ element id.now bytes.now) }
{
    out.extend_from_slice(id)?;
    push_u64_be(72057594037927936 + bytes.len() as u64, out)?;
    out.extend_from_slice(bytes)
}

/// Writes an element that is an unsigned integer.
#[tactic(auto, unfolding(crate::specs::Ebml::u64_be))]
pub fn push_uint(id: &[u8], number: u64, out: &mut Vec<u8>) -> Result<(), AllocError>
    ensures { OnOk result (out.new.items ≡ out.old.items ++ uint id.now number) }
{
    push_element(id, &number.to_be_bytes(), out)
}

/// The bits of a double that is this integer.
fn double_bits(number: u64) -> u64
    requires { number < 2 ^ 53 }
    ensures { result ≡ double_bits number }
{
    let mut number = number;
    for doubled in 0..53u64 {
        if number >= HALF {
            return (1023 + (52 - doubled)) * HALF + (number - HALF);
        }
        number *= 2;
    }
    0
}

/// Writes an element that is a double.
#[tactic(auto, unfolding(crate::specs::Ebml::u64_be))]
pub fn push_double(id: &[u8], number: u64, out: &mut Vec<u8>) -> Result<(), AllocError>
    requires { number < 2 ^ 53 }
    ensures { OnOk result (out.new.items ≡ out.old.items ++ double id.now number) }
{
    push_element(id, &double_bits(number).to_be_bytes(), out)
}

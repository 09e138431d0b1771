//! Numbers of several bytes.

ghost use Rattle.std.specs.Prelude.{◌≡◌, ◌+◌, ◌++◌, ◌≤◌, OnOk, drop, length};
ghost use Rattle.media_files_captures.specs.Numbers.{u16_at, u16_be, u16_le, u32_at, u32_le, u64_le};

use std::alloc::AllocError;

/// The order of the bytes of a number.
#[derive(Debug, Clone, Copy, PartialEq, Eq)]
pub enum ByteOrder {
    /// The most significant byte first.
    Big,
    /// The least significant byte first.
    Little,
}

/// The number of two bytes at a place, the most significant first.
#[tactic(auto, unfolding(crate::specs::Numbers::u16_be))]
pub fn u16_be(bytes: &[u8], at: usize) -> u16
    requires { at + 2 ≤ length bytes.now }
    ensures { result ≡ u16_be bytes.now at }
{
    u16::from_be_bytes([bytes[at], bytes[at + 1]])
}

/// The number of two bytes at a place.
#[tactic(auto, unfolding(crate::specs::Numbers::u16_at))]
pub fn u16_at(order: ByteOrder, bytes: &[u8], at: usize) -> u16
    requires { at + 2 ≤ length bytes.now }
    ensures { result ≡ u16_at order bytes.now at }
{
    let octets = [bytes[at], bytes[at + 1]];
    match order {
        ByteOrder::Big => u16::from_be_bytes(octets),
        ByteOrder::Little => u16::from_le_bytes(octets),
    }
}

/// The number of four bytes at a place.
#[tactic(auto, unfolding(crate::specs::Numbers::u32_at))]
pub fn u32_at(order: ByteOrder, bytes: &[u8], at: usize) -> u32
    requires { at + 4 ≤ length bytes.now }
    ensures { result ≡ u32_at order bytes.now at }
{
    let octets = [bytes[at], bytes[at + 1], bytes[at + 2], bytes[at + 3]];
    match order {
        ByteOrder::Big => u32::from_be_bytes(octets),
        ByteOrder::Little => u32::from_le_bytes(octets),
    }
}

/// The bytes from a place on.
pub fn rest_from(bytes: &[u8], at: usize) -> &[u8]
    requires { at ≤ length bytes.now }
    ensures { result.now ≡ drop at bytes.now }
{
    &bytes[at..]
}

/// Writes a number of two bytes, the least significant first.
#[tactic(auto, unfolding(crate::specs::Numbers::u16_le))]
pub fn push_u16(out: &mut Vec<u8>, number: u16) -> Result<(), AllocError>
    ensures { OnOk result (out.new.items ≡ out.old.items ++ u16_le number) }
{
    out.extend_from_slice(&number.to_le_bytes())
}

/// Writes a number of four bytes, the least significant first.
#[tactic(auto, unfolding(crate::specs::Numbers::u32_le))]
pub fn push_u32(out: &mut Vec<u8>, number: u32) -> Result<(), AllocError>
    ensures { OnOk result (out.new.items ≡ out.old.items ++ u32_le number) }
{
    out.extend_from_slice(&number.to_le_bytes())
}

/// Writes a number of eight bytes, the least significant first.
#[tactic(auto, unfolding(crate::specs::Numbers::u64_le))]
pub fn push_u64(out: &mut Vec<u8>, number: u64) -> Result<(), AllocError>
    ensures { OnOk result (out.new.items ≡ out.old.items ++ u64_le number) }
{
    out.extend_from_slice(&number.to_le_bytes())
}

//! Fields of bits: entries of the table of contents, and speech (RFC 4867 4.3 and 4.4).

ghost use Rattle.payload_core_audio.specs.AmrWb.{bytes_from, header_at, speech_of};
ghost use Rattle.payload_core_audio.specs.BitBytes.{bits_from, front_of};
ghost use Rattle.payload_core_audio.specs.BitPlaces.{place_of};
ghost use Rattle.std.specs.Prelude.{◌≡◌, ◌+◌, ◌*◌, ◌<◌, ◌≤◌, ◌++◌, OnOk, length};

use crate::bits::BitPlace;
use std::alloc::AllocError;

/// The first this many bits of a byte, with zeros after them.
pub fn front_of(count: usize, byte: u8) -> u8
    requires { 0 < count }
    ensures { result ≡ front_of count byte }
{
    if count >= 8 {
        return byte;
    }
    byte >> (8 - count) << (8 - count)
}

/// The entry of the table of contents at a place as the byte 0, FT(4), Q, 00 (RFC 4867 5.3).
pub fn header_at(bytes: &[u8], place: BitPlace) -> u8
    requires { place_of place + 6 ≤ 8 * length bytes.now }
    ensures value { result ≡ header_at bytes.now (place_of place) }
    ensures small { result < 128 }
{
    place.byte(bytes) % 128 / 4 * 4
}

/// Appends this many bytes that begin at a place.
fn push_bytes(
    bytes: &[u8],
    place: BitPlace,
    count: usize,
    out: &mut Vec<u8>,
) -> Result<(), AllocError>
    requires few { count ≤ 60 }
    requires room { place_of place + 8 * count ≤ 8 * length bytes.now }
    ensures { OnOk result (out.new.items
        ≡ out.old.items ++ bytes_from (bits_from bytes.now (place_of place)) count) }
{
    if let Some(octets) = place.octets(bytes, count) {
        out.extend_from_slice(octets)?;
        return Ok(());
    }
    for k in 0..count {
        out.push(place.after(8 * k).byte(bytes))?;
    }
    Ok(())
}

/// Appends this many bits from a place on, filled up with zeros to whole bytes.
pub fn push_speech(
    bytes: &[u8],
    place: BitPlace,
    size: usize,
    out: &mut Vec<u8>,
) -> Result<(), AllocError>
    requires few { size ≤ 477 }
    requires room { place_of place + size ≤ 8 * length bytes.now }
    ensures { OnOk result (out.new.items ≡ out.old.items ++ speech_of bytes.now (place_of place) size) }
{
    out.reserve((size + 7) / 8)?;
    push_bytes(bytes, place, size / 8, out)?;
    if size % 8 > 0 {
        let last = place.after(size / 8 * 8).byte(bytes);
        out.push(front_of(size % 8, last))?;
    }
    Ok(())
}

/// Appends the speech of a sample, which begins with its second byte, filled up with zeros to whole bytes.
pub fn push_sample_speech(bytes: &[u8], size: usize, out: &mut Vec<u8>) -> Result<(), AllocError>
    requires { 8 + size ≤ 8 * length bytes.now }
    ensures { OnOk result (out.new.items ≡ out.old.items ++ speech_of bytes.now 8 size) }
{
    out.extend_from_slice(&bytes[1..size / 8 + 1])?;
    if size % 8 > 0 {
        out.push(front_of(size % 8, bytes[size / 8 + 1]))?;
    }
    Ok(())
}

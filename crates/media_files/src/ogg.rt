//! Pages of Ogg (RFC 3533 6).

ghost use Rattle.std.specs.Prelude.{◌≡◌, ◌++◌, ◌≤◌, OnOk, fold, length};
ghost use Rattle.media_files.specs.Ogg.{crc, crc_bit, crc_byte, crc_half, lacing, longest_packet, page, page_end};
ghost use Rattle.media_files.specs.Ogg.{page_front};
ghost use Rattle.media_files.specs.OggViews.{place_shown};

use media_files_captures::{push_u32, push_u64};
use std::alloc::{AllocError, Global};

// The generator of the checksum, the most significant bit first.
const GENERATOR: u32 = 0x04c1_1db7;

/// The longest packet of a page, which has at most 255 segments of at most 255 bytes: a packet's last one has less.
pub const LONGEST_PACKET: usize = 65024;

/// Where a page is.
#[derive(Debug, Clone, Copy)]
pub struct PagePlace {
    /// 2 for the first page of a stream, 4 for its last.
    pub flags: u8,
    /// How many samples the stream has up to the end of the page's packet.
    pub granule: u64,
    /// The serial number of the stream.
    pub serial: u32,
    /// The number of the page.
    pub sequence: u32,
}

/// The remainder a bit further.
#[tactic(auto, unfolding(crate::specs::Ogg::crc_bit))]
fn crc_bit(remainder: u32) -> u32
    ensures { result ≡ crc_bit remainder }
{
    if remainder < 2147483648 {
        2 * remainder
    } else {
        (2 * (remainder - 2147483648)) ^ GENERATOR
    }
}

/// The CRC register after four more bits.
#[tactic(auto, unfolding(crate::specs::Ogg::crc_half))]
fn crc_half(remainder: u32) -> u32
    ensures { result ≡ crc_half remainder }
{
    crc_bit(crc_bit(crc_bit(crc_bit(remainder))))
}

/// The remainder a byte further.
#[tactic(auto, unfolding(crate::specs::Ogg::crc_byte))]
fn crc_byte(remainder: u32, byte: u8) -> u32
    ensures { result ≡ crc_byte remainder byte }
{
    crc_half(crc_half(remainder ^ (byte as u32 * 16777216)))
}

/// The remainder of bytes after those that gave another.
fn crc(remainder: u32, bytes: &[u8]) -> u32
    ensures { result ≡ crc remainder bytes.now }
{
    let mut remainder = remainder;
    for byte in bytes {
        remainder = crc_byte(remainder, *byte);
    }
    remainder
}

/// Writes what is in front of the checksum.
#[tactic(auto, unfolding(crate::specs::Ogg::page_front))]
fn push_front(place: &PagePlace, out: &mut Vec<u8>) -> Result<(), AllocError>
    ensures { OnOk result (out.new.items ≡ out.old.items ++ page_front (place_shown place.now)) }
{
    out.extend_from_slice(b"OggS")?;
    out.extend_from_slice(&[0, place.flags])?;
    push_u64(out, place.granule)?;
    push_u32(out, place.serial)?;
    push_u32(out, place.sequence)
}

/// Writes the lengths of the segments of this many bytes.
fn push_lacing(len: usize, out: &mut Vec<u8>) -> Result<(), AllocError>
    ensures { OnOk result (out.new.items ≡ out.old.items ++ lacing len) }
{
    for _full in 0..len / 255 {
        out.push(255)?;
    }
    out.push((len % 255) as u8)?;
    Ok(())
}

/// Writes what follows the checksum.
#[tactic(auto, unfolding(crate::specs::Ogg::page_end))]
fn push_end(packet: &[u8], out: &mut Vec<u8>) -> Result<(), AllocError>
    requires { length packet.now ≤ longest_packet }
    ensures { OnOk result (out.new.items ≡ out.old.items ++ page_end packet.now) }
{
    out.push((packet.len() / 255 + 1) as u8)?;
    push_lacing(packet.len(), out)?;
    out.extend_from_slice(packet)
}

/// Writes a page with one packet.
#[tactic(auto, unfolding(crate::specs::Ogg::page))]
pub fn push_page(
    alloc: Global,
    place: &PagePlace,
    packet: &[u8],
    out: &mut Vec<u8>,
) -> Result<(), AllocError>
    requires { length packet.now ≤ longest_packet }
    ensures { OnOk result (out.new.items ≡ out.old.items ++ page (place_shown place.now) packet.now) }
{
    let mut front = Vec::new(alloc);
    push_front(place, &mut front)?;
    let mut end = Vec::new(alloc);
    push_end(packet, &mut end)?;
    let checksum = crc(crc(crc(0, &front), &[0; 4]), &end);
    out.extend_from_slice(&front)?;
    push_u32(out, checksum)?;
    out.extend_from_slice(&end)
}

//! Capture files of pcap (draft-ietf-opsawg-pcap).

ghost use Rattle.std.specs.Prelude.{◌≡◌, ◌≢◌, ◌<◌, ◌≤◌, ◌⊎◌, IfErr, IfOk, IfSome, None, length, map};
ghost use Rattle.media_files_captures.specs.Captures.{read, seen};
ghost use Rattle.media_files_captures.specs.Links.{link_of};
ghost use Rattle.media_files_captures.specs.Pcap.{digits_of, IsPcap, pcap_format, pcap_header, pcap_record};
ghost use Rattle.media_files_captures.specs.Pcap.{ticks_per_second};
ghost use Rattle.media_files_captures.specs.Runs.{HoldsAll};

use crate::captures::{Capture, CaptureError, CapturedPacket, Resolution};
use crate::frames::LinkType;
use crate::numbers::{ByteOrder, rest_from, u32_at};
use std::alloc::{AllocError, Global};

/// The link type of a number.
pub fn link_of(number: u16) -> LinkType
    ensures { result ≡ link_of number }
{
    match number {
        1 => LinkType::Ethernet,
        113 => LinkType::LinuxCooked,
        276 => LinkType::LinuxCooked2,
        12 | 14 | 101 | 228 | 229 => LinkType::Raw,
        0 | 108 => LinkType::Loopback,
        _ => LinkType::Other,
    }
}

/// What the header of a file says of its records.
#[derive(Debug, Clone, Copy)]
pub struct PcapHeader {
    /// The order of the bytes of each number.
    pub order: ByteOrder,
    /// How many decimal digits the fraction of a second has, 6 or 9.
    pub digits: u8,
    /// How each packet begins.
    pub link: LinkType,
}

/// How many decimal digits the fraction of a second has in a file with this first number.
fn digits_of(magic: u32) -> Option<u8>
    ensures value { result ≡ digits_of magic }
    ensures known { IfSome result (λ digits. (digits ≡ 6) ⊎ (digits ≡ 9)) }
{
    match magic {
        0xa1b2_c3d4 => Some(6),
        0xa1b2_3c4d => Some(9),
        _ => None,
    }
}

/// A file's byte order, and the number of decimal digits in its fractions of a second.
#[tactic(auto, unfolding(crate::specs::Pcap::pcap_format))]
fn format_of(file: &[u8]) -> Option<(ByteOrder, u8)>
    requires { 4 ≤ length file.now }
    ensures { result ≡ pcap_format file.now }
{
    if let Some(digits) = digits_of(u32_at(ByteOrder::Big, file, 0)) {
        return Some((ByteOrder::Big, digits));
    }
    if let Some(digits) = digits_of(u32_at(ByteOrder::Little, file, 0)) {
        return Some((ByteOrder::Little, digits));
    }
    None
}

/// The header in front of a file, which has 24 bytes; None if there is none.
#[tactic(auto, unfolding(crate::specs::Pcap::pcap_header))]
pub fn pcap_header(file: &[u8]) -> Option<PcapHeader>
    ensures value { result ≡ pcap_header file.now }
    ensures room { IfSome result (λ _. 24 ≤ length file.now) }
{
    if file.len() < 24 {
        return None;
    }
    let (order, digits) = format_of(file)?;
    Some(PcapHeader {
        order,
        digits,
        link: link_of((u32_at(order, file, 20) % 65536) as u16),
    })
}

/// How many ticks a second has.
fn ticks_per_second(digits: u8) -> u64
    ensures value { result ≡ ticks_per_second digits }
    ensures few { result ≤ 1000000000 }
{
    if digits == 6 {
        1_000_000
    } else {
        1_000_000_000
    }
}

/// The record in front of these bytes, and what follows it.
#[tactic(auto, unfolding(crate::specs::Pcap::pcap_record))]
fn pcap_record<'a>(header: PcapHeader, bytes: &'a [u8]) -> Option<(CapturedPacket<'a>, &'a [u8])>
    ensures value { read result ≡ pcap_record header bytes.now }
    ensures shorter { IfSome result (λ r. length r.1.now < length bytes.now) }
{
    if bytes.len() < 16 {
        return None;
    }
    let kept = u32_at(header.order, bytes, 8) as usize;
    if bytes.len() < 16 + kept {
        return None;
    }
    let seconds = u32_at(header.order, bytes, 0) as u64;
    let fraction = u32_at(header.order, bytes, 4) as u64;
    let packet = CapturedPacket {
        ticks: seconds * ticks_per_second(header.digits) + fraction,
        resolution: Resolution::Decimal(header.digits),
        link: header.link,
        original_len: u32_at(header.order, bytes, 12),
        bytes: &bytes[16..16 + kept],
    };
    Some((packet, rest_from(bytes, 16 + kept)))
}

/// The packets of records after the header of a file, up to the first that isn't whole: of all records, or of a piece
/// of them, after which reading goes on with what is left and the bytes that follow.
///
/// # Errors
/// There is no memory for the list.
pub fn read_pcap_records(
    alloc: Global,
    header: PcapHeader,
    bytes: &[u8],
) -> Result<Capture<'_>, AllocError>
    ensures { IfOk result (λ c. HoldsAll (pcap_record header) bytes.now (map seen c.packets.items) c.unread.now) }
{
    let mut packets = Vec::new(alloc);
    let mut unread = bytes;
    while let Some((packet, behind)) = pcap_record(header, unread) {
        packets.push(packet)?;
        unread = behind;
    }
    Ok(Capture { packets, unread })
}

/// The packets of a pcap file, of either byte order, with times in microseconds or in nanoseconds.
///
/// # Errors
/// The bytes don't begin with the header of such a file, or there is no memory for the list.
pub fn read_pcap(alloc: Global, file: &[u8]) -> Result<Capture<'_>, CaptureError>
    ensures value { IfOk result (λ c. IsPcap file.now (map seen c.packets.items) c.unread.now) }
    ensures refused { IfErr result (λ e. e ≢ CaptureError.Memory
        → (e ≡ CaptureError.UnknownFormat) × (pcap_header file.now ≡ None)) }
{
    let Some(header) = pcap_header(file) else {
        return Err(CaptureError::UnknownFormat);
    };
    Ok(read_pcap_records(alloc, header, rest_from(file, 24))?)
}

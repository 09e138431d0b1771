//! AMR-WB payloads in both layouts (RFC 4867 4.3 and 4.4).

ghost use Rattle.payload_core_audio.specs.AmrWb.{amr_wb_format, amr_wb_packet, amr_wb_packing, byte_from};
ghost use Rattle.payload_core_audio.specs.AmrWb.{efficient_bit, entry_place, entry_size, field_size, frames_from};
ghost use Rattle.payload_core_audio.specs.AmrWb.{frames_of, head_size, last_entry, sample_size, speech_bits};
ghost use Rattle.payload_core_audio.specs.BitPlaces.{place_of};
ghost use Rattle.payload_core_base.specs.Stateless.{idle_sender};
ghost use Rattle.std.specs.Prelude.{◌≡◌, ◌≢◌, ◌+◌, ◌*◌, ◌/◌, ◌<◌, ◌≤◌, ◌++◌, ◌-◌, IfErr, IfNone, IfOk, IfSome, List};
ghost use Rattle.std.specs.Prelude.{None, Some, false, length, true, ℕ};

use crate::bits::{BitPlace, octet_at};
use crate::field::{front_of, header_at, push_sample_speech, push_speech};
use payload_core_base::{CodecExtra, Depacketizer, PacketError, Packetizer};
use std::alloc::{AllocError, Global};

// The number of speech bits of frame types 0 to 9 (3GPP TS 26.201).
const SPEECH_BITS: [u16; 10] = [132, 177, 253, 285, 317, 365, 397, 461, 477, 40];

/// The number of speech bits of a frame type; None if the type is reserved.
fn speech_bits(ft: u8) -> Option<usize>
    requires { ft < 16 }
    ensures value { result ≡ speech_bits ft }
    ensures few { IfSome result (λ size. size ≤ 477) }
{
    match ft {
        0..=9 => Some(SPEECH_BITS[ft as usize] as usize),
        10..=13 => None,
        _ => Some(0),
    }
}

fn head_size(octet_align: bool) -> usize
    ensures { result ≡ head_size octet_align }
{
    if octet_align { 8 } else { 4 }
}

fn entry_size(octet_align: bool) -> usize
    ensures { result ≡ entry_size octet_align }
{
    if octet_align { 8 } else { 6 }
}

fn field_size(octet_align: bool, size: usize) -> usize
    requires { size ≤ 477 }
    ensures value { result ≡ field_size octet_align size }
    ensures few { result ≤ 480 }
    ensures room { size ≤ result }
{
    if octet_align {
        (size + 7) / 8 * 8
    } else {
        size
    }
}

/// How many speech bits a sample has, if it has just the bytes of this many.
fn sample_size(bytes: &[u8]) -> Option<usize>
    requires { 0 < length bytes.now }
    ensures value { result ≡ sample_size bytes.now }
    ensures few { IfSome result (λ size. (size ≤ 477) × (8 + size ≤ 8 * length bytes.now)) }
{
    let size = speech_bits(header_at(bytes, BitPlace::at(0)) / 8)?;
    (bytes.len() == (size + 7) / 8 + 1).then_some(size)
}

/// How many entries the table of contents of a packet has, and the place after them, if all are there.
fn entries(octet_align: bool, packet: &[u8]) -> Option<(usize, BitPlace)>
    ensures found { IfSome result (λ e. (last_entry octet_align packet.now ≡ Some (e.0 - 1)) × (0 < e.0)) }
    ensures place { IfSome result (λ e. (place_of e.1 ≡ entry_place octet_align e.0)
        × (place_of e.1 ≤ 8 * length packet.now)) }
    ensures absent { IfNone result (last_entry octet_align packet.now ≡ None) }
{
    if packet.is_empty() {
        return None;
    }
    let size = entry_size(octet_align);
    let mut place = BitPlace::at(head_size(octet_align));
    let mut count: usize = 0;
    while place.has_room(packet, size) {
        let more = place.bit(packet);
        place = place.after(size);
        count += 1;
        if more == 0 {
            return Some((count, place));
        }
    }
    None
}

/// The frames of this many entries, whose speech is from a place on: each its header and its speech.
fn frames(
    alloc: Global,
    octet_align: bool,
    packet: &[u8],
    count: usize,
    speech: BitPlace,
) -> Result<Vec<u8>, PacketError>
    requires entries { entry_place octet_align count ≤ 8 * length packet.now }
    requires speech { place_of speech ≤ 8 * length packet.now }
    ensures frames { IfOk result (λ v. frames_from octet_align packet.now count 0 (place_of speech) ≡ Some v.items) }
    ensures refused { IfErr result (λ e. e ≢ PacketError.Memory → (e ≡ PacketError.ErrAmrWbCorruptedPacket)
        × (frames_from octet_align packet.now count 0 (place_of speech) ≡ None)) }
{
    let mut out = Vec::with_capacity(alloc, packet.len())?;
    let mut entry = BitPlace::at(head_size(octet_align));
    let mut place = speech;
    for _ in 0..count {
        let header = header_at(packet, entry);
        let Some(size) = speech_bits(header / 8) else {
            return Err(PacketError::ErrAmrWbCorruptedPacket);
        };
        if !place.has_room(packet, field_size(octet_align, size)) {
            return Err(PacketError::ErrAmrWbCorruptedPacket);
        }
        out.push(header)?;
        push_speech(packet, place, size, &mut out)?;
        entry = entry.after(entry_size(octet_align));
        place = place.after(field_size(octet_align, size));
    }
    Ok(out)
}

/// Hands out each AMR-WB packet's frames, each as its header and its speech bytes, the mode request and
/// reserved bits passed over (RFC 4867 4.3 and 4.4).
#[derive(Clone, Copy, Debug, Drop)]
pub struct AmrWbDepacketizer {
    octet_align: bool,
}

impl AmrWbDepacketizer {
    /// A depacketizer of the octet-aligned layout, or of the bandwidth-efficient one.
    pub fn new(octet_align: bool) -> Self
        ensures { result ≡ record { octet_align = octet_align } }
    {
        AmrWbDepacketizer { octet_align }
    }
}

impl Depacketizer for AmrWbDepacketizer {
    ghost format = { λ a. amr_wb_format a.octet_align };

    ghost fragment = { λ _. None };

    fn depacketize(
        &mut self,
        packet: &[u8],
        out: &mut Vec<u8>,
        _extra: &mut CodecExtra,
    ) -> Result<(), PacketError> {
        let Some((count, speech)) = entries(self.octet_align, packet) else {
            return Err(PacketError::ErrAmrWbCorruptedPacket);
        };
        let bytes = match frames(*out.allocator(), self.octet_align, packet, count, speech) {
            Ok(bytes) => bytes,
            Err(e) => return Err(e),
        };
        out.extend_from_slice(&bytes)?;
        Ok(())
    }

    fn is_partition_head(&self, _packet: &[u8]) -> bool {
        true
    }

    fn is_partition_tail(&self, _marker: bool, _packet: &[u8]) -> bool {
        true
    }
}

/// Writes a bandwidth-efficient packet: 1111, F clear, FT, Q, the speech bits, and zeros.
fn write_efficient(bytes: &[u8], size: usize, out: &mut [u8])
    requires few { size ≤ 477 }
    requires room { 8 + size ≤ 8 * length bytes.now }
    requires len { length out.old ≡ (size + 17) / 8 }
    ensures { out.new ≡ amr_wb_packet false bytes.now size }
{
    out[0] = 240 + bytes[0] / 16 % 8;
    let mut left = bytes[0] / 4 % 4;
    let last = out.len() - 1;
    for k in 1..last {
        out[k] = left * 64 + bytes[k] / 4;
        left = bytes[k] % 4;
    }
    out[last] = front_of(size + 10 - 8 * last, left * 64 + octet_at(bytes, last) / 4);
}

/// How many bytes the packet of a sample with so many speech bits has.
fn packet_len(octet_align: bool, size: usize) -> usize
    requires { size ≤ 477 }
    ensures { (sample : List ℕ) → length (amr_wb_packet octet_align sample size) ≡ result }
{
    if octet_align {
        (size + 7) / 8 + 2
    } else {
        (size + 17) / 8
    }
}

/// The packet of a sample with so many speech bits in the octet-aligned layout, after the prefix.
fn aligned_packet(
    alloc: Global,
    prefix: &[u8],
    bytes: &[u8],
    size: usize,
) -> Result<Vec<u8>, AllocError>
    requires few { size ≤ 477 }
    requires room { 8 + size ≤ 8 * length bytes.now }
    ensures { IfOk result (λ v. v.items ≡ prefix.now ++ amr_wb_packet true bytes.now size) }
{
    let mut packet = Vec::with_capacity(
        alloc,
        prefix.len().saturating_add(packet_len(true, size)),
    )?;
    packet.extend_from_slice(prefix)?;
    packet.push(0xF0)?;
    packet.push(header_at(bytes, BitPlace::at(0)))?;
    push_sample_speech(bytes, size, &mut packet)?;
    Ok(packet)
}

/// The packet of a sample with so many speech bits in the bandwidth-efficient layout, after the prefix.
fn efficient_packet(
    alloc: Global,
    prefix: &[u8],
    bytes: &[u8],
    size: usize,
) -> Result<Vec<u8>, AllocError>
    requires few { size ≤ 477 }
    requires room { 8 + size ≤ 8 * length bytes.now }
    ensures { IfOk result (λ v. v.items ≡ prefix.now ++ amr_wb_packet false bytes.now size) }
{
    let len = packet_len(false, size);
    let mut packet = Vec::with_capacity(alloc, prefix.len().saturating_add(len))?;
    packet.extend_from_slice(prefix)?;
    packet.resize(prefix.len() + len, 0)?;
    write_efficient(bytes, size, &mut packet[prefix.len()..]);
    Ok(packet)
}

/// The packet of a sample with so many speech bits, after the prefix.
fn packet_of(
    alloc: Global,
    prefix: &[u8],
    octet_align: bool,
    bytes: &[u8],
    size: usize,
) -> Result<Vec<u8>, AllocError>
    requires few { size ≤ 477 }
    requires room { 8 + size ≤ 8 * length bytes.now }
    ensures { IfOk result (λ v. v.items ≡ prefix.now ++ amr_wb_packet octet_align bytes.now size) }
{
    if octet_align {
        return aligned_packet(alloc, prefix, bytes, size);
    }
    efficient_packet(alloc, prefix, bytes, size)
}

/// Sends each AMR-WB sample, a header byte and its speech bytes, as one packet (RFC 4867 4.3 and 4.4).
#[derive(Clone, Copy, Debug, Drop)]
pub struct AmrWbPacketizer {
    octet_align: bool,
}

impl AmrWbPacketizer {
    /// A packetizer in the octet-aligned layout, or in the bandwidth-efficient one.
    pub fn new(octet_align: bool) -> Self
        ensures { result ≡ record { octet_align = octet_align } }
    {
        AmrWbPacketizer { octet_align }
    }
}

impl Packetizer for AmrWbPacketizer {
    ghost packing = { λ a. amr_wb_packing a.octet_align };

    ghost sender = { λ _. idle_sender };

    fn packetize_with_prefix(
        &mut self,
        alloc: Global,
        prefix: &[u8],
        mtu: usize,
        bytes: &[u8],
    ) -> Result<Vec<Vec<u8>>, PacketError> {
        if bytes.is_empty() {
            return Ok(Vec::new(alloc));
        }
        let Some(size) = sample_size(bytes) else {
            return Err(PacketError::ErrAmrWbCorruptedPacket);
        };
        if packet_len(self.octet_align, size) > mtu {
            return Err(PacketError::ErrPayloadTooLarge);
        }
        let mut packets = Vec::with_capacity(alloc, 1)?;
        packets.push(packet_of(alloc, prefix, self.octet_align, bytes, size)?)?;
        Ok(packets)
    }

    fn is_marker(&mut self, _bytes: &[u8], _previous: Option<&[u8]>, _last: bool) -> bool {
        false
    }
}

//! Sending AV1 payloads (RTP payload format for AV1, 4.4, 4.5 and 5).

ghost use Rattle.payload_core_av1.specs.Av1Packing.{aggregation, av1_packing, back, body_from, count_field, front};
ghost use Rattle.payload_core_av1.specs.Av1Packing.{is_cut, longest, packet_of, packets_of, sized, texts_of};
ghost use Rattle.payload_core_av1.specs.Leb128.{size_limit};
ghost use Rattle.payload_core_av1.specs.Obus.{is_kept, obu as spec_obu};
ghost use Rattle.payload_core_av1.specs.Av1Packets.{AreTexts, greatest_part};
ghost use Rattle.payload_core_av1.specs.Samples.{begins_sequence, kept_of};
ghost use Rattle.payload_core_base.specs.Packing.{with_prefix};
ghost use Rattle.std.specs.Prelude.{◌≡◌, ◌≢◌, ◌+◌, ◌++◌, ◌<◌, ◌≤◌, ◌∷◌, if◌then◌else◌, [], false, ◌||◌, nat_le};
ghost use Rattle.std.specs.Prelude.{nat_lt, filter, option_map, IfErr, IfOk, List, None, Some, map, length};

use crate::leb128::{push_size, size_len};
use crate::obu::{Obu, first_obu};
use crate::obu_element::ObuElement;
use payload_core_base::{PacketError, Packetizer};
use std::alloc::{AllocError, Global};
use std::collections::VecDeque;

// How many elements have a packet whose last one has no size.
const COUNTED: usize = 3;

// Room for the size of an element that fits a datagram.
const SIZE_ROOM: usize = 3;

/// Cuts AV1 temporal units into packets, each as long as the limit allows (RTP payload format for AV1, 5).
///
/// Temporal delimiters, tile lists and padding are not sent, and no unit is sent with its size. Chromium stops at a
/// frame of several OBUs of which one ends just with a packet: hand frames in with one OBU of tile data.
#[derive(Clone, Copy, Debug, Drop)]
pub struct Av1Packetizer;

// The texts of the units of a sample that are sent, and whether one of them is a sequence header.
#[derive(Drop)]
struct Kept<'a> {
    texts: VecDeque<ObuElement<'a>>,
    begins: bool,
}

/// How many bytes of the element at a place fit the room that is left.
fn fitting(place: usize, room: usize, len: usize) -> usize
    requires { len < size_limit }
    ensures { result ≡ greatest_part place room len }
{
    if place < COUNTED {
        return room.min(len);
    }
    let mut part = room.saturating_sub(1).min(len);
    while part > 0 && size_len(part) + part > room {
        part -= 1;
    }
    part
}

/// Takes the first `part` bytes of a text as the last element of a packet, if `part` is above 0, and puts back those
/// after them; whether it is.
fn cut_last<'a>(
    part: usize,
    text: ObuElement<'a>,
    elements: &mut Vec<ObuElement<'a>>,
    texts: &mut VecDeque<ObuElement<'a>>,
) -> Result<bool, AllocError>
    requires { part < length text }
    ensures elements { IfOk result (λ _. elements.new.items
        ≡ elements.old.items ++ front part (text.entry ∷ texts.old.items)) }
    ensures cut { IfOk result (λ y. y ≡ is_cut part (text.entry ∷ texts.old.items)) }
    ensures left { IfOk result (λ _. texts.new.items ≡ back part (text.entry ∷ texts.old.items)) }
{
    let (first, rest) = text.split_at(part);
    texts.push_front(rest)?;
    if part > 0 {
        elements.push(first)?;
    }
    Ok(part > 0)
}

/// Takes the longest prefix of texts that fits the room as the elements of a packet; whether the last one is cut.
fn take_elements<'a>(
    room: usize,
    elements: &mut Vec<ObuElement<'a>>,
    texts: &mut VecDeque<ObuElement<'a>>,
) -> Result<bool, AllocError>
    requires { AreTexts texts.old.items }
    ensures elements { IfOk result (λ _. elements.new.items
        ≡ front (longest (room + 1) texts.old.items) texts.old.items) }
    ensures cut { IfOk result (λ y. y ≡ is_cut (longest (room + 1) texts.old.items) texts.old.items) }
    ensures left { IfOk result (λ _. texts.new.items ≡ back (longest (room + 1) texts.old.items) texts.old.items) }
{
    elements.clear();
    let mut left = room;
    while let Some(text) = texts.pop_front() {
        let len = text.len();
        let part = fitting(elements.len(), left, len);
        if part < len {
            return cut_last(part, text, elements, texts);
        }
        left = left.saturating_sub(size_len(len) + len);
        elements.push(text)?;
    }
    Ok(false)
}

/// The aggregation header of a packet.
fn aggregation(z: bool, y: bool, n: bool, count: usize) -> u8
    ensures { result ≡ aggregation z y n count }
{
    let goes_on: u8 = if z { 0x80 } else { 0 };
    let is_cut: u8 = if y { 0x40 } else { 0 };
    let begins: u8 = if n { 0x08 } else { 0 };
    let w: u8 = if count <= COUNTED { count as u8 } else { 0 };
    goes_on + is_cut + 16 * w + begins
}

/// Whether the element at a place has its size in front: all but the last one of at most three.
fn has_size(place: usize, count: usize) -> bool
    requires { place < count }
    ensures { result ≡ (nat_lt (place + 1) count || nat_le 3 place) }
{
    place + 1 < count || place >= COUNTED
}

/// Writes an element, with its size in front or without.
fn push_element(
    has_size: bool,
    element: &ObuElement<'_>,
    out: &mut Vec<u8>,
) -> Result<(), AllocError>
    requires { length element.now < size_limit }
    ensures { IfOk result (λ _. out.new.items ≡ out.old.items
        ++ (if has_size then sized element.now else element.now)) }
{
    if has_size {
        push_size(out, element.len())?;
    }
    element.push_to(out)
}

/// The packet of elements, with these bytes in front.
fn packet(
    alloc: Global,
    prefix: &[u8],
    z: bool,
    y: bool,
    n: bool,
    elements: &[ObuElement<'_>],
) -> Result<Vec<u8>, AllocError>
    requires { AreTexts elements.now }
    ensures { IfOk result (λ p. p.items ≡ prefix.now ++ packet_of z y n elements.now) }
{
    let mut len = prefix.len().saturating_add(1);
    for element in elements {
        len = len.saturating_add(element.len()).saturating_add(SIZE_ROOM);
    }
    let mut packet = Vec::with_capacity(alloc, len)?;
    packet.extend_from_slice(prefix)?;
    packet.push(aggregation(z, y, n, elements.len()))?;
    for (place, element) in elements.iter().enumerate() {
        push_element(has_size(place, elements.len()), element, &mut packet)?;
    }
    Ok(packet)
}

/// The packets of texts, with these bytes in front of each, in a list with room for `room`.
fn packets(
    alloc: Global,
    prefix: &[u8],
    limit: usize,
    room: usize,
    kept: Kept<'_>,
) -> Result<Vec<Vec<u8>>, AllocError>
    requires limit { 2 ≤ limit }
    requires texts { AreTexts kept.texts.items }
    ensures { IfOk result (λ ps. map (λ p. p.items) ps.items
        ≡ with_prefix prefix.now (packets_of limit kept.entry.begins kept.entry.texts.items)) }
{
    let mut texts = kept.texts;
    let mut packets = Vec::with_capacity(alloc, room)?;
    let mut elements = Vec::new(alloc);
    let mut z = false;
    let mut n = kept.begins;
    while !texts.is_empty() {
        let y = take_elements(limit - 1, &mut elements, &mut texts)?;
        packets.push(packet(alloc, prefix, z, y, n, &elements)?)?;
        z = y;
        n = false;
    }
    Ok(packets)
}

/// Keeps a unit, if it is sent.
fn keep<'a>(obu: &Obu<'a>, kept: &mut Kept<'a>) -> Result<(), AllocError>
    ensures texts { let os = filter is_kept (spec_obu obu.now.header obu.now.extension obu.now.payload.now ∷ []) in
        IfOk result (λ _. kept.new.texts.items ≡ kept.old.texts.items ++ texts_of os) }
    ensures begins { let os = filter is_kept (spec_obu obu.now.header obu.now.extension obu.now.payload.now ∷ []) in
        IfOk result (λ _. kept.new.begins ≡ (kept.old.begins || begins_sequence os)) }
{
    if !obu.is_kept() {
        return Ok(());
    }
    kept.texts.push_back(ObuElement::whole(obu))?;
    kept.begins = kept.begins || obu.is_sequence_header();
    Ok(())
}

/// The units of a sample that are sent.
fn kept_of(alloc: Global, sample: &[u8]) -> Result<Kept<'_>, PacketError>
    ensures texts { IfOk result (λ k. option_map texts_of (kept_of sample.now) ≡ Some k.texts.items) }
    ensures begins { IfOk result (λ k. option_map begins_sequence (kept_of sample.now) ≡ Some k.begins) }
    ensures refused { IfErr result (λ e. e ≢ PacketError.Memory → (e ≡ PacketError.ErrAv1CorruptedPacket)
        × (kept_of sample.now ≡ None)) }
{
    let mut kept = Kept {
        texts: VecDeque::new(alloc),
        begins: false,
    };
    let mut rest = sample;
    while !rest.is_empty() {
        let Some((obu, behind)) = first_obu(rest) else {
            return Err(PacketError::ErrAv1CorruptedPacket);
        };
        keep(&obu, &mut kept)?;
        rest = behind;
    }
    Ok(kept)
}

impl Av1Packetizer {
    /// A packetizer, which keeps nothing between samples.
    pub fn new() -> Self
        ensures { result ≡ record {} }
    {
        Av1Packetizer
    }
}

impl Packetizer for Av1Packetizer {
    ghost packing = { λ _. av1_packing };

    ghost sender = { λ _. record { number = 0; waiting = [] } };

    fn packetize_with_prefix(
        &mut self,
        alloc: Global,
        prefix: &[u8],
        mtu: usize,
        bytes: &[u8],
    ) -> Result<Vec<Vec<u8>>, PacketError> {
        let kept = match kept_of(alloc, bytes) {
            Ok(kept) => kept,
            Err(e) => return Err(e),
        };
        if mtu < 2 {
            return Ok(Vec::new(alloc));
        }
        let room = bytes.len() / mtu + 1;
        Ok(packets(alloc, prefix, mtu, room, kept)?)
    }

    fn is_marker(&mut self, _bytes: &[u8], _previous: Option<&[u8]>, last: bool) -> bool {
        last
    }
}

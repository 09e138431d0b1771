//! Fragments of IP packets, and the packets that they make (RFC 791 3.2, RFC 8200 4.5).

ghost use Rattle.std.specs.Prelude.{◌≡◌, ◌++◌, ◌∷◌, ◌≤◌, ℕ, [], IfOk, OnErr, filter, length, option_map};
ghost use Rattle.media_files_captures.specs.Fragments.{Taken, fragment_in, fragment_of, fragment_shown, ipv4_fragment};
ghost use Rattle.media_files_captures.specs.Fragments.{ipv6_fragment, ipv6_piece_of, is_of_packet, is_other, piece_at};
ghost use Rattle.media_files_captures.specs.Fragments.{relation, relation_to, whole, with_end, with_room};
ghost use Rattle.media_files_captures.specs.Fragments.{fragment_behind};
ghost use Rattle.media_files_captures.specs.Ip.{transport};
ghost use Rattle.media_files_captures.specs.Network.{extended};
ghost use Rattle.media_files_captures.specs.Tunnels.{read_packet, tunnelled_in};

use crate::frames::{LinkType, MOST_TUNNELS};
use crate::ip::{ipv6_upper, is_carrier, is_ipv6_fragment, transport};
use crate::network::{IPV4, IPV6, packet_in};
use crate::numbers::{ByteOrder, rest_from, u16_be, u32_at};
use crate::tunnels::tunnelled;
use std::alloc::{AllocError, Global};

/// A fragment of an IP packet that carries UDP or GRE.
#[derive(Debug, Clone, Copy)]
pub struct IpFragment<'a> {
    /// The source's address and then the destination's, of four or of sixteen bytes each.
    pub addresses: &'a [u8],
    /// The packet's identification.
    pub identification: u32,
    /// The protocol of the packet's payload.
    pub protocol: u8,
    /// Where its bytes begin in the packet's payload.
    pub start: u16,
    /// Where they end.
    pub end: u16,
    /// Whether no fragment follows.
    pub is_last: bool,
    /// Its bytes.
    pub bytes: &'a [u8],
}

/// How a fragment lies to another.
#[derive(Debug, Clone, Copy, PartialEq, Eq)]
enum Relation {
    /// They have no byte in common.
    Apart,
    /// They are the same.
    Same,
    /// They differ, and have bytes in common.
    Across,
}

/// What became of a fragment.
#[derive(Debug, Drop)]
pub enum Reassembly {
    /// It waits for others.
    Waiting,
    /// It is one that waits already.
    Repeated,
    /// It overlaps another, and all fragments of its packet are dropped (RFC 5722 4).
    Overlapping,
    /// Its packet is whole: the packet's payload.
    Whole(Vec<u8>),
}

/// A fragment with its end; None if it has no bytes, or ends if no packet can.
fn with_end(fragment: IpFragment<'_>) -> Option<IpFragment<'_>>
    ensures { option_map fragment_shown result ≡ with_end (fragment_shown fragment.entry) }
{
    let len = fragment.bytes.len();
    if len == 0 || len > (65535 - fragment.start) as usize {
        return None;
    }
    Some(IpFragment {
        end: fragment.start + len as u16,
        ..fragment
    })
}

/// The fragment that an IPv4 packet is.
#[tactic(auto, unfolding(crate::specs::Fragments::ipv4_fragment))]
fn ipv4_fragment(bytes: &[u8]) -> Option<IpFragment<'_>>
    ensures { option_map fragment_shown result ≡ ipv4_fragment bytes.now }
{
    if bytes.len() < 20 {
        return None;
    }
    let header_len = 4 * (bytes[0] % 16) as usize;
    let (total_len, place) = (u16_be(bytes, 2) as usize, u16_be(bytes, 6));
    if bytes[0] / 16 != 4 || header_len < 20 || !is_carrier(bytes[9]) || place % 16384 == 0 {
        return None;
    }
    if total_len < header_len || bytes.len() < total_len {
        return None;
    }
    with_end(IpFragment {
        addresses: &bytes[12..20],
        identification: u16_be(bytes, 4) as u32,
        protocol: bytes[9],
        start: 8 * (place % 8192),
        end: 0,
        is_last: place / 8192 % 2 == 0,
        bytes: &bytes[header_len..total_len],
    })
}

/// The fragment that an IPv6 packet is.
#[tactic(auto, unfolding(crate::specs::Fragments::ipv6_fragment))]
fn ipv6_fragment(bytes: &[u8]) -> Option<IpFragment<'_>>
    ensures { option_map fragment_shown result ≡ ipv6_fragment bytes.now }
{
    if bytes.len() < 40 {
        return None;
    }
    let end = 40 + u16_be(bytes, 4) as usize;
    if bytes[0] / 16 != 6 || bytes.len() < end {
        return None;
    }
    let Ok((next, header)) = ipv6_upper(&bytes[..end]) else {
        return None;
    };
    if !is_ipv6_fragment(next, header) || !is_carrier(header[0]) {
        return None;
    }
    let place = u16_be(header, 2);
    with_end(IpFragment {
        addresses: &bytes[8..40],
        identification: u32_at(ByteOrder::Big, header, 4),
        protocol: header[0],
        start: 8 * (place / 8),
        end: 0,
        is_last: place % 2 == 0,
        bytes: rest_from(header, 8),
    })
}

/// The fragment that the packet of an EtherType is.
fn fragment_of(kind: u16, packet: &[u8]) -> Option<IpFragment<'_>>
    ensures { option_map fragment_shown result ≡ fragment_of (extended kind packet.now) }
{
    match kind {
        IPV4 => ipv4_fragment(packet),
        IPV6 => ipv6_fragment(packet),
        _ => None,
    }
}

/// The packet in the tunnel that a packet carries, and its EtherType.
fn packet_inside(kind: u16, packet: &[u8]) -> Option<(u16, &[u8])>
    ensures { read_packet result ≡ tunnelled_in (transport (extended kind packet.now)) }
{
    let Ok((protocol, payload)) = transport(kind, packet) else {
        return None;
    };
    tunnelled(protocol, payload)
}

/// The fragment that a packet is, or that is in at most so many tunnels inside it.
fn fragment_behind(kind: u16, packet: &[u8], most: usize) -> Option<IpFragment<'_>>
    ensures { option_map fragment_shown result ≡ fragment_behind most (extended kind packet.now) }
{
    let mut kind = kind;
    let mut rest = packet;
    for _passed in 0..most {
        let Some(deeper) = packet_inside(kind, rest) else {
            return fragment_of(kind, rest);
        };
        (kind, rest) = deeper;
    }
    fragment_of(kind, rest)
}

/// The fragment of an IP packet that a frame carries, or that is in at most four tunnels (GRE, VXLAN) inside it. None
/// if it carries none, one that the capture cut, or one of a payload that is neither UDP nor GRE.
#[tactic(auto, unfolding(crate::specs::Fragments::fragment_in))]
pub fn fragment_in(link: LinkType, frame: &[u8]) -> Option<IpFragment<'_>>
    ensures { option_map fragment_shown result ≡ fragment_in link frame.now }
{
    match packet_in(link, frame) {
        Ok((kind, packet)) => fragment_behind(kind, packet, MOST_TUNNELS),
        Err(_) => None,
    }
}

/// Whether two fragments are of one packet.
#[tactic(auto, unfolding(crate::specs::Fragments::is_of_packet))]
fn is_of_packet(one: &IpFragment<'_>, other: &IpFragment<'_>) -> bool
    ensures { result ≡ is_of_packet one.now other.now }
{
    one.identification == other.identification
        && one.protocol == other.protocol
        && one.addresses == other.addresses
}

/// How a fragment lies to another.
#[tactic(auto, unfolding(crate::specs::Fragments::relation))]
fn relation_of(one: &IpFragment<'_>, other: &IpFragment<'_>) -> Relation
    ensures { result ≡ relation one.now other.now }
{
    if !is_of_packet(one, other) {
        return Relation::Apart;
    }
    if one.start == other.start && one.bytes == other.bytes {
        return Relation::Same;
    }
    if one.start < other.end && other.start < one.end {
        return Relation::Across;
    }
    Relation::Apart
}

/// How a fragment lies to the first that it isn't apart from.
fn relation_to(fragment: &IpFragment<'_>, held: &[IpFragment<'_>]) -> Relation
    ensures { result ≡ relation_to fragment.now held.now }
{
    for one in held {
        let found = relation_of(fragment, one);
        if found != Relation::Apart {
            return found;
        }
    }
    Relation::Apart
}

/// The first fragment of a packet that begins at a place.
fn piece_at<'a>(
    fragment: &IpFragment<'_>,
    start: usize,
    held: &[IpFragment<'a>],
) -> Option<IpFragment<'a>>
    ensures { result ≡ piece_at fragment.now start held.now }
{
    for one in held {
        if is_of_packet(fragment, one) && one.start as usize == start {
            return Some(*one);
        }
    }
    None
}

/// The payload of a fragment's packet, if it is whole.
fn whole(
    alloc: Global,
    fragment: &IpFragment<'_>,
    held: &[IpFragment<'_>],
) -> Result<Option<Vec<u8>>, AllocError>
    ensures { IfOk result (λ w. option_map (λ v. v.items) w ≡ whole fragment.now held.now) }
{
    let mut out = Vec::new(alloc);
    for _taken in 0..held.len() {
        let Some(piece) = piece_at(fragment, out.len(), held) else {
            return Ok(None);
        };
        out.extend_from_slice(piece.bytes)?;
        if piece.is_last {
            return Ok(Some(out));
        }
    }
    Ok(None)
}

/// Drops the fragments of a fragment's packet.
fn drop_packet<'a>(fragment: &IpFragment<'_>, held: &mut Vec<IpFragment<'a>>)
    ensures { held.new.items ≡ filter (is_other fragment.now) held.old.items }
{
    held.retain(|one| !is_of_packet(fragment, one));
}

/// Drops the packet whose fragments wait longest, if so many fragments wait as may.
pub fn make_room(most: usize, held: &mut Vec<IpFragment<'_>>)
    ensures { held.new.items ≡ with_room most held.old.items }
{
    if held.len() < most {
        return;
    }
    if let Some(first) = held.first().copied() {
        drop_packet(&first, held);
    }
}

/// Takes a fragment, in whatever order fragments come.
///
/// # Errors
/// There is no memory for the fragment, or for the packet that is whole; then those that wait are those of before.
pub fn take_fragment<'a>(
    alloc: Global,
    fragment: IpFragment<'a>,
    held: &mut Vec<IpFragment<'a>>,
) -> Result<Reassembly, AllocError>
    ensures taken { IfOk result (λ r. Taken held.old.items fragment.entry r held.new.items) }
    ensures unchanged { OnErr result (held.new.items ≡ held.old.items) }
{
    match relation_to(&fragment, held) {
        Relation::Same => return Ok(Reassembly::Repeated),
        Relation::Across => {
            drop_packet(&fragment, held);
            return Ok(Reassembly::Overlapping);
        }
        Relation::Apart => {}
    }
    held.push(fragment)?;
    match whole(alloc, &fragment, held) {
        Ok(Some(payload)) => {
            drop_packet(&fragment, held);
            Ok(Reassembly::Whole(payload))
        }
        Ok(None) => Ok(Reassembly::Waiting),
        Err(error) => {
            held.pop();
            Err(error)
        }
    }
}

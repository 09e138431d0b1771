//! The network packet in a frame, after tags and sessions of PPP.

ghost use Rattle.std.specs.Prelude.{◌≡◌, ◌+◌, ◌≤◌, drop, length};
ghost use Rattle.media_files_captures.specs.Network.{after_tags, behind, extended, is_session, is_tag, kind_of_ppp};
ghost use Rattle.media_files_captures.specs.Network.{kind_of_version, network, network_in, pppoe, raw, read_extension};
ghost use Rattle.media_files_captures.specs.Network.{untagged};
ghost use Rattle.media_files_captures.specs.Numbers.{u16_be};

use crate::frames::{LinkType, PassedOver};
use crate::numbers::{rest_from, u16_be};

// The EtherTypes of IP, of a session of PPP, and a number that is none.
pub(crate) const IPV4: u16 = 0x0800;

pub(crate) const IPV6: u16 = 0x86dd;

const PPPOE_SESSION: u16 = 0x8864;

const NONE: u16 = 0;

/// Whether this is the type of a tag.
fn is_tag(kind: u16) -> bool
    ensures { result ≡ is_tag kind }
{
    matches!(kind, 0x8100 | 0x88a8 | 0x9100)
}

/// The type after all tags, and what follows it.
fn untagged(kind: u16, bytes: &[u8]) -> (u16, &[u8])
    ensures { extended result.0 result.1.now ≡ untagged kind bytes.now }
{
    let mut kind = kind;
    let mut rest = bytes;
    while is_tag(kind) && rest.len() >= 4 {
        kind = u16_be(rest, 2);
        rest = rest_from(rest, 4);
    }
    (kind, rest)
}

/// The EtherType of a protocol of PPP.
fn kind_of_ppp(protocol: u16) -> u16
    ensures { result ≡ kind_of_ppp protocol }
{
    match protocol {
        0x0021 => IPV4,
        0x0057 => IPV6,
        _ => NONE,
    }
}

/// The EtherType of a version of IP.
fn kind_of_version(version: u8) -> u16
    ensures { result ≡ kind_of_version version }
{
    match version {
        4 => IPV4,
        6 => IPV6,
        _ => NONE,
    }
}

/// The packet of a PPPoE session, and its EtherType.
#[tactic(auto, unfolding(crate::specs::Network::pppoe))]
fn pppoe(bytes: &[u8]) -> Result<(u16, &[u8]), PassedOver>
    ensures { read_extension result ≡ pppoe bytes.now }
{
    if bytes.len() < 8 {
        return Err(PassedOver::Cut);
    }
    if bytes[0] != 0x11 || bytes[1] != 0 {
        return Err(PassedOver::Malformed);
    }
    Ok((kind_of_ppp(u16_be(bytes, 6)), rest_from(bytes, 8)))
}

/// The EtherType after all tags and a session of PPP, and the packet.
#[tactic(auto, unfolding(crate::specs::Network::network))]
pub(crate) fn network_packet(kind: u16, bytes: &[u8]) -> Result<(u16, &[u8]), PassedOver>
    ensures { read_extension result ≡ network kind bytes.now }
{
    let (kind, packet) = untagged(kind, bytes);
    if kind == PPPOE_SESSION {
        return pppoe(packet);
    }
    if is_tag(kind) {
        return Err(PassedOver::Cut);
    }
    Ok((kind, packet))
}

/// The packet in a frame whose header has this many bytes, with the type of the packet at a place.
fn typed_packet(frame: &[u8], kind_at: usize, header_len: usize) -> Result<(u16, &[u8]), PassedOver>
    requires { kind_at + 2 ≤ header_len }
    ensures { read_extension result
        ≡ behind header_len frame.now (network (u16_be frame.now kind_at) (drop header_len frame.now)) }
{
    if frame.len() < header_len {
        return Err(PassedOver::Cut);
    }
    network_packet(u16_be(frame, kind_at), rest_from(frame, header_len))
}

/// An IP packet of either version.
fn raw_packet(bytes: &[u8]) -> Result<(u16, &[u8]), PassedOver>
    ensures { read_extension result ≡ raw bytes.now }
{
    if bytes.is_empty() {
        return Err(PassedOver::Cut);
    }
    Ok((kind_of_version(bytes[0] / 16), bytes))
}

/// The IP packet after four bytes.
fn loopback_packet(frame: &[u8]) -> Result<(u16, &[u8]), PassedOver>
    ensures { read_extension result ≡ behind 4 frame.now (raw (drop 4 frame.now)) }
{
    if frame.len() < 4 {
        return Err(PassedOver::Cut);
    }
    raw_packet(rest_from(frame, 4))
}

/// The network packet in a frame, and its EtherType.
pub(crate) fn packet_in(link: LinkType, frame: &[u8]) -> Result<(u16, &[u8]), PassedOver>
    ensures { read_extension result ≡ network_in link frame.now }
{
    match link {
        LinkType::Ethernet => typed_packet(frame, 12, 14),
        LinkType::LinuxCooked => typed_packet(frame, 14, 16),
        LinkType::LinuxCooked2 => typed_packet(frame, 0, 20),
        LinkType::Raw => raw_packet(frame),
        LinkType::Loopback => loopback_packet(frame),
        LinkType::Other => Err(PassedOver::NotUdp),
    }
}

//! Packets inside packets: GRE and VXLAN.

ghost use Rattle.std.specs.Prelude.{◌≡◌, ◌≤◌, length, ℕ};
ghost use Rattle.media_files_captures.specs.Network.{extended, read_extension};
ghost use Rattle.media_files_captures.specs.Tunnels.{bridged, gre, gre_length, inside, is_gre, is_vxlan, read_inside};
ghost use Rattle.media_files_captures.specs.Tunnels.{read_packet, through, tunnelled};

use crate::frames::{LinkType, PassedOver};
use crate::ip::{GRE, UDP, transport};
use crate::network::{network_packet, packet_in};
use crate::numbers::{rest_from, u16_be};

// The EtherType of a frame of Ethernet.
const BRIDGED: u16 = 0x6558;

// The port of VXLAN, and its flags: the network's number is valid.
const VXLAN_PORT: u16 = 4789;

const VXLAN_FLAGS: u8 = 8;

/// Whether GRE's first two bytes are those of version 0, with no bits that nobody reads.
fn is_gre(flags: u16) -> bool
    ensures { result ≡ is_gre flags }
{
    flags / 0x4000 % 2 == 0 && flags / 0x400 % 4 == 0 && flags % 8 == 0
}

/// How many bytes GRE's header has.
fn gre_len(flags: u16) -> usize
    ensures value { result ≡ gre_length flags }
    ensures some { 4 ≤ result }
{
    let (checksum, key) = ((flags / 0x8000) as usize, (flags / 0x2000 % 2) as usize);
    4 + 4 * checksum + 4 * key + 4 * (flags / 0x1000 % 2) as usize
}

/// The packet in GRE, and its EtherType.
#[tactic(auto, unfolding(crate::specs::Tunnels::gre))]
fn gre_packet(bytes: &[u8]) -> Result<(u16, &[u8]), PassedOver>
    ensures { read_extension result ≡ gre bytes.now }
{
    if bytes.len() < 4 {
        return Err(PassedOver::Cut);
    }
    let flags = u16_be(bytes, 0);
    if !is_gre(flags) {
        return Err(PassedOver::NotUdp);
    }
    let len = gre_len(flags);
    if bytes.len() < len {
        return Err(PassedOver::Cut);
    }
    Ok((u16_be(bytes, 2), rest_from(bytes, len)))
}

/// Whether a UDP datagram is one of VXLAN.
fn is_vxlan(bytes: &[u8]) -> bool
    ensures value { result ≡ is_vxlan bytes.now }
{
    bytes.len() >= 16 && u16_be(bytes, 2) == VXLAN_PORT && bytes[8] == VXLAN_FLAGS
}

/// The network packet in a tunnel, and its EtherType.
fn bridged(kind: u16, bytes: &[u8]) -> Result<(u16, &[u8]), PassedOver>
    ensures { read_extension result ≡ bridged (extended kind bytes.now) }
{
    if kind == BRIDGED {
        return packet_in(LinkType::Ethernet, bytes);
    }
    network_packet(kind, bytes)
}

/// What the packet in a tunnel carries.
#[tactic(auto, unfolding(crate::specs::Tunnels::through))]
fn through(kind: u16, bytes: &[u8]) -> Result<(u8, &[u8]), PassedOver>
    ensures { read_extension result ≡ through (extended kind bytes.now) }
{
    let (kind, packet) = bridged(kind, bytes)?;
    transport(kind, packet)
}

/// The network packet in the tunnel that a packet's payload is, and its EtherType; None if it is none, or can't be
/// read.
#[tactic(auto, unfolding(crate::specs::Tunnels::tunnelled))]
pub(crate) fn tunnelled(protocol: u8, bytes: &[u8]) -> Option<(u16, &[u8])>
    ensures { read_packet result ≡ tunnelled (extended protocol bytes.now) }
{
    if protocol == GRE {
        let Ok((kind, packet)) = gre_packet(bytes) else {
            return None;
        };
        return bridged(kind, packet).ok();
    }
    if protocol == UDP && is_vxlan(bytes) {
        return bridged(BRIDGED, rest_from(bytes, 16)).ok();
    }
    None
}

/// What the packet inside this one carries, if it is a tunnel: a protocol, and its bytes.
#[tactic(auto, unfolding(crate::specs::Tunnels::inside))]
pub(crate) fn inside(protocol: u8, bytes: &[u8]) -> Result<Option<(u8, &[u8])>, PassedOver>
    ensures { read_inside result ≡ inside (extended protocol bytes.now) }
{
    if protocol == GRE {
        let (kind, packet) = gre_packet(bytes)?;
        return Ok(Some(through(kind, packet)?));
    }
    if protocol == UDP && is_vxlan(bytes) {
        return Ok(Some(through(BRIDGED, rest_from(bytes, 16))?));
    }
    Ok(None)
}

//! The UDP datagram that a captured frame carries.

ghost use Rattle.std.specs.Prelude.{◌≡◌, ◌≤◌, length};
ghost use Rattle.media_files_captures.specs.Frames.{datagram_behind, datagram_in, datagram_of, shown, udp};
ghost use Rattle.media_files_captures.specs.Network.{extended};

use crate::ip::{UDP, transport};
use crate::network::packet_in;
use crate::numbers::u16_be;
use crate::tunnels::inside;

// How many tunnels one inside the other are read.
pub(crate) const MOST_TUNNELS: usize = 4;

/// How a captured frame begins, by the number that a capture gives for it.
#[derive(Debug, Clone, Copy, PartialEq, Eq)]
pub enum LinkType {
    /// Ethernet (number 1), with VLAN tags and sessions of PPPoE.
    Ethernet,
    /// Linux's cooked captures (number 113).
    LinuxCooked,
    /// Linux's cooked captures of version 2 (number 276).
    LinuxCooked2,
    /// IP packets with nothing in front (numbers 12, 14, 101, 228 and 229).
    Raw,
    /// IP packets after the four bytes of a loopback (numbers 0 and 108).
    Loopback,
    /// Any other, in which no datagram is found.
    Other,
}

/// Why a frame gives no datagram.
#[derive(Debug, Clone, Copy, PartialEq, Eq)]
pub enum PassedOver {
    /// It doesn't carry UDP over IP.
    NotUdp,
    /// It carries only a fragment of a datagram.
    Fragment,
    /// The capture kept too little of it.
    Cut,
    /// A length or a version in it contradicts the protocol.
    Malformed,
}

/// A UDP datagram (RFC 768).
#[derive(Debug, Clone, Copy)]
pub struct UdpDatagram<'a> {
    /// The port that it comes from.
    pub source_port: u16,
    /// The port that it goes to.
    pub destination_port: u16,
    /// Its payload, as long as its header says.
    pub payload: &'a [u8],
}

/// The UDP datagram in front of these bytes.
#[tactic(auto, unfolding(crate::specs::Frames::udp))]
fn udp_datagram(bytes: &[u8]) -> Result<UdpDatagram<'_>, PassedOver>
    ensures { shown result ≡ udp bytes.now }
{
    if bytes.len() < 8 {
        return Err(PassedOver::Cut);
    }
    let len = u16_be(bytes, 4) as usize;
    if len < 8 {
        return Err(PassedOver::Malformed);
    }
    if bytes.len() < len {
        return Err(PassedOver::Cut);
    }
    Ok(UdpDatagram {
        source_port: u16_be(bytes, 0),
        destination_port: u16_be(bytes, 2),
        payload: &bytes[8..len],
    })
}

/// The datagram of a protocol, if that is UDP.
fn datagram_of(protocol: u8, bytes: &[u8]) -> Result<UdpDatagram<'_>, PassedOver>
    ensures { shown result ≡ datagram_of (extended protocol bytes.now) }
{
    if protocol == UDP {
        return udp_datagram(bytes);
    }
    Err(PassedOver::NotUdp)
}

/// The datagram inside at most so many tunnels.
fn datagram_behind(protocol: u8, bytes: &[u8], most: usize) -> Result<UdpDatagram<'_>, PassedOver>
    ensures { shown result ≡ datagram_behind most (extended protocol bytes.now) }
{
    let mut protocol = protocol;
    let mut rest = bytes;
    for _passed in 0..most {
        let Some(deeper) = inside(protocol, rest)? else {
            return datagram_of(protocol, rest);
        };
        (protocol, rest) = deeper;
    }
    datagram_of(protocol, rest)
}

/// The UDP datagram in what an IP packet of this protocol carries, of a fragmented one when it is whole again; or in at
/// most four tunnels (GRE, VXLAN) inside it.
///
/// # Errors
/// Why there is none, as for a frame.
pub fn udp_datagram_of(protocol: u8, payload: &[u8]) -> Result<UdpDatagram<'_>, PassedOver>
    ensures { shown result ≡ datagram_behind 4 (extended protocol payload.now) }
{
    datagram_behind(protocol, payload, MOST_TUNNELS)
}

/// The UDP datagram in a frame, or in at most four tunnels (GRE, VXLAN) inside it.
///
/// # Errors
/// Why the frame gives none: it carries something else, a fragment, less than its lengths say, or a contradiction.
#[tactic(auto, unfolding(crate::specs::Frames::datagram_in))]
pub fn udp_datagram_in(link: LinkType, frame: &[u8]) -> Result<UdpDatagram<'_>, PassedOver>
    ensures { shown result ≡ datagram_in link frame.now }
{
    let (kind, packet) = packet_in(link, frame)?;
    let (protocol, payload) = transport(kind, packet)?;
    udp_datagram_of(protocol, payload)
}

//! What IP packets carry.

ghost use Rattle.std.specs.Prelude.{◌≡◌, ◌<◌, ◌≤◌, length};
ghost use Rattle.media_files_captures.specs.Ip.{behind_extensions, carried, extension, extension_length, ipv4, ipv6};
ghost use Rattle.media_files_captures.specs.Ip.{ipv6_upper, is_carrier, is_extension, is_ipv6_fragment, is_passed};
ghost use Rattle.media_files_captures.specs.Ip.{transport};
ghost use Rattle.media_files_captures.specs.Network.{extended, read_extension};

use crate::frames::PassedOver;
use crate::network::{IPV4, IPV6};
use crate::numbers::{rest_from, u16_be};

// The protocol numbers of UDP and GRE, and of two extension headers.
pub(crate) const UDP: u8 = 17;

pub(crate) const GRE: u8 = 47;

const FRAGMENT: u8 = 44;

const AUTHENTICATION: u8 = 51;

/// Whether a protocol carries datagrams.
pub(crate) fn is_carrier(protocol: u8) -> bool
    ensures { result ≡ is_carrier protocol }
{
    protocol == UDP || protocol == GRE
}

/// What an IPv4 packet carries: a protocol, and its bytes.
#[tactic(auto, unfolding(crate::specs::Ip::ipv4, crate::specs::Ip::ipv4_payload))]
fn ipv4_payload(bytes: &[u8]) -> Result<(u8, &[u8]), PassedOver>
    ensures { read_extension result ≡ ipv4 bytes.now }
{
    if bytes.len() < 20 {
        return Err(PassedOver::Cut);
    }
    let header_len = 4 * (bytes[0] % 16) as usize;
    if bytes[0] / 16 != 4 || header_len < 20 {
        return Err(PassedOver::Malformed);
    }
    if !is_carrier(bytes[9]) {
        return Err(PassedOver::NotUdp);
    }
    if u16_be(bytes, 6) % 16384 != 0 {
        return Err(PassedOver::Fragment);
    }
    if bytes.len() < header_len {
        return Err(PassedOver::Cut);
    }
    Ok((bytes[9], rest_from(bytes, header_len)))
}

/// Whether a next header is an extension header.
fn is_extension(next: u8) -> bool
    ensures { result ≡ is_extension next }
{
    matches!(next, 0 | 43 | 44 | 51 | 60 | 135 | 139 | 140)
}

/// The length of an extension header.
fn extension_len(next: u8, bytes: &[u8]) -> usize
    requires { 1 < length bytes.now }
    ensures { result ≡ extension_length next bytes.now }
{
    match next {
        FRAGMENT => 8,
        AUTHENTICATION => 4 * (bytes[1] as usize + 2),
        _ => 8 * (bytes[1] as usize + 1),
    }
}

/// Whether an extension header belongs to a fragment.
pub(crate) fn is_ipv6_fragment(next: u8, bytes: &[u8]) -> bool
    ensures value { result ≡ is_ipv6_fragment next bytes.now }
{
    if next != FRAGMENT || bytes.len() < 8 {
        return false;
    }
    let place = u16_be(bytes, 2);
    place / 8 != 0 || place % 2 != 0
}

/// The next header after an extension header, and what is there.
#[tactic(auto, unfolding(crate::specs::Ip::extension))]
fn extension(next: u8, bytes: &[u8]) -> Result<(u8, &[u8]), PassedOver>
    ensures { read_extension result ≡ extension next bytes.now }
{
    if bytes.len() < 8 {
        return Err(PassedOver::Cut);
    }
    let len = extension_len(next, bytes);
    if bytes.len() < len {
        return Err(PassedOver::Cut);
    }
    Ok((bytes[0], rest_from(bytes, len)))
}

/// Whether an extension header is passed: any but a fragment's.
fn is_passed(next: u8, bytes: &[u8]) -> bool
    ensures { result ≡ is_passed next bytes.now }
{
    is_extension(next) && !is_ipv6_fragment(next, bytes)
}

/// What follows extension headers.
pub(crate) fn behind_extensions(
    next: u8,
    bytes: &[u8],
    most: usize,
) -> Result<(u8, &[u8]), PassedOver>
    ensures { read_extension result ≡ behind_extensions most next bytes.now }
{
    let mut next = next;
    let mut rest = bytes;
    for _passed in 0..most {
        if !is_passed(next, rest) {
            break;
        }
        (next, rest) = extension(next, rest)?;
    }
    Ok((next, rest))
}

/// What an IPv6 packet carries after its extension headers.
fn carried(next: u8, bytes: &[u8]) -> Result<(u8, &[u8]), PassedOver>
    ensures { read_extension result ≡ carried (extended next bytes.now) }
{
    if is_carrier(next) {
        return Ok((next, bytes));
    }
    if is_ipv6_fragment(next, bytes) {
        return Err(PassedOver::Fragment);
    }
    Err(if is_extension(next) {
        PassedOver::Cut
    } else {
        PassedOver::NotUdp
    })
}

/// What is after the extension headers of an IPv6 packet.
#[tactic(auto, unfolding(crate::specs::Ip::ipv6_upper))]
pub(crate) fn ipv6_upper(bytes: &[u8]) -> Result<(u8, &[u8]), PassedOver>
    requires { 40 ≤ length bytes.now }
    ensures { read_extension result ≡ ipv6_upper bytes.now }
{
    behind_extensions(bytes[6], rest_from(bytes, 40), bytes.len())
}

/// What an IPv6 packet carries: a protocol, and its bytes.
#[tactic(auto, unfolding(crate::specs::Ip::ipv6))]
fn ipv6_payload(bytes: &[u8]) -> Result<(u8, &[u8]), PassedOver>
    ensures { read_extension result ≡ ipv6 bytes.now }
{
    if bytes.len() < 40 {
        return Err(PassedOver::Cut);
    }
    if bytes[0] / 16 != 6 {
        return Err(PassedOver::Malformed);
    }
    let (next, upper) = ipv6_upper(bytes)?;
    carried(next, upper)
}

/// What the packet of an EtherType carries: a protocol, and its bytes.
#[tactic(auto, unfolding(crate::specs::Ip::transport))]
pub(crate) fn transport(kind: u16, packet: &[u8]) -> Result<(u8, &[u8]), PassedOver>
    ensures { read_extension result ≡ transport (extended kind packet.now) }
{
    match kind {
        IPV4 => ipv4_payload(packet),
        IPV6 => ipv6_payload(packet),
        _ => Err(PassedOver::NotUdp),
    }
}

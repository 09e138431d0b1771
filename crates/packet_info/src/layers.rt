//! The layers of a packet.

ghost use Rattle.std.specs.Prelude.{◌≡◌, ◌≤◌, MatchOption, None, Some};
ghost use Rattle.packet_info.specs.Layers.{av1_layers, behind_size, extension_layers, first_obu_in, h26x_layers};
ghost use Rattle.packet_info.specs.Layers.{layers_in, no_layers, tid_below, vp8_tid, vp9_layers};

use crate::packets::vp9_layer_byte;
use h26x_payload_units::Layout;
use media_types::Codec;
use payload_core_base::{byte_at, has_bit};

/// The layers of a scalable stream to which a packet belongs, each counted from 0, as far as the packet tells them.
#[derive(Clone, Copy, Debug, PartialEq, Eq, Drop)]
pub struct Layers {
    /// The spatial layer: SID of VP9, the layer id of H.265 and H.266, the spatial id of AV1.
    pub spatial: Option<u8>,
    /// The temporal layer: TID, or the temporal id of AV1.
    pub temporal: Option<u8>,
}

/// None is told.
fn no_layers() -> Layers
    ensures { result ≡ no_layers }
{
    Layers {
        spatial: None,
        temporal: None,
    }
}

/// TID of a VP8 descriptor, with X and T (RFC 7741 4.2).
fn vp8_tid(packet: &[u8]) -> Option<u8>
    ensures { result ≡ vp8_tid packet.now }
{
    let flags = byte_at(packet, 1);
    if !has_bit(byte_at(packet, 0), 0x80) || !has_bit(flags, 0x20) {
        return None;
    }
    let mut place = 2;
    if has_bit(flags, 0x80) {
        place += if has_bit(byte_at(packet, 2), 0x80) {
            2
        } else {
            1
        };
    }
    if has_bit(flags, 0x40) {
        place += 1;
    }
    Some(*packet.get(place)? / 64)
}

fn vp9_layers(packet: &[u8]) -> Layers
    ensures { result ≡ vp9_layers packet.now }
{
    match vp9_layer_byte(packet) {
        Some(byte) => Layers {
            spatial: Some(byte / 2 % 8),
            temporal: Some(byte / 32),
        },
        None => no_layers(),
    }
}

/// One less than TID's three bits say.
fn tid_below(bits: u8) -> Option<u8>
    ensures { result ≡ tid_below bits }
{
    if bits == 0 { None } else { Some(bits - 1) }
}

fn h26x_layers(layout: Layout, packet: &[u8]) -> Layers
    ensures { result ≡ h26x_layers layout packet.now }
{
    match packet {
        [high, low, ..] => Layers {
            spatial: Some(layout.layer_in(*high, *low)),
            temporal: tid_below(*low % 8),
        },
        _ => no_layers(),
    }
}

/// The bytes after a size in leb128 of at most this many bytes (AV1 bitstream specification 4.10.5).
fn behind_size(most: u8, bytes: &[u8]) -> Option<&[u8]>
    ensures { MatchOption result (behind_size most bytes.now ≡ None) (λ r. behind_size most bytes.now ≡ Some r.now) }
{
    if most == 0 {
        return None;
    }
    let (first, rest) = bytes.split_first()?;
    if *first < 128 {
        return Some(rest);
    }
    behind_size(most - 1, rest)
}

/// The bytes of a packet's first OBU, if it begins there (RTP payload format for AV1, 4.4).
fn first_obu_in(packet: &[u8]) -> Option<&[u8]>
    ensures { MatchOption result (first_obu_in packet.now ≡ None) (λ r. first_obu_in packet.now ≡ Some r.now) }
{
    let (first, body) = packet.split_first()?;
    if has_bit(*first, 0x80) {
        return None;
    }
    if *first / 16 % 4 == 1 {
        return Some(body);
    }
    behind_size(8, body)
}

fn av1_layers(packet: &[u8]) -> Layers
    ensures { result ≡ av1_layers packet.now }
{
    match first_obu_in(packet) {
        Some([header, byte, ..]) => {
            if !has_bit(*header, 4) {
                return no_layers();
            }
            Layers {
                spatial: Some(*byte / 8 % 4),
                temporal: Some(*byte / 32),
            }
        }
        _ => no_layers(),
    }
}

/// The layers that a packet tells.
pub(crate) fn layers_in(codec: Codec, packet: &[u8]) -> Layers
    ensures { result ≡ layers_in codec packet.now }
{
    match codec {
        Codec::Vp8 => Layers {
            spatial: None,
            temporal: vp8_tid(packet),
        },
        Codec::Vp9 => vp9_layers(packet),
        Codec::Av1 => av1_layers(packet),
        Codec::H265 => h26x_layers(Layout::H265, packet),
        Codec::H266 => h26x_layers(Layout::H266, packet),
        _ => no_layers(),
    }
}

//! Heads, tails and key frames.

ghost use Rattle.std.specs.Prelude.{◌≡◌, ◌<◌};
ghost use Rattle.h26x_payload_formats.specs.H264Reading.{is_h264_head};
ghost use Rattle.h26x_payload_formats.specs.Reading.{is_h265_h266_head};
ghost use Rattle.packet_info.specs.Packets.{first_has, is_head, is_lowest, is_tail, shows_key_frame, shows_vp9_key};
ghost use Rattle.packet_info.specs.Packets.{vp9_layer_byte};
ghost use Rattle.payload_core_vpx.specs.Vp9Descriptor.{picture_id_size};

use h26x_payload_formats::{
    FUA_NALU_TYPE, detect_h264_keyframe, detect_h265_keyframe, detect_h266_keyframe,
};
use h26x_payload_units::{Layout, has_start};
use media_types::Codec;
use payload_core_av1::detect_av1_keyframe;
use payload_core_base::{byte_at, has_bit};
use payload_core_vpx::detect_vp8_keyframe;

/// Whether there is a first byte with the bit of this weight.
fn first_has(packet: &[u8], weight: u8) -> bool
    requires { 0 < weight }
    ensures { result ≡ first_has weight packet.now }
{
    match packet.first() {
        Some(first) => has_bit(*first, weight),
        None => false,
    }
}

/// Whether it isn't a fragment without S (RFC 6184 5.8).
fn is_h264_head(packet: &[u8]) -> bool
    ensures { result ≡ is_h264_head packet.now }
{
    let Some((first, body)) = packet.split_first() else {
        return true;
    };
    if *first % 32 != FUA_NALU_TYPE {
        return true;
    }
    match body.first() {
        Some(fu) => has_start(*fu),
        None => false,
    }
}

/// The same of H.265 and H.266; a missing second byte counts as 0.
fn is_h265_h266_head(layout: Layout, packet: &[u8]) -> bool
    ensures { result ≡ is_h265_h266_head layout packet.now }
{
    let Some((high, rest)) = packet.split_first() else {
        return true;
    };
    let (low, body) = match rest.split_first() {
        Some((low, body)) => (*low, body),
        None => (0, rest),
    };
    layout.kind_of(*high, low).is_head(body)
}

/// Whether a frame can begin with a packet.
pub(crate) fn is_head(codec: Codec, packet: &[u8]) -> bool
    ensures { result ≡ is_head codec packet.now }
{
    match codec {
        Codec::Vp8 => first_has(packet, 0x10),
        Codec::Vp9 => first_has(packet, 0x08),
        Codec::Av1 => !packet.is_empty() && !first_has(packet, 0x80),
        Codec::H264 => is_h264_head(packet),
        Codec::H265 => is_h265_h266_head(Layout::H265, packet),
        Codec::H266 => is_h265_h266_head(Layout::H266, packet),
        _ => true,
    }
}

/// Whether a frame ends with a packet of this marker bit.
pub(crate) fn is_tail(codec: Codec, marker: bool) -> bool
    ensures { result ≡ is_tail codec marker }
{
    match codec {
        Codec::Vp8 | Codec::Vp9 | Codec::Av1 | Codec::H264 | Codec::H265 | Codec::H266 => marker,
        _ => true,
    }
}

/// How many bytes VP9's picture id has, after this first byte (RFC 9628 4.2).
fn picture_id_size(first: u8, rest: &[u8]) -> usize
    ensures { result ≡ picture_id_size first rest.now }
{
    if !has_bit(first, 0x80) {
        0
    } else if has_bit(byte_at(rest, 0), 0x80) {
        2
    } else {
        1
    }
}

/// VP9's byte of layers, if it has L.
pub(crate) fn vp9_layer_byte(packet: &[u8]) -> Option<u8>
    ensures { result ≡ vp9_layer_byte packet.now }
{
    let (first, rest) = packet.split_first()?;
    if !has_bit(*first, 0x20) {
        return None;
    }
    rest.get(picture_id_size(*first, rest)).copied()
}

fn is_lowest(layers: Option<u8>) -> bool
    ensures { result ≡ is_lowest layers }
{
    match layers {
        Some(byte) => byte / 2 % 8 == 0,
        None => true,
    }
}

/// Whether a VP9 packet isn't predicted from other pictures, in the lowest spatial layer.
fn shows_vp9_key(packet: &[u8]) -> bool
    ensures { result ≡ shows_vp9_key packet.now }
{
    match packet.first() {
        Some(first) => !has_bit(*first, 0x40) && is_lowest(vp9_layer_byte(packet)),
        None => false,
    }
}

/// Whether a packet shows that its frame is a key frame.
pub(crate) fn shows_key_frame(codec: Codec, packet: &[u8]) -> bool
    ensures { result ≡ shows_key_frame codec packet.now }
{
    match codec {
        Codec::Vp8 => detect_vp8_keyframe(packet),
        Codec::Vp9 => shows_vp9_key(packet),
        Codec::Av1 => detect_av1_keyframe(packet),
        Codec::H264 => detect_h264_keyframe(packet),
        Codec::H265 => detect_h265_keyframe(packet),
        Codec::H266 => detect_h266_keyframe(packet),
        _ => false,
    }
}

//! Reading VP9 payloads (RFC 9628 4.2).

ghost use Rattle.payload_core_vpx.specs.Vp9Descriptor.{behind_pictures, behind_structure, layers_size};
ghost use Rattle.payload_core_vpx.specs.Vp9Descriptor.{lists_too_many, payload_of, picture_id_of, picture_id_size};
ghost use Rattle.payload_core_vpx.specs.Vp9Descriptor.{picture_size, references_of, references_size, vp9_format};
ghost use Rattle.std.specs.Prelude.{◌≡◌, ◌≤◌, None};

use payload_core_base::{
    CodecExtra, Depacketizer, PacketError, Vp9CodecExtra, behind, byte_at, has_bit,
};

// The bits of a descriptor's first byte.
const I: u8 = 0x80;

const P: u8 = 0x40;

const L: u8 = 0x20;

const F: u8 = 0x10;

const B: u8 = 0x08;

const V: u8 = 0x02;

/// Hands out the frames of VP9 packets, in flexible mode or not (RFC 9628 4.2).
#[derive(Clone, Copy, Debug, Drop)]
pub struct Vp9Depacketizer;

impl Vp9Depacketizer {
    /// A depacketizer, which keeps nothing between packets.
    pub fn new() -> Self
        ensures { result ≡ record {} }
    {
        Vp9Depacketizer
    }
}

/// How many bytes the picture id has that is at the front, if I is set: two with M.
fn picture_id_size(first: u8, text: &[u8]) -> usize
    ensures value { result ≡ picture_id_size first text.now }
    ensures few { result ≤ 2 }
{
    if !has_bit(first, I) {
        0
    } else if has_bit(byte_at(text, 0), 0x80) {
        2
    } else {
        1
    }
}

/// The picture id that is at the front, if I is set.
fn picture_id_of(first: u8, text: &[u8]) -> Option<u16>
    ensures { result ≡ picture_id_of first text.now }
{
    let byte = byte_at(text, 0);
    if !has_bit(first, I) {
        None
    } else if has_bit(byte, 0x80) {
        Some(u16::from(byte % 128) * 256 + u16::from(byte_at(text, 1)))
    } else {
        Some(u16::from(byte))
    }
}

/// How many bytes tell the layers, if L is set: TL0PICIDX is there without F alone.
fn layers_size(first: u8) -> usize
    ensures value { result ≡ layers_size first }
    ensures few { result ≤ 2 }
{
    if !has_bit(first, L) {
        0
    } else if has_bit(first, F) {
        1
    } else {
        2
    }
}

/// How many references are at the front, if P and F are set: one more after each with N, and three at most.
fn references_size(first: u8, text: &[u8]) -> usize
    ensures value { result ≡ references_size first text.now }
    ensures few { result ≤ 3 }
{
    if !has_bit(first, P) || !has_bit(first, F) {
        0
    } else if !has_bit(byte_at(text, 0), 1) {
        1
    } else if !has_bit(byte_at(text, 1), 1) {
        2
    } else {
        3
    }
}

/// Whether a fourth reference is announced.
fn lists_too_many(first: u8, text: &[u8]) -> bool
    ensures { result ≡ lists_too_many first text.now }
{
    references_size(first, text) == 3 && has_bit(byte_at(text, 2), 1)
}

/// How many bytes a picture has that begins with this byte: it, and R references.
fn picture_size(byte: u8) -> usize
    ensures value { result ≡ picture_size byte }
    ensures few { result ≤ 4 }
{
    1 + usize::from(byte / 4 % 4)
}

/// What follows the pictures of a picture group.
fn behind_pictures(count: u8, text: &[u8]) -> &[u8]
    ensures { result.now ≡ behind_pictures count text.now }
{
    let mut rest = text;
    for _ in 0..count {
        rest = behind(rest, picture_size(byte_at(rest, 0)));
    }
    rest
}

/// What follows the scalability structure, if V is set.
fn behind_structure(first: u8, text: &[u8]) -> &[u8]
    ensures { result.now ≡ behind_structure first text.now }
{
    if !has_bit(first, V) {
        return text;
    }
    let flags = byte_at(text, 0);
    let sizes = if has_bit(flags, 0x10) {
        4 * (usize::from(flags / 32) + 1)
    } else {
        0
    };
    let group = behind(text, 1 + sizes);
    if has_bit(flags, 0x08) {
        behind_pictures(byte_at(group, 0), behind(group, 1))
    } else {
        group
    }
}

/// The bytes after the picture id and the layer indices.
fn references_of(first: u8, rest: &[u8]) -> &[u8]
    ensures { result.now ≡ references_of first rest.now }
{
    behind(
        behind(rest, picture_id_size(first, rest)),
        layers_size(first),
    )
}

/// What follows the descriptor.
fn payload_of(first: u8, rest: &[u8]) -> &[u8]
    ensures { result.now ≡ payload_of first rest.now }
{
    let references = references_of(first, rest);
    behind_structure(
        first,
        behind(references, references_size(first, references)),
    )
}

impl Depacketizer for Vp9Depacketizer {
    ghost format = { λ _. vp9_format };

    ghost fragment = { λ _. None };

    fn depacketize(
        &mut self,
        packet: &[u8],
        out: &mut Vec<u8>,
        extra: &mut CodecExtra,
    ) -> Result<(), PacketError> {
        let Some((first, rest)) = packet.split_first() else {
            return Err(PacketError::ErrShortPacket);
        };
        if lists_too_many(*first, references_of(*first, rest)) {
            return Err(PacketError::ErrTooManyPDiff);
        }
        let payload = payload_of(*first, rest);
        if payload.is_empty() {
            return Err(PacketError::ErrVP9CorruptedPacket);
        }
        out.extend_from_slice(payload)?;
        *extra = CodecExtra::Vp9(Vp9CodecExtra {
            picture_id: picture_id_of(*first, rest),
        });
        Ok(())
    }

    fn is_partition_head(&self, packet: &[u8]) -> bool {
        match packet.first() {
            Some(first) => has_bit(*first, B),
            None => false,
        }
    }

    fn is_partition_tail(&self, marker: bool, _packet: &[u8]) -> bool {
        marker
    }
}

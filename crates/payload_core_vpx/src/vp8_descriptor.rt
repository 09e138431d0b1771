//! The payload descriptor of VP8 (RFC 7741 4.2).

ghost use Rattle.payload_core_vpx.specs.Vp8Descriptor.{begins_keyframe, described_in, key_idx_in, key_place};
ghost use Rattle.payload_core_vpx.specs.Vp8Descriptor.{keyframe_in, layout_size, parsed, picture_id_in};
ghost use Rattle.payload_core_vpx.specs.Vp8Descriptor.{picture_id_size, shape_of, starts_keyframe, tl0_pic_idx_in};
ghost use Rattle.payload_core_vpx.specs.Vp8Descriptor.{tl0_place};
ghost use Rattle.payload_core_vpx.specs.Vp8Patches.{builder_of};
ghost use Rattle.payload_core_vpx.specs.Vp8Shifts.{picture_ids};
ghost use Rattle.std.specs.Prelude.{◌≡◌, ◌<◌, ◌≤◌, ◌^◌, drop};

use crate::vp8_patch::Vp8PatchBuilder;
use payload_core_base::{behind, byte_at, has_bit};
use thiserror::Error;

/// Why a payload has no VP8 descriptor.
#[derive(Clone, Copy, Debug, PartialEq, Eq, Drop, Error)]
pub enum Vp8DescriptorError {
    /// The payload has no byte.
    #[error("the VP8 payload is empty")]
    ShortPayload,
    /// The descriptor exceeds the payload, or nothing follows it.
    #[error("malformed VP8 descriptor")]
    MalformedDescriptor,
}

/// Which fields a descriptor has.
#[derive(Clone, Copy, Debug, PartialEq, Eq, Drop)]
pub struct Shape {
    /// X: a byte of flags is second.
    pub is_extended: bool,
    /// I: a picture id.
    pub has_picture_id: bool,
    /// M: of 15 bits.
    pub is_long: bool,
    /// L: TL0PICIDX.
    pub has_tl0_pic_idx: bool,
    /// T or K: a byte of TID, Y and KEYIDX.
    pub has_key_byte: bool,
    /// K: KEYIDX counts.
    pub has_key_idx: bool,
}

/// The payload descriptor of a VP8 packet (RFC 7741 4.2).
#[derive(Clone, Copy, Debug, PartialEq, Eq, Drop)]
pub struct Vp8Descriptor {
    begins_frame: bool,
    shape: Shape,
    picture_id: Option<u16>,
    tl0_pic_idx: Option<u8>,
    key_idx: Option<u8>,
}

/// Which fields the descriptor of a payload has.
fn shape_of(payload: &[u8]) -> Shape
    ensures { result ≡ shape_of payload.now }
{
    let is_extended = has_bit(byte_at(payload, 0), 0x80);
    let flags = if is_extended { byte_at(payload, 1) } else { 0 };
    let has_picture_id = has_bit(flags, 0x80);
    Shape {
        is_extended,
        has_picture_id,
        is_long: has_picture_id && has_bit(byte_at(payload, 2), 0x80),
        has_tl0_pic_idx: has_bit(flags, 0x40),
        has_key_byte: has_bit(flags, 0x20) || has_bit(flags, 0x10),
        has_key_idx: has_bit(flags, 0x10),
    }
}

impl Shape {
    /// How many bytes the picture id has.
    fn picture_id_size(self) -> usize
        ensures value { result ≡ picture_id_size self }
        ensures few { result ≤ 2 }
    {
        if !self.has_picture_id {
            0
        } else if self.is_long {
            2
        } else {
            1
        }
    }

    /// Where TL0PICIDX is, if it is there.
    pub(crate) fn tl0_place(self) -> usize
        ensures value { result ≡ tl0_place self }
        ensures few { result ≤ 4 }
    {
        2 + self.picture_id_size()
    }

    /// Where KEYIDX is, if it is there.
    pub(crate) fn key_place(self) -> usize
        ensures value { result ≡ key_place self }
        ensures few { result ≤ 5 }
    {
        if self.has_tl0_pic_idx {
            self.tl0_place() + 1
        } else {
            self.tl0_place()
        }
    }

    /// How many bytes the descriptor has.
    fn layout_size(self) -> usize
        ensures value { result ≡ layout_size self }
        ensures few { result ≤ 6 }
    {
        if !self.is_extended {
            1
        } else if self.has_key_byte {
            self.key_place() + 1
        } else {
            self.key_place()
        }
    }

    /// The picture id of a payload of this shape.
    fn picture_id_in(self, payload: &[u8]) -> Option<u16>
        ensures { result ≡ picture_id_in self payload.now }
    {
        let byte = u16::from(byte_at(payload, 2) % 128);
        if !self.has_picture_id {
            None
        } else if self.is_long {
            Some(byte * 256 + u16::from(byte_at(payload, 3)))
        } else {
            Some(byte)
        }
    }

    /// TL0PICIDX of a payload of this shape.
    fn tl0_pic_idx_in(self, payload: &[u8]) -> Option<u8>
        ensures { result ≡ tl0_pic_idx_in self payload.now }
    {
        if self.has_tl0_pic_idx {
            Some(byte_at(payload, self.tl0_place()))
        } else {
            None
        }
    }

    /// KEYIDX of a payload of this shape.
    fn key_idx_in(self, payload: &[u8]) -> Option<u8>
        ensures { result ≡ key_idx_in self payload.now }
    {
        if self.has_key_idx {
            Some(byte_at(payload, self.key_place()) % 32)
        } else {
            None
        }
    }
}

/// What the descriptor of a payload of this shape tells.
fn described_in(shape: Shape, payload: &[u8]) -> Vp8Descriptor
    ensures { result ≡ described_in shape payload.now }
{
    let first = byte_at(payload, 0);
    Vp8Descriptor {
        begins_frame: has_bit(first, 0x10) && first % 8 == 0,
        shape,
        picture_id: shape.picture_id_in(payload),
        tl0_pic_idx: shape.tl0_pic_idx_in(payload),
        key_idx: shape.key_idx_in(payload),
    }
}

impl Vp8Descriptor {
    /// The descriptor of a payload (RFC 7741 4.2).
    ///
    /// # Errors
    /// `ShortPayload` if there is no byte, `MalformedDescriptor` if it passes the end or nothing follows
    /// it.
    pub fn parse(payload: &[u8]) -> Result<Self, Vp8DescriptorError>
        ensures { result ≡ parsed payload.now }
    {
        if payload.is_empty() {
            return Err(Vp8DescriptorError::ShortPayload);
        }
        let shape = shape_of(payload);
        if behind(payload, shape.layout_size()).is_empty() {
            return Err(Vp8DescriptorError::MalformedDescriptor);
        }
        Ok(described_in(shape, payload))
    }

    /// The picture id, of 7 or 15 bits, if the descriptor has one.
    pub fn picture_id(&self) -> Option<u16>
        ensures { result ≡ self.now.picture_id }
    {
        self.picture_id
    }

    /// How many picture ids the field of the descriptor's picture id holds.
    pub(crate) fn picture_ids(&self) -> u32
        ensures value { result ≡ picture_ids self.now }
        ensures some { 0 < result }
        ensures few { result ≤ 2 ^ 15 }
    {
        if self.shape.is_long { 32_768 } else { 128 }
    }

    /// The index of the temporal base layer frame (TL0PICIDX), if the descriptor has one.
    pub fn tl0_pic_idx(&self) -> Option<u8>
        ensures { result ≡ self.now.tl0_pic_idx }
    {
        self.tl0_pic_idx
    }

    /// The index of the temporal keyframe (KEYIDX), 0 to 31, if the descriptor has one.
    pub fn key_idx(&self) -> Option<u8>
        ensures { result ≡ self.now.key_idx }
    {
        self.key_idx
    }

    /// Whether this payload, descriptor included, begins a keyframe: S is set, PID is 0, and the
    /// low bit of the first byte after the descriptor is clear (RFC 7741 4.2 and 4.3). False if
    /// there is no such byte.
    pub fn starts_keyframe(&self, payload: &[u8]) -> bool
        ensures { result ≡ starts_keyframe self.now payload.now }
    {
        self.begins_frame && begins_keyframe(behind(payload, self.shape.layout_size()))
    }

    /// What follows the descriptor.
    pub(crate) fn frame_of<'a>(&self, payload: &'a [u8]) -> &'a [u8]
        ensures { result.now ≡ drop (layout_size self.now.shape) payload.now }
    {
        behind(payload, self.shape.layout_size())
    }

    /// Which fields the descriptor has.
    pub(crate) fn shape(&self) -> Shape
        ensures { result ≡ self.now.shape }
    {
        self.shape
    }

    /// A builder of patches of the ids, which has none yet.
    pub fn patch(&self) -> Vp8PatchBuilder
        ensures { result ≡ builder_of self.now.shape }
    {
        Vp8PatchBuilder::of(self.shape)
    }
}

/// Whether a frame is a keyframe: the low bit of its first byte is clear.
fn begins_keyframe(frame: &[u8]) -> bool
    ensures { result ≡ begins_keyframe frame.now }
{
    match frame.first() {
        Some(byte) => *byte % 2 == 0,
        None => false,
    }
}

/// Whether a payload, descriptor included, begins a keyframe (RFC 7741 4.2 and 4.3): of one that
/// `Vp8Descriptor::parse` refuses, false.
pub fn detect_vp8_keyframe(payload: &[u8]) -> bool
    ensures { result ≡ keyframe_in (parsed payload.now) payload.now }
{
    match Vp8Descriptor::parse(payload) {
        Ok(descriptor) => descriptor.starts_keyframe(payload),
        Err(_) => false,
    }
}

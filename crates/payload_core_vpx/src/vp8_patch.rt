//! Patches of the ids in VP8 payload descriptors (RFC 7741 4.2).

ghost use Rattle.payload_core_vpx.specs.Vp8Descriptor.{key_place, tl0_place};
ghost use Rattle.payload_core_vpx.specs.Vp8Patches.{Reaches, builder_of, key_idx_refusal, patch_of, patch_with};
ghost use Rattle.payload_core_vpx.specs.Vp8Patches.{patched};
ghost use Rattle.payload_core_vpx.specs.Vp8Patches.{picture_id_end, picture_id_refusal, refusal_of_build};
ghost use Rattle.payload_core_vpx.specs.Vp8Patches.{tl0_pic_idx_refusal, with_key_idx, with_picture_id};
ghost use Rattle.payload_core_vpx.specs.Vp8Patches.{with_tl0_pic_idx};
ghost use Rattle.std.specs.Option.{ForSome};
ghost use Rattle.std.specs.Prelude.{◌≡◌, ◌<◌, IfErr, IfOk, None, Some, length};

use crate::vp8_descriptor::{Shape, Vp8Descriptor};
use thiserror::Error;

/// Why a patch is not built.
#[derive(Clone, Copy, Debug, PartialEq, Eq, Drop, Error)]
pub enum Vp8PatchError {
    /// The descriptor has no picture id.
    #[error("the VP8 descriptor has no picture id")]
    PictureIdMissing,
    /// The picture id doesn't fit the 7 or 15 bits of its field.
    #[error("the picture id is too large for its field")]
    PictureIdTooLarge,
    /// The descriptor has no TL0PICIDX.
    #[error("the VP8 descriptor has no TL0PICIDX")]
    Tl0PicIdxMissing,
    /// The descriptor has no KEYIDX.
    #[error("the VP8 descriptor has no KEYIDX")]
    KeyIdxMissing,
    /// KEYIDX is above 31.
    #[error("KEYIDX is too large for its field")]
    KeyIdxTooLarge,
}

/// Collects the ids of a patch.
#[derive(Clone, Copy, Debug, Drop)]
pub struct Vp8PatchBuilder {
    shape: Shape,
    picture_id: Option<u16>,
    tl0_pic_idx: Option<u8>,
    key_idx: Option<u8>,
}

/// New ids for payloads with a descriptor's layout, in the widths the ids have there.
#[derive(Clone, Copy, Debug, Drop)]
pub struct Vp8Patch {
    shape: Shape,
    picture_id: Option<u16>,
    tl0_pic_idx: Option<u8>,
    key_idx: Option<u8>,
}

/// Refuses a picture id that is missing or too large.
fn check_picture_id(shape: Shape, id: Option<u16>) -> Option<Vp8PatchError>
    ensures { result ≡ picture_id_refusal shape id }
{
    let Some(id) = id else {
        return None;
    };
    let max: u16 = if shape.is_long { 32_767 } else { 127 };
    if !shape.has_picture_id {
        Some(Vp8PatchError::PictureIdMissing)
    } else if max < id {
        Some(Vp8PatchError::PictureIdTooLarge)
    } else {
        None
    }
}

/// Refuses a TL0PICIDX that is missing.
fn check_tl0_pic_idx(shape: Shape, index: Option<u8>) -> Option<Vp8PatchError>
    ensures { result ≡ tl0_pic_idx_refusal shape index }
{
    if index.is_some() && !shape.has_tl0_pic_idx {
        Some(Vp8PatchError::Tl0PicIdxMissing)
    } else {
        None
    }
}

/// Refuses a KEYIDX that is missing or too large.
fn check_key_idx(shape: Shape, index: Option<u8>) -> Option<Vp8PatchError>
    ensures { result ≡ key_idx_refusal shape index }
{
    let Some(index) = index else {
        return None;
    };
    if !shape.has_key_idx {
        Some(Vp8PatchError::KeyIdxMissing)
    } else if 31 < index {
        Some(Vp8PatchError::KeyIdxTooLarge)
    } else {
        None
    }
}

impl Vp8PatchBuilder {
    /// A builder without ids, for descriptors of this shape.
    pub(crate) fn of(shape: Shape) -> Self
        ensures { result ≡ builder_of shape }
    {
        Vp8PatchBuilder {
            shape,
            picture_id: None,
            tl0_pic_idx: None,
            key_idx: None,
        }
    }

    /// Writes this picture id, at most 7F or 7FFF by the width of the field.
    pub fn picture_id(mut self, picture_id: u16) -> Self
        ensures { result ≡ record self { picture_id = Some picture_id } }
    {
        self.picture_id = Some(picture_id);
        self
    }

    /// Writes this TL0PICIDX.
    pub fn tl0_pic_idx(mut self, tl0_pic_idx: u8) -> Self
        ensures { result ≡ record self { tl0_pic_idx = Some tl0_pic_idx } }
    {
        self.tl0_pic_idx = Some(tl0_pic_idx);
        self
    }

    /// Writes this KEYIDX, at most 31.
    pub fn key_idx(mut self, key_idx: u8) -> Self
        ensures { result ≡ record self { key_idx = Some key_idx } }
    {
        self.key_idx = Some(key_idx);
        self
    }

    /// The patch of these ids.
    ///
    /// # Errors
    /// The first refusal counts, of the picture id, TL0PICIDX and KEYIDX in this order: an id that the descriptor
    /// doesn't have, and then one that its field can't hold.
    pub fn build(self) -> Result<Vp8Patch, Vp8PatchError>
        ensures built { IfOk result (λ patch. (refusal_of_build self ≡ None) × (patch ≡ patch_of self)) }
        ensures refused { IfErr result (λ e. refusal_of_build self ≡ Some e) }
    {
        if let Some(e) = check_picture_id(self.shape, self.picture_id) {
            return Err(e);
        }
        if let Some(e) = check_tl0_pic_idx(self.shape, self.tl0_pic_idx) {
            return Err(e);
        }
        if let Some(e) = check_key_idx(self.shape, self.key_idx) {
            return Err(e);
        }
        Ok(Vp8Patch {
            shape: self.shape,
            picture_id: self.picture_id,
            tl0_pic_idx: self.tl0_pic_idx,
            key_idx: self.key_idx,
        })
    }
}

/// Writes a picture id into its field.
fn put_picture_id(out: &mut [u8], long: bool, id: Option<u16>)
    requires { ForSome id (λ _. picture_id_end long < length out.old) }
    ensures { out.new ≡ with_picture_id long id out.old }
{
    let Some(id) = id else {
        return;
    };
    if long {
        out[2] = out[2] / 128 * 128 + (id / 256 % 128) as u8;
        out[3] = (id % 256) as u8;
    } else {
        out[2] = out[2] / 128 * 128 + (id % 128) as u8;
    }
}

/// Writes a TL0PICIDX at its place.
fn put_tl0_pic_idx(out: &mut [u8], place: usize, index: Option<u8>)
    requires { ForSome index (λ _. place < length out.old) }
    ensures { out.new ≡ with_tl0_pic_idx place index out.old }
{
    if let Some(index) = index {
        out[place] = index;
    }
}

/// Writes a KEYIDX after the TID and Y at its place.
fn put_key_idx(out: &mut [u8], place: usize, index: Option<u8>)
    requires { ForSome index (λ _. place < length out.old) }
    ensures { out.new ≡ with_key_idx place index out.old }
{
    if let Some(index) = index {
        out[place] = out[place] / 32 * 32 + index % 32;
    }
}

impl Vp8Patch {
    /// A patch of these ids, for payloads with the fields of this descriptor.
    pub(crate) fn of(
        descriptor: &Vp8Descriptor,
        picture_id: Option<u16>,
        tl0_pic_idx: Option<u8>,
        key_idx: Option<u8>,
    ) -> Self
        ensures { result ≡ patch_with descriptor.now.shape picture_id tl0_pic_idx key_idx }
    {
        Vp8Patch {
            shape: descriptor.shape(),
            picture_id,
            tl0_pic_idx,
            key_idx,
        }
    }

    /// Copies a payload to `out`, which is as long, with the patch's ids in place of its own. All other bits
    /// stay. The payload reaches each byte that the patch writes, as the descriptor's own does.
    ///
    /// # Conditions
    /// `out` is as long as the payload, and the payload reaches each byte that the patch writes.
    pub fn copy_to(&self, payload: &[u8], out: &mut [u8])
        requires equal_lengths { length payload.now ≡ length out.old }
        requires reaches { Reaches self.now (length payload.now) }
        ensures { out.new ≡ patched self.now payload.now }
    {
        out.copy_from_slice(payload);
        put_picture_id(out, self.shape.is_long, self.picture_id);
        put_tl0_pic_idx(out, self.shape.tl0_place(), self.tl0_pic_idx);
        put_key_idx(out, self.shape.key_place(), self.key_idx);
    }
}

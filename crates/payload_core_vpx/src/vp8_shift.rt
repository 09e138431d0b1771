//! Ids of VP8 payloads that are moved on (RFC 7741 4.2).

ghost use Rattle.payload_core_vpx.specs.Vp8Patches.{patch_of};
ghost use Rattle.payload_core_vpx.specs.Vp8Shifts.{ContinuesLaw, MovesLaw, continuing, moved, moved_ids};
ghost use Rattle.payload_core_vpx.specs.Vp8Shifts.{moved_payload, shift_after};
ghost use Rattle.std.specs.Prelude.{◌≡◌, ◌+◌, ◌<◌, ◌≤◌, ◌^◌, length};

use crate::vp8_descriptor::Vp8Descriptor;
use crate::vp8_patch::Vp8Patch;

/// How far the ids of VP8 payloads are moved on, each on the circle of its field: 2^7 or 2^15 picture ids, 256 of
/// TL0PICIDX, 32 of KEYIDX. So payloads of several senders are continued as those of one.
#[derive(Clone, Copy, Debug, PartialEq, Eq, Drop)]
pub struct Vp8Shift {
    /// Of the picture id.
    pub picture_id: u16,
    /// Of TL0PICIDX.
    pub tl0_pic_idx: u8,
    /// Of KEYIDX.
    pub key_idx: u8,
}

/// An id, so much further on a circle of this size.
fn moved(size: u32, shift: u16, id: Option<u16>) -> Option<u16>
    requires some { 0 < size }
    requires few { size ≤ 2 ^ 15 }
    ensures { result ≡ moved size shift id }
{
    match id {
        Some(id) => Some(((u32::from(id) + u32::from(shift)) % size) as u16),
        None => None,
    }
}

/// The same for an id of one byte.
fn moved_byte(size: u32, shift: u8, id: Option<u8>) -> Option<u8>
    requires some { 0 < size }
    requires few { size ≤ 2 ^ 8 }
    ensures { result ≡ moved size shift id }
{
    match id {
        Some(id) => Some(((u32::from(id) + u32::from(shift)) % size) as u8),
        None => None,
    }
}

/// How far an id is moved on so that it follows another one.
fn shift_after(size: u32, last: Option<u16>, first: Option<u16>) -> u16
    requires some { 0 < size }
    requires few { size ≤ 2 ^ 15 }
    ensures { result ≡ shift_after size last first }
{
    match (last, first) {
        (Some(last), Some(first)) => {
            ((u32::from(last) + 1 + size.saturating_sub(u32::from(first))) % size) as u16
        }
        _ => 0,
    }
}

/// The same for an id of one byte.
fn shift_of_byte(size: u32, last: Option<u8>, first: Option<u8>) -> u8
    requires some { 0 < size }
    requires few { size ≤ 2 ^ 8 }
    ensures { result ≡ shift_after size last first }
{
    match (last, first) {
        (Some(last), Some(first)) => {
            ((u32::from(last) + 1 + size.saturating_sub(u32::from(first))) % size) as u8
        }
        _ => 0,
    }
}

impl Vp8Shift {
    /// How far the ids of payloads are moved on of which `first` is the first one's descriptor, so that they follow
    /// those of `last`, the descriptor of the payload before, as it was sent. An id that one of them lacks stays.
    pub fn continuing(last: &Vp8Descriptor, first: &Vp8Descriptor) -> Self
        ensures { result ≡ continuing last.now first.now }
    {
        Vp8Shift {
            picture_id: shift_after(first.picture_ids(), last.picture_id(), first.picture_id()),
            tl0_pic_idx: shift_of_byte(256, last.tl0_pic_idx(), first.tl0_pic_idx()),
            key_idx: shift_of_byte(32, last.key_idx(), first.key_idx()),
        }
    }

    /// Copies a payload to `out`, which is as long, with its ids moved on; as it is, if it has no descriptor. The width
    /// of the picture id stays, and so do all other bits.
    ///
    /// # Conditions
    /// `out` is as long as the payload.
    pub fn copy_to(self, payload: &[u8], out: &mut [u8])
        requires { length payload.now ≡ length out.old }
        ensures { out.new ≡ moved_payload self payload.now }
    {
        match Vp8Descriptor::parse(payload) {
            Ok(descriptor) => {
                let patch = self.patch(&descriptor);
                patch.copy_to(payload, out);
            }
            Err(_) => out.copy_from_slice(payload),
        }
    }

    /// The patch of a descriptor's ids, moved on.
    fn patch(self, descriptor: &Vp8Descriptor) -> Vp8Patch
        ensures { result ≡ patch_of (moved_ids self descriptor.now) }
    {
        Vp8Patch::of(
            descriptor,
            moved(
                descriptor.picture_ids(),
                self.picture_id,
                descriptor.picture_id(),
            ),
            moved_byte(256, self.tl0_pic_idx, descriptor.tl0_pic_idx()),
            moved_byte(32, self.key_idx, descriptor.key_idx()),
        )
    }
}

/// A payload whose ids are moved on is read with the moved ids, and nothing else in it changes (`moved`). Moved on so
/// as to continue another payload, the first id is the one after the last, and the distances between ids stay
/// (`continues`).
pub fn vp8_shift_law()
    ensures moved { MovesLaw }
    ensures continues { ContinuesLaw }
{}

//! Ids of VP8 payloads that are sent on.

ghost use Rattle.payload_core_vpx.specs.Vp8Descriptor.{parsed};
ghost use Rattle.payload_core_vpx.specs.Vp8Shifts.{continuing, moved_payload};
ghost use Rattle.payload_core_vpx.specs.declared.vp8_descriptor.Vp8Descriptor.{Vp8Descriptor};
ghost use Rattle.rtp_media_forward.specs.Vp8Ids.{Idents, after_payload, first_shift, later, no_idents, no_shift};
ghost use Rattle.rtp_media_forward.specs.Vp8Ids.{shift_at, shift_in, with_part};
ghost use Rattle.rtp_media_forward.specs.declared.vp8_ids.Vp8Sent.{Vp8Sent};
ghost use Rattle.std.specs.Prelude.{◌≡◌, ℕ, ◌<◌, ◌≤◌, List, Ok, Some, OnErr, OnOk, length};

use payload_core_vpx::{Vp8Descriptor, Vp8Shift};
use std::alloc::{AllocError, Global};
use std::marker::Model;

/// How many parts are kept.
const MOST_PARTS: usize = 64;

/// How far the ids of payloads are moved on that are sent under this number or a greater one.
#[derive(Clone, Copy, Debug, PartialEq, Eq, Drop)]
pub struct Vp8Part {
    /// The number of the part's first payload.
    pub first: u64,
    /// How far ids are moved on.
    pub shift: Vp8Shift,
}

/// A payload that was sent.
#[derive(Clone, Copy, Debug, PartialEq, Eq, Drop)]
pub struct Vp8Sent {
    /// Its number.
    pub number: u64,
    /// Its descriptor, as it was sent.
    pub descriptor: Vp8Descriptor,
}

/// The ids of VP8 payloads that a forwarder sends on (RFC 7741 4.2): picture id, TL0PICIDX and KEYIDX. Those of each
/// part are moved on so that they follow the ones of the payload with the greatest number before, so a receiver sees
/// one sender. At least the last 64 parts are kept.
#[derive(Drop)]
pub struct Vp8Ids {
    parts: Vec<Vp8Part>,
    last: Option<Vp8Sent>,
}

impl Model for Vp8Ids {
    ghost use Rattle.rtp_media_forward.specs.Vp8Ids.{Idents};

    ghost Value = { Idents };

    ghost view = { λ i. record { parts = i.parts.items; last = i.last } };
}

/// Ids stay as they are.
fn no_shift() -> Vp8Shift
    ensures { result ≡ no_shift }
{
    Vp8Shift {
        picture_id: 0,
        tl0_pic_idx: 0,
        key_idx: 0,
    }
}

/// How far ids are moved on under this number.
fn shift_in(parts: &[Vp8Part], number: u64) -> Vp8Shift
    ensures { result ≡ shift_in no_shift parts.now number }
{
    let mut shift = no_shift();
    for part in parts {
        if part.first <= number {
            shift = part.shift;
        }
    }
    shift
}

/// How far a part's ids are moved on, by its first payload.
fn first_shift(last: Option<Vp8Sent>, payload: &[u8]) -> Vp8Shift
    ensures { result ≡ first_shift last (parsed payload.now) }
{
    let Some(last) = last else {
        return no_shift();
    };
    match Vp8Descriptor::parse(payload) {
        Ok(first) => Vp8Shift::continuing(&last.descriptor, &first),
        Err(_) => no_shift(),
    }
}

/// The later one of the last payload and this one.
fn later(last: Option<Vp8Sent>, number: u64, payload: &[u8]) -> Option<Vp8Sent>
    ensures { result ≡ later last number (parsed payload.now) }
{
    let Ok(descriptor) = Vp8Descriptor::parse(payload) else {
        return last;
    };
    match last {
        Some(sent) if number < sent.number => Some(sent),
        _ => Some(Vp8Sent { number, descriptor }),
    }
}

impl Vp8Ids {
    /// Nothing was sent.
    pub fn new(alloc: Global) -> Self
        ensures { result ≡ no_idents }
    {
        Vp8Ids {
            parts: Vec::new(alloc),
            last: None,
        }
    }

    /// Begins a part, after `Forwarder::switch` to a source, by the payload of its first packet and the number under
    /// which that is sent: from there on ids follow those of the payload with the greatest number so far. An id that
    /// one of the two lacks stays.
    ///
    /// # Errors
    /// `AllocError`, and nothing has changed.
    pub fn begin(&mut self, first: u64, payload: &[u8]) -> Result<(), AllocError>
        ensures after { OnOk result (self.new ≡ with_part self.old first payload.now) }
        ensures unchanged { OnErr result (self.new ≡ self.old) }
    {
        let shift = first_shift(self.last, payload);
        self.parts.push(Vp8Part { first, shift })?;
        if self.parts.len() > MOST_PARTS {
            self.parts.remove(0);
        }
        Ok(())
    }

    /// Copies a payload to `out`, which is as long, with the ids that it is sent with under this number.
    ///
    /// # Conditions
    /// `out` is as long as the payload.
    pub fn copy_to(&mut self, number: u64, payload: &[u8], out: &mut [u8])
        requires { length payload.now ≡ length out.old }
        ensures written { out.new ≡ moved_payload (shift_at self.old number) payload.now }
        ensures after { self.new ≡ after_payload self.old number out.new }
    {
        let shift = shift_in(self.parts.as_slice(), number);
        shift.copy_to(payload, out);
        self.last = later(self.last, number, out);
    }
}

/// From a part's first payload on its ids are moved on so that they follow those of the last payload that was sent
/// (`begins`), and payloads under lower numbers are sent as before (`before`) as long as their part is kept.
pub fn vp8_ids_law()
    ensures begins { (ids : Idents) (first : ℕ) (payload : List ℕ) (last : Vp8Sent) (d : Vp8Descriptor) →
        ids.last ≡ Some last → parsed payload ≡ Ok d → (number : ℕ) → first ≤ number →
        shift_at (with_part ids first payload) number ≡ continuing last.descriptor d }
    ensures before { (ids : Idents) (first number : ℕ) (payload : List ℕ) → length ids.parts < 64 → number < first →
        shift_at (with_part ids first payload) number ≡ shift_at ids number }
{}

//! Reading AV1 payloads (RTP payload format for AV1, 4.4 and 4.5).

ghost use Rattle.payload_core_av1.specs.Av1Reading.{av1_format, begun, has_y, has_z, is_av1_keyframe};
ghost use Rattle.payload_core_av1.specs.Av1Reading.{was_keyframe};
ghost use Rattle.payload_core_av1.specs.Av1ReadingViews.{beside, fresh, Gathers, given_of, Keeps, opened_of};
ghost use Rattle.std.specs.Prelude.{[], ◌∷◌, ◌≡◌, ◌≢◌, ◌<◌, IfErr, IfOk, OnErr, OnOk, None, map};
ghost use Rattle.std.specs.Prelude.{option_map, length, true, unwrap_or};

use crate::av1_elements::{are_units, complete, elements_of, give_and_open, give_joined};
use payload_core_base::{Av1CodecExtra, CodecExtra, Depacketizer, PacketError, has_bit};
use std::alloc::Global;
use std::mem;

// The bits of the aggregation header.
const Z: u8 = 0x80;

const Y: u8 = 0x40;

const N: u8 = 0x08;

/// Hands out the units of AV1 packets, each with its size (RTP payload format for AV1, 4.4 and 4.5).
pub struct Av1Depacketizer {
    alloc: Global,
    fragment: Option<Vec<u8>>,
    // The memory of a fragment that was closed, for the next one.
    spare: Vec<u8>,
}

/// Written by hand, so that crates that drop this type need no proof about its fields.
impl Drop for Av1Depacketizer {
    fn drop(self) {
        let Av1Depacketizer {
            alloc: _alloc,
            fragment: _fragment,
            spare: _spare,
        } = self;
    }
}

/// Whether a packet begins a coded video sequence: it has N.
pub fn detect_av1_keyframe(packet: &[u8]) -> bool
    ensures { result ≡ is_av1_keyframe packet.now }
{
    match packet.first() {
        Some(first) => has_bit(*first, N),
        None => false,
    }
}

impl Av1Depacketizer {
    /// A depacketizer with no open fragment; it allocates from `alloc`.
    pub fn new(alloc: Global) -> Self
        ensures { option_map (λ v. v.items) result.fragment ≡ None }
    {
        Av1Depacketizer {
            alloc,
            fragment: None,
            spare: Vec::new(alloc),
        }
    }

    /// How many bytes the open fragment has; 0 if none is open.
    pub fn fragment_len(&self) -> usize
        ensures { result ≡ length (unwrap_or (option_map (λ v. v.items) self.now.fragment) []) }
    {
        match &self.fragment {
            Some(fragment) => fragment.len(),
            None => 0,
        }
    }

    /// Replaces the open fragment (maybe by none); the old one's memory is kept for a later one.
    fn reopen(&mut self, opened: Option<Vec<u8>>)
        ensures { option_map (λ v. v.items) self.new.fragment ≡ option_map (λ v. v.items) opened }
    {
        let before = mem::replace(&mut self.fragment, opened);
        if let Some(closed) = before {
            self.spare = closed;
        }
    }

    /// Takes elements, dropping an open fragment.
    fn take_fresh(
        &mut self,
        opens_last: bool,
        elements: &[&[u8]],
        out: &mut Vec<u8>,
    ) -> Result<(), PacketError>
        ensures given { let all = fresh (map (λ e. e.now) elements.now) in
            IfOk result (λ _. Gathers out.old.items (given_of opens_last all) out.new.items) }
        ensures fragment { let all = fresh (map (λ e. e.now) elements.now) in
            OnOk result (option_map (λ v. v.items) self.new.fragment ≡ opened_of opens_last all) }
        ensures kept { Keeps out.old.items out.new.items }
        ensures unchanged { OnErr result (option_map (λ v. v.items) self.new.fragment
            ≡ option_map (λ v. v.items) self.old.fragment) }
        ensures refused { let all = fresh (map (λ e. e.now) elements.now) in IfErr result (λ e. e ≢ PacketError.Memory
            → (e ≡ PacketError.ErrAv1CorruptedPacket) × (given_of opens_last all ≡ None)) }
    {
        let next = give_and_open(self.alloc, &mut self.spare, opens_last, elements, out)?;
        self.reopen(next);
        Ok(())
    }

    /// Takes elements without touching the open fragment, which stays unless the last one opens
    /// another.
    fn take_beside(
        &mut self,
        opens_last: bool,
        elements: &[&[u8]],
        out: &mut Vec<u8>,
    ) -> Result<(), PacketError>
        ensures given { let all = beside (option_map (λ v. v.items) self.old.fragment)
            (map (λ e. e.now) elements.now) in
            IfOk result (λ _. Gathers out.old.items (given_of opens_last all) out.new.items) }
        ensures fragment { let all = beside (option_map (λ v. v.items) self.old.fragment)
            (map (λ e. e.now) elements.now) in
            OnOk result (option_map (λ v. v.items) self.new.fragment ≡ opened_of opens_last all) }
        ensures kept { Keeps out.old.items out.new.items }
        ensures unchanged { OnErr result (option_map (λ v. v.items) self.new.fragment
            ≡ option_map (λ v. v.items) self.old.fragment) }
        ensures refused { let all = beside (option_map (λ v. v.items) self.old.fragment)
            (map (λ e. e.now) elements.now) in IfErr result (λ e. e ≢ PacketError.Memory
            → (e ≡ PacketError.ErrAv1CorruptedPacket) × (given_of opens_last all ≡ None)) }
    {
        let opened = give_and_open(self.alloc, &mut self.spare, opens_last, elements, out)?;
        if opened.is_some() {
            self.reopen(opened);
        }
        Ok(())
    }

    /// Takes a packet's one element, which goes on with the open fragment.
    fn take_one_joined(
        &mut self,
        opens_last: bool,
        element: &[u8],
        out: &mut Vec<u8>,
    ) -> Result<(), PacketError>
        requires { 0 < length element.now }
        ensures given { let all = begun true (option_map (λ v. v.items) self.old.fragment) (element.now ∷ []) in
            IfOk result (λ _. Gathers out.old.items (given_of opens_last all) out.new.items) }
        ensures fragment { let all = begun true (option_map (λ v. v.items) self.old.fragment) (element.now ∷ []) in
            OnOk result (option_map (λ v. v.items) self.new.fragment ≡ opened_of opens_last all) }
        ensures kept { Keeps out.old.items out.new.items }
        ensures unchanged { OnErr result (option_map (λ v. v.items) self.new.fragment
            ≡ option_map (λ v. v.items) self.old.fragment) }
        ensures refused { let all = begun true (option_map (λ v. v.items) self.old.fragment) (element.now ∷ []) in
            IfErr result (λ e. e ≢ PacketError.Memory
            → (e ≡ PacketError.ErrAv1CorruptedPacket) × (given_of opens_last all ≡ None)) }
    {
        let Some(fragment) = &mut self.fragment else {
            return Ok(());
        };
        if opens_last {
            fragment.extend_from_slice(element)?;
            return Ok(());
        }
        give_joined(fragment, element, out)?;
        self.reopen(None);
        Ok(())
    }

    /// Takes a packet's elements, the first of which continues the open fragment. The others are
    /// checked before it is written, so that a packet that is refused costs no copy of the
    /// fragment.
    fn take_joined(
        &mut self,
        opens_last: bool,
        element: &[u8],
        others: &[&[u8]],
        out: &mut Vec<u8>,
    ) -> Result<(), PacketError>
        requires some_byte { 0 < length element.now }
        requires some_other { 0 < length others.now }
        ensures given { let all = begun true (option_map (λ v. v.items) self.old.fragment)
            (element.now ∷ map (λ e. e.now) others.now) in
            IfOk result (λ _. Gathers out.old.items (given_of opens_last all) out.new.items) }
        ensures fragment { let all = begun true (option_map (λ v. v.items) self.old.fragment)
            (element.now ∷ map (λ e. e.now) others.now) in
            OnOk result (option_map (λ v. v.items) self.new.fragment ≡ opened_of opens_last all) }
        ensures kept { Keeps out.old.items out.new.items }
        ensures unchanged { OnErr result (option_map (λ v. v.items) self.new.fragment
            ≡ option_map (λ v. v.items) self.old.fragment) }
        ensures refused { let all = begun true (option_map (λ v. v.items) self.old.fragment)
            (element.now ∷ map (λ e. e.now) others.now) in IfErr result (λ e. e ≢ PacketError.Memory
            → (e ≡ PacketError.ErrAv1CorruptedPacket) × (given_of opens_last all ≡ None)) }
    {
        let Some(fragment) = &mut self.fragment else {
            return self.take_fresh(opens_last, others, out);
        };
        if !are_units(complete(opens_last, others)) {
            return Err(PacketError::ErrAv1CorruptedPacket);
        }
        match give_joined(fragment, element, out) {
            Ok(()) => {}
            Err(e) => return Err(e),
        }
        self.take_fresh(opens_last, others, out)?;
        Ok(())
    }

    /// Takes the elements of a packet with Z: the first one goes on with the open fragment.
    fn take_behind(
        &mut self,
        opens_last: bool,
        elements: &[&[u8]],
        out: &mut Vec<u8>,
    ) -> Result<(), PacketError>
        ensures given { let all = begun true (option_map (λ v. v.items) self.old.fragment)
            (map (λ e. e.now) elements.now) in
            IfOk result (λ _. Gathers out.old.items (given_of opens_last all) out.new.items) }
        ensures fragment { let all = begun true (option_map (λ v. v.items) self.old.fragment)
            (map (λ e. e.now) elements.now) in
            OnOk result (option_map (λ v. v.items) self.new.fragment ≡ opened_of opens_last all) }
        ensures kept { Keeps out.old.items out.new.items }
        ensures unchanged { OnErr result (option_map (λ v. v.items) self.new.fragment
            ≡ option_map (λ v. v.items) self.old.fragment) }
        ensures refused { let all = begun true (option_map (λ v. v.items) self.old.fragment)
            (map (λ e. e.now) elements.now) in IfErr result (λ e. e ≢ PacketError.Memory
            → (e ≡ PacketError.ErrAv1CorruptedPacket) × (given_of opens_last all ≡ None)) }
    {
        let Some((element, others)) = elements.split_first() else {
            return self.take_fresh(opens_last, elements, out);
        };
        if element.is_empty() {
            return self.take_beside(opens_last, others, out);
        }
        if others.is_empty() {
            return self.take_one_joined(opens_last, element, out);
        }
        self.take_joined(opens_last, element, others, out)
    }

    /// Takes the elements of a packet with this first byte.
    fn take(&mut self, first: u8, elements: &[&[u8]], out: &mut Vec<u8>) -> Result<(), PacketError>
        ensures given { let all = begun (has_z first) (option_map (λ v. v.items) self.old.fragment)
            (map (λ e. e.now) elements.now) in
            IfOk result (λ _. Gathers out.old.items (given_of (has_y first) all) out.new.items) }
        ensures fragment { let all = begun (has_z first) (option_map (λ v. v.items) self.old.fragment)
            (map (λ e. e.now) elements.now) in
            OnOk result (option_map (λ v. v.items) self.new.fragment ≡ opened_of (has_y first) all) }
        ensures kept { Keeps out.old.items out.new.items }
        ensures unchanged { OnErr result (option_map (λ v. v.items) self.new.fragment
            ≡ option_map (λ v. v.items) self.old.fragment) }
        ensures refused { let all = begun (has_z first) (option_map (λ v. v.items) self.old.fragment)
            (map (λ e. e.now) elements.now) in IfErr result (λ e. e ≢ PacketError.Memory
            → (e ≡ PacketError.ErrAv1CorruptedPacket) × (given_of (has_y first) all ≡ None)) }
    {
        if has_bit(first, Z) {
            return self.take_behind(has_bit(first, Y), elements, out);
        }
        self.take_fresh(has_bit(first, Y), elements, out)
    }
}

/// Whether a packet of the unit had N.
fn was_keyframe(extra: &CodecExtra) -> bool
    ensures { result ≡ was_keyframe extra.now }
{
    match extra {
        CodecExtra::Av1(extra) => extra.is_keyframe,
        _ => false,
    }
}

impl Depacketizer for Av1Depacketizer {
    ghost format = { λ _. av1_format };

    ghost fragment = { λ d. option_map (λ v. v.items) d.fragment };

    fn depacketize(
        &mut self,
        packet: &[u8],
        out: &mut Vec<u8>,
        extra: &mut CodecExtra,
    ) -> Result<(), PacketError> {
        let Some((first, body)) = packet.split_first() else {
            return Err(PacketError::ErrShortPacket);
        };
        if body.is_empty() {
            return Err(PacketError::ErrShortPacket);
        }
        let elements = elements_of(self.alloc, *first / 16 % 4, body)?;
        let len = out.len();
        if let Err(e) = self.take(*first, &elements, out) {
            out.truncate(len);
            return Err(e);
        }
        let is_keyframe = was_keyframe(extra) || has_bit(*first, N);
        *extra = CodecExtra::Av1(Av1CodecExtra { is_keyframe });
        Ok(())
    }

    fn is_partition_head(&self, packet: &[u8]) -> bool {
        match packet.first() {
            Some(first) => !has_bit(*first, Z),
            None => false,
        }
    }

    fn is_partition_tail(&self, marker: bool, _packet: &[u8]) -> bool {
        marker
    }
}

//! Which extension has which number.

ghost use Rattle.std.specs.Prelude.{◌≡◌, ◌+◌, ◌-◌, ◌≤◌, ◌<◌, length, slice_set, Some, IfSome, IfOk};
ghost use Rattle.std.specs.Prelude.{MatchOption, None, true};
ghost use Rattle.std.specs.Prelude.{IsPermutation};
ghost use Rattle.std.specs.Option.{option_copied};
ghost use Rattle.rtp_wire.specs.Carried.{value_bytes};
ghost use Rattle.rtp_wire.specs.declared.values.ExtensionValues.{ExtensionValues};
ghost use Rattle.rtp_wire.specs.Elements.{slot, slot_is, carried_at, lookup};
ghost use Rattle.rtp_wire.specs.Iteration.{entries_left, numbered};
ghost use Rattle.rtp_wire.specs.Seen.{HasSeen};
ghost use Rattle.rtp_wire.specs.Maps.{empty_map, is_empty_map, standard_map, place_of, id_of, moved};
ghost use Rattle.rtp_wire.specs.Maps.{remapped};

use crate::element::{ElementBytes, value_bytes};
use crate::extension::Extension;
use crate::iteration::ExtensionMapIter;
use crate::values::ExtensionValues;
use std::alloc::{AllocError, Global};
use std::marker::Model;

/// The greatest number of the one-byte form (RFC 8285 4.2).
pub const MAX_ID_ONE_BYTE_FORM: u8 = 14;

/// How many kinds of extensions there are, the unknown ones as one.
pub(crate) const KINDS: usize = 11;

/// The greatest number of a map.
pub const MAX_ID: u8 = 16;

/// How the elements of a block are laid out (RFC 8285 4.2 and 4.3).
#[derive(Clone, Copy, Debug, PartialEq, Eq, Drop)]
pub enum ExtensionsForm {
    /// Numbers to 14, and values of 1 to 16 bytes.
    OneByte,
    /// Numbers to 255, and values of 0 to 255 bytes.
    TwoByte,
}

/// Which extension has which number, 1 to 16 (RFC 8285 5).
#[derive(Debug)]
pub struct ExtensionMap {
    entries: [Option<Extension>; 16],
}

/// Written by hand, so that crates that drop this type need no proof about its fields.
impl Drop for ExtensionMap {
    fn drop(self) {
        let ExtensionMap { entries: _entries } = self;
    }
}

impl Model for ExtensionMap {
    ghost use Rattle.std.specs.Prelude.{◌≡◌, length};
    ghost use Rattle.rtp_wire.specs.Elements.{Numbering};

    ghost Value = { Numbering };

    ghost view = { λ m. m.entries };

    ghost invariant = { λ m. length m.entries ≡ 16 };
}

impl ExtensionMap {
    /// A map without an extension.
    pub fn empty() -> Self
        ensures { result ≡ empty_map }
    {
        ExtensionMap {
            entries: [
                None, None, None, None, None, None, None, None, None, None, None, None, None, None,
                None, None,
            ],
        }
    }

    /// The usual ids: 1 audio level, 2 absolute send time, 3 transport-wide sequence number, 4 mid,
    /// 10 RID, 11 repaired RID, 13 video orientation.
    pub fn standard() -> Self
        ensures { result ≡ standard_map }
    {
        ExtensionMap {
            entries: [
                Some(Extension::AudioLevel),
                Some(Extension::AbsoluteSendTime),
                Some(Extension::TransportSequenceNumber),
                Some(Extension::RtpMid),
                None,
                None,
                None,
                None,
                None,
                Some(Extension::RtpStreamId),
                Some(Extension::RepairedRtpStreamId),
                None,
                Some(Extension::VideoOrientation),
                None,
                None,
                None,
            ],
        }
    }

    /// The same map again.
    ///
    /// # Errors
    /// `AllocError` if memory for the URI of an unknown extension runs out.
    #[tactic(auto, using(crate::proofs::MapLaws::copied_more, crate::proofs::MapLaws::copied_none))]
    pub fn clone(&self, alloc: Global) -> Result<ExtensionMap, AllocError>
        ensures { IfOk result (λ map. map ≡ self.now) }
    {
        let mut copy = ExtensionMap::empty();
        for place in 0..16 {
            if let Some(ext) = &self.entries[place] {
                copy.entries[place] = Some(ext.clone(alloc)?);
            }
        }
        Ok(copy)
    }

    /// Whether no number has an extension.
    pub fn is_empty(&self) -> bool
        ensures { result ≡ is_empty_map self.now }
    {
        self.entries.iter().all(|slot| slot.is_none())
    }

    /// Takes all extensions out.
    pub fn clear(&mut self)
        ensures { self.new ≡ empty_map }
    {
        *self = ExtensionMap::empty();
    }

    /// Gives a number, 1 to 16, to an extension; what had it goes.
    ///
    /// # Conditions
    /// The number is from 1 to 16.
    pub fn set(&mut self, id: u8, ext: Extension)
        requires least { 1 ≤ id }
        requires most { id ≤ 16 }
        ensures { self.new ≡ slice_set self.old (id - 1) (Some ext) }
    {
        self.entries[id as usize - 1] = Some(ext);
    }

    /// The extension of a number, if it has one.
    pub fn lookup(&self, id: u8) -> Option<&Extension>
        ensures { option_copied result ≡ lookup self.now id }
    {
        if id == 0 {
            return None;
        }
        match self.entries.get(id as usize - 1) {
            Some(slot) => slot.as_ref(),
            None => None,
        }
    }

    /// The extensions with their numbers, in rising number. A map has the numbers 1 to 16.
    pub fn iter(&self) -> ExtensionMapIter<'_>
        ensures left { entries_left result ≡ numbered self.now 1 16 }
        ensures numbers { length self.now ≡ 16 }
    {
        // Only a function that looks at the entries knows how many there are.
        let _ = &self.entries;
        ExtensionMapIter::new(self)
    }

    /// The lowest id of an extension.
    pub fn id_of(&self, ext: &Extension) -> Option<u8>
        ensures { result ≡ id_of self.now ext.now }
    {
        match self.place_of(ext) {
            Some(place) => Some(place as u8 + 1),
            None => None,
        }
    }

    /// The first place of an extension, from 0.
    fn place_of(&self, ext: &Extension) -> Option<usize>
        ensures value { result ≡ place_of self.now ext.now }
        ensures within { IfSome result (λ place. place < 16) }
    {
        self.entries.iter().position(|slot| match slot {
            None => false,
            Some(own) => own.is_same(ext),
        })
    }

    /// What a place carries a value of, which is then seen: an extension under its least number alone. Another one
    /// of a kind that was seen carries nothing. An unknown one has no value.
    ///
    /// # Conditions
    ///
    /// The place is below 16, and what is seen are the kinds of the places before it.
    pub(crate) fn carrier(&self, place: usize, seen: &mut [bool; KINDS]) -> Option<&Extension>
        requires place { place < 16 }
        requires seen { HasSeen seen.old self.now place }
        ensures carried { (values : ExtensionValues) → MatchOption result (carried_at self.now place values ≡ None)
            (λ ext. carried_at self.now place values ≡ value_bytes ext.now values) }
        ensures seen { HasSeen seen.new self.now (place + 1) }
    {
        let Some(ext) = &self.entries[place] else {
            return None;
        };
        let kind = ext.kind() as usize;
        if seen[kind] {
            return None;
        }
        seen[kind] = true;
        Some(ext)
    }

    /// The bytes that a place carries of the values.
    ///
    /// # Conditions
    ///
    /// The place is below 16, and what is seen are the kinds of the places before it.
    pub(crate) fn carried(
        &self,
        place: usize,
        values: &ExtensionValues,
        seen: &mut [bool; KINDS],
    ) -> Option<ElementBytes>
        requires place { place < 16 }
        requires seen { HasSeen seen.old self.now place }
        ensures value { result ≡ carried_at self.now place values.now }
        ensures seen { HasSeen seen.new self.now (place + 1) }
    {
        match self.carrier(place, seen) {
            Some(ext) => value_bytes(ext, values),
            None => None,
        }
    }

    /// Whether no number above 14 has an extension.
    pub fn ends_by_14(&self) -> bool
        ensures last { result ≡ true → slot self.now 14 ≡ None }
        ensures very_last { result ≡ true → slot self.now 15 ≡ None }
        ensures always { slot self.now 14 ≡ None → slot self.now 15 ≡ None → result ≡ true }
    {
        self.entries[14].is_none() && self.entries[15].is_none()
    }

    /// Gives each extension of the pairs its number there, if the map has the extension and the
    /// number is 1 to 16; what had the number takes the extension's place.
    pub fn remap(&mut self, pairs: &[(u8, Extension)])
        ensures value { self.new ≡ remapped self.old pairs.now }
        ensures same_extensions { IsPermutation self.old self.new }
    {
        for (id, ext) in pairs {
            self.move_to(*id, ext);
        }
    }

    /// Gives an extension a number, if the map has it and the number is 1 to 16.
    fn move_to(&mut self, id: u8, ext: &Extension)
        ensures value { self.new ≡ moved self.old id ext.now }
        ensures same_extensions { IsPermutation self.old self.new }
    {
        if let Some(place) = self.place_of(ext) {
            if id >= 1 && id <= MAX_ID {
                self.entries.swap(place, id as usize - 1);
            }
        }
    }
}

//! Extension blocks read, and their laws.

ghost use Rattle.std.specs.Prelude.{◌≡◌, ◌≢◌, ◌⊎◌, ◌+◌, ◌*◌, ◌%◌, ◌≤◌, ◌<◌, List, [], ◌∷◌, ℕ, Bool, true};
ghost use Rattle.std.specs.Prelude.{false, Some, None, MatchOption, length, ◌/◌};
ghost use Rattle.rtp_wire.specs.BlockLayout.{AreBytes, IsLaidOut, Piece, may_have_length};
ghost use Rattle.rtp_wire.specs.BlockLayout.{said_by_pieces};
ghost use Rattle.rtp_wire.specs.Carried.{with_value};
ghost use Rattle.rtp_wire.specs.Elements.{Numbering, step, taken, lookup, with_element, values_from};
ghost use Rattle.rtp_wire.specs.Values.{absent, form_of_profile, values_of, block_of, two_byte_block};
ghost use Rattle.rtp_wire.specs.declared.extension.Extension.{Extension};
ghost use Rattle.rtp_wire.specs.declared.extension.Extension.TheVariants as extension_is;
ghost use Rattle.rtp_wire.specs.declared.values.ExtensionValues.{ExtensionValues};

use crate::block_reading::set_value;
use crate::map::ExtensionMap;
use crate::values::ExtensionValues;

/// The bytes of a block have exactly one layout as elements and padding, up to what ends them (RFC
/// 8285 4.2 and 4.3), and its values are what these elements say: a value with an invalid length
/// for its extension is ignored, and of the orientation byte only the low two bits count. Profile
/// BEDE has the one-byte form, 1000 to 100F the two-byte form; other profiles have no elements. The
/// two-byte form is never shorter.
pub fn block_laws()
    ensures laid_out { (one : Bool) (bytes : List ℕ) → AreBytes bytes →
        (pieces : List Piece) × (end : List ℕ) × IsLaidOut one bytes pieces end }
    ensures read { (one : Bool) (map : Numbering) (bytes : List ℕ) (pieces : List Piece) (end : List ℕ)
        (values : ExtensionValues) → IsLaidOut one bytes pieces end →
        values_from one map (length bytes) bytes values ≡ said_by_pieces map pieces values }
    ensures of_other_length { (ext : Extension) (bytes : List ℕ) (values : ExtensionValues) →
        may_have_length ext (length bytes) ≡ false → with_value ext bytes values ≡ values }
    ensures orientation { (byte : ℕ) (values : ExtensionValues) →
        with_value extension_is.VideoOrientation (byte ∷ []) values
        ≡ with_value extension_is.VideoOrientation (byte % 4 ∷ []) values }
    ensures one_byte_profile { form_of_profile 48862 ≡ Some true }
    ensures two_byte_profiles { (profile : ℕ) → 4096 ≤ profile → profile < 4112 →
        form_of_profile profile ≡ Some false }
    ensures other_profiles { (profile : ℕ) → profile ≢ 48862 → (profile < 4096) ⊎ (4112 ≤ profile) →
        form_of_profile profile ≡ None }
    ensures within { (map : Numbering) (values : ExtensionValues) →
        length (block_of map values).content ≤ length (two_byte_block map values).content }
{}

/// The number and the bytes of the first element, and what is after it; a byte of padding is an
/// element of number 0. None if the elements end.
fn next_element(one_byte: bool, bytes: &[u8]) -> Option<(u8, &[u8], &[u8])>
    ensures { MatchOption result (step one_byte bytes.now ≡ None)
        (λ x. step one_byte bytes.now ≡ Some (record { id = x.0; bytes = x.1.now; rest = x.2.now })) }
{
    let (first, rest) = bytes.split_first()?;
    let id = if one_byte { first / 16 } else { *first };
    if id == 0 {
        return Some((0, &[], rest));
    }
    if one_byte {
        if id == 15 {
            return None;
        }
        return take_element(id, (first % 16) as usize + 1, rest);
    }
    let (count, rest) = rest.split_first()?;
    take_element(id, *count as usize, rest)
}

/// An element with a value of `count` bytes, unless it exceeds the block.
fn take_element(id: u8, count: usize, bytes: &[u8]) -> Option<(u8, &[u8], &[u8])>
    ensures { MatchOption result (taken id count bytes.now ≡ None)
        (λ x. taken id count bytes.now ≡ Some (record { id = x.0; bytes = x.1.now; rest = x.2.now })) }
{
    if bytes.len() < count {
        return None;
    }
    let (front, rest) = bytes.split_at(count);
    Some((id, front, rest))
}

impl ExtensionMap {
    /// The values that a block of this profile holds (RFC 8285 4.2 and 4.3).
    #[tactic(auto, unfolding(crate::specs::Values::values_of))]
    pub fn read_block(&self, profile: u16, content: &[u8]) -> ExtensionValues
        ensures { result ≡ values_of self.now (record { profile = profile; content = content.now }) }
    {
        if profile == 0xBEDE {
            self.read_elements(true, content)
        } else if profile / 16 == 0x100 {
            self.read_elements(false, content)
        } else {
            ExtensionValues::absent()
        }
    }

    /// The values that elements of one form hold.
    fn read_elements(&self, one_byte: bool, content: &[u8]) -> ExtensionValues
        ensures { result ≡ values_from one_byte self.now (length content.now) content.now absent }
    {
        let mut values = ExtensionValues::absent();
        let mut rest = content;
        while let Some((id, bytes, after)) = next_element(one_byte, rest) {
            self.set_element(&mut values, id, bytes);
            rest = after;
        }
        values
    }

    /// Puts what an element says into the values; one of a number without an extension is passed over.
    fn set_element(&self, values: &mut ExtensionValues, id: u8, bytes: &[u8])
        ensures { values.new ≡ with_element (lookup self.now id) bytes.now values.old }
    {
        match self.lookup(id) {
            Some(ext) => set_value(values, ext, bytes),
            None => {}
        }
    }
}

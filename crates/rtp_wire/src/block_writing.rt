//! Extension blocks written.

ghost use Rattle.std.specs.Prelude.{◌≡◌, ◌+◌, ◌*◌, ◌%◌, ◌≤◌, ◌<◌, ◌++◌, ◌&&◌, List, ℕ, true};
ghost use Rattle.std.specs.Prelude.{false, Some, length, ◌/◌, if◌then◌else◌};
ghost use Rattle.rtp_wire.specs.Carried.{AreValues};
ghost use Rattle.rtp_wire.specs.Elements.{place_elements, are_one_byte, elements_text, fill};
ghost use Rattle.rtp_wire.specs.Maps.{form_for};
ghost use Rattle.rtp_wire.specs.Values.{block_of, two_byte_block};
ghost use Rattle.rtp_wire.specs.Values.{profile_of, written_elements};
ghost use Rattle.std.specs.Int.{to_be_bytes, w16};
ghost use Rattle.rtp_wire.specs.declared.extension.Extension.{Extension};
ghost use Rattle.rtp_wire.specs.declared.values.ExtensionValues.{ExtensionValues};
ghost use Rattle.rtp_wire.specs.Seen.{HasSeen};
ghost use Rattle.rtp_wire.specs.Written.{IsWritten};

use crate::lengths::value_len;
use crate::map::{ExtensionMap, ExtensionsForm, KINDS};
use crate::value_writing::put;
use crate::values::ExtensionValues;

/// How many elements are written, how many bytes their values have together, and whether each fits the one-byte
/// form.
#[derive(Clone, Copy, Drop)]
struct Extent {
    fits: bool,
    count: usize,
    bytes: usize,
}

impl Extent {
    /// The length of the elements in one form, filled up to whole words.
    fn filled_len(self, one_byte: bool) -> usize
        requires few { self.count ≤ 16 }
        requires short { self.bytes ≤ 256 }
        ensures { let len = (if one_byte then self.count else 2 * self.count) + self.bytes in result ≡ len + fill len }
    {
        let front = if one_byte { self.count } else { 2 * self.count };
        let len = front + self.bytes;
        len + (4 - len % 4) % 4
    }
}

/// The profile of a block in one of the two forms (RFC 8285 4.2 and 4.3).
fn profile_of(one_byte: bool) -> u16
    ensures { result ≡ profile_of one_byte }
{
    if one_byte { 0xBEDE } else { 0x1000 }
}

impl ExtensionMap {
    /// The extent of the elements so far and of what a place carries.
    fn with_place(
        &self,
        so_far: Extent,
        place: usize,
        values: &ExtensionValues,
        seen: &mut [bool; KINDS],
    ) -> Extent
        requires place { place < 16 }
        requires few { so_far.count ≤ place }
        requires short { so_far.bytes ≤ 16 * place }
        requires seen { HasSeen seen.old self.now place }
        ensures fits { result.fits ≡ (so_far.fits && are_one_byte (place_elements self.now values.now place)) }
        ensures one_byte { result.count + result.bytes ≡ so_far.count + so_far.bytes
            + length (elements_text true (place_elements self.now values.now place)) }
        ensures two_byte { 2 * result.count + result.bytes ≡ 2 * so_far.count + so_far.bytes
            + length (elements_text false (place_elements self.now values.now place)) }
        ensures few { result.count ≤ place + 1 }
        ensures short { result.bytes ≤ 16 * (place + 1) }
        ensures seen { HasSeen seen.new self.now (place + 1) }
    {
        let Some(ext) = self.carrier(place, seen) else {
            return so_far;
        };
        let Some(len) = value_len(ext, values) else {
            return so_far;
        };
        let fits = place < 14 && len >= 1 && len <= 16;
        Extent {
            fits: so_far.fits && fits,
            count: so_far.count + 1,
            bytes: so_far.bytes + len,
        }
    }

    /// The extent of the elements that are written for these values.
    fn extent(&self, values: &ExtensionValues) -> Extent
        ensures fits { result.fits ≡ are_one_byte (written_elements self.now values.now) }
        ensures one_byte { result.count + result.bytes
            ≡ length (elements_text true (written_elements self.now values.now)) }
        ensures two_byte { 2 * result.count + result.bytes
            ≡ length (elements_text false (written_elements self.now values.now)) }
        ensures few { result.count ≤ 16 }
        ensures short { result.bytes ≤ 256 }
    {
        let mut seen = [false; KINDS];
        let mut extent = Extent {
            fits: true,
            count: 0,
            bytes: 0,
        };
        for place in 0..16 {
            extent = self.with_place(extent, place, values, &mut seen);
        }
        extent
    }

    /// Whether each element that is written for these values fits the one-byte form.
    fn fits_one_byte(&self, values: &ExtensionValues) -> bool
        ensures { result ≡ are_one_byte (written_elements self.now values.now) }
    {
        values.in_range();
        if self.ends_by_14() && values.has_full_names() {
            return true;
        }
        self.extent(values).fits
    }

    /// The form of the block for these values: one-byte if each element fits it.
    pub fn form(&self, values: &ExtensionValues) -> ExtensionsForm
        ensures { result ≡ form_for self.now values.now }
    {
        if self.extent(values).fits {
            ExtensionsForm::OneByte
        } else {
            ExtensionsForm::TwoByte
        }
    }

    /// The profile of the block for these values (RFC 8285 4.2 and 4.3).
    #[tactic(auto, unfolding(crate::specs::Values::block_of))]
    pub fn block_profile(&self, values: &ExtensionValues) -> u16
        ensures { result ≡ (block_of self.now values.now).profile }
    {
        profile_of(self.extent(values).fits)
    }

    /// The length of the block's bytes for these values, after profile and length.
    #[tactic(auto, unfolding(crate::specs::Values::block_of))]
    pub fn block_len(&self, values: &ExtensionValues) -> usize
        ensures value { result ≡ length (block_of self.now values.now).content }
        ensures whole_words { result % 4 ≡ 0 }
        ensures bound { result ≤ 292 }
        ensures in_range { AreValues values.now }
    {
        values.in_range();
        let extent = self.extent(values);
        extent.filled_len(extent.fits)
    }

    /// The length of the block's bytes for these values, after profile and length, with each element
    /// in the two-byte form (RFC 8285 4.3); `block_len` never passes it.
    #[tactic(auto, unfolding(crate::specs::Values::two_byte_block))]
    pub fn two_byte_len(&self, values: &ExtensionValues) -> usize
        ensures value { result ≡ length (two_byte_block self.now values.now).content }
        ensures bound { result ≤ 292 }
    {
        self.extent(values).filled_len(false)
    }

    /// Writes what a place carries, and returns the place after it.
    fn write_place(
        &self,
        buf: &mut [u8],
        at: usize,
        one_byte: bool,
        place: usize,
        values: &ExtensionValues,
        seen: &mut [bool; KINDS],
    ) -> usize
        requires place { place < 16 }
        requires seen { HasSeen seen.old self.now place }
        requires fits { one_byte ≡ true → are_one_byte (place_elements self.now values.now place) ≡ true }
        requires room { at + length (elements_text one_byte (place_elements self.now values.now place)) ≤ length
            buf.old }
        ensures end { result ≡ at + length (elements_text one_byte (place_elements self.now values.now place)) }
        ensures written { (text before : List ℕ) → IsWritten text before buf.old → at ≡ length text →
            IsWritten (text ++ elements_text one_byte (place_elements self.now values.now place)) before buf.new }
        ensures seen { HasSeen seen.new self.now (place + 1) }
    {
        let Some(bytes) = self.carried(place, values, seen) else {
            return at;
        };
        let bytes = bytes.as_slice();
        let id = place as u8 + 1;
        if one_byte {
            let at = put(buf, at, &[16 * id + (bytes.len() as u8 - 1)]);
            put(buf, at, bytes)
        } else {
            let at = put(buf, at, &[id, bytes.len() as u8]);
            put(buf, at, bytes)
        }
    }

    /// Writes the block's bytes for these values in their form at this place, and returns the place after them.
    fn write_content(
        &self,
        values: &ExtensionValues,
        one_byte: bool,
        buf: &mut [u8],
        at: usize,
    ) -> usize
        requires form { one_byte ≡ are_one_byte (written_elements self.now values.now) }
        requires room { at + length (block_of self.now values.now).content ≤ length buf.old }
        ensures end { result ≡ at + length (block_of self.now values.now).content }
        ensures written { (text before : List ℕ) → IsWritten text before buf.old → at ≡ length text →
            IsWritten (text ++ (block_of self.now values.now).content) before buf.new }
    {
        let mut seen = [false; KINDS];
        let mut end = at;
        for place in 0..16 {
            end = self.write_place(buf, end, one_byte, place, values, &mut seen);
        }
        let fill = (4 - (end - at) % 4) % 4;
        put(buf, end, &[0; 3][..fill])
    }

    /// Writes the block's bytes for these values at this place, and returns the place after them.
    ///
    /// # Conditions
    /// The buffer has room for the block's bytes from `at` on.
    pub fn write_block(&self, values: &ExtensionValues, buf: &mut [u8], at: usize) -> usize
        requires { at + length (block_of self.now values.now).content ≤ length buf.old }
        ensures end { result ≡ at + length (block_of self.now values.now).content }
        ensures written { (text before : List ℕ) → IsWritten text before buf.old → at ≡ length text →
            IsWritten (text ++ (block_of self.now values.now).content) before buf.new }
    {
        self.write_content(values, self.fits_one_byte(values), buf, at)
    }

    /// Writes the block for these values at this place, profile and count of words first (RFC 3550 5.3.1), and
    /// returns the place after it.
    ///
    /// # Conditions
    /// The buffer has room for four bytes and the block's from `at` on.
    pub fn write_headed_block(&self, values: &ExtensionValues, buf: &mut [u8], at: usize) -> usize
        requires { at + (4 + length (block_of self.now values.now).content) ≤ length buf.old }
        ensures end { result ≡ at + (4 + length (block_of self.now values.now).content) }
        ensures in_range { AreValues values.now }
        ensures written { let block = block_of self.now values.now in
            let front = to_be_bytes w16 block.profile ++ to_be_bytes w16 (length block.content / 4) in
            (text before : List ℕ) → IsWritten text before buf.old → at ≡ length text →
            IsWritten (text ++ (front ++ block.content)) before buf.new }
    {
        values.in_range();
        let one_byte = self.fits_one_byte(values);
        let count_at = put(buf, at, &profile_of(one_byte).to_be_bytes());
        let start = put(buf, count_at, &[0; 2]);
        let end = self.write_content(values, one_byte, buf, start);
        let words = ((end - start) / 4) as u16;
        put(buf, count_at, &words.to_be_bytes());
        end
    }
}

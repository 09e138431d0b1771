//! Headers written.

ghost use Rattle.std.specs.Prelude.{◌≡◌, ◌+◌, ◌*◌, ◌≤◌, ◌<◌, ◌++◌, ◌^◌, ℕ, List, Some, All, length, take, drop};
ghost use Rattle.rtp_wire.specs.Header.{layout_of, spelled, two_byte_length, IsWritable};
ghost use Rattle.rtp_wire.specs.Layout.{fixed_bytes, words as words_of, block_bytes};
ghost use Rattle.rtp_wire.specs.Carried.{AreValues};
ghost use Rattle.rtp_wire.specs.Values.{Numbering, block_of};
ghost use Rattle.rtp_wire.specs.Written.{IsWritten};

use crate::header::RtpHeader;
use crate::map::ExtensionMap;
use crate::value_writing::put;

impl RtpHeader {
    /// The length of the header on the wire, in bytes: a multiple of four.
    pub fn wire_len(&self, exts: &ExtensionMap) -> usize
        ensures { result ≡ length (spelled exts.now self.now) }
    {
        let fixed = 12 + 4 * self.csrc_count.min(self.csrc.len());
        if self.has_extension {
            fixed + 4 + exts.block_len(&self.ext_vals)
        } else {
            fixed
        }
    }

    /// The length of the header, in bytes, with each element of its block in the two-byte form (RFC
    /// 8285 4.3), whichever form is written; `wire_len` never passes it.
    ///
    /// # Conditions
    /// The header has at most 15 contributing sources.
    pub fn two_byte_len(&self, exts: &ExtensionMap) -> usize
        requires csrc_count { self.now.csrc_count ≤ 15 }
        ensures { result ≡ two_byte_length exts.now self.now }
    {
        let fixed = 12 + 4 * self.csrc_count;
        if self.has_extension {
            fixed + 4 + exts.two_byte_len(&self.ext_vals)
        } else {
            fixed
        }
    }

    /// Writes the header in front of the buffer, and returns its length (RFC 3550 5.1 and 5.3.1).
    /// The bytes after it stay.
    ///
    /// # Conditions
    /// The buffer has room for `wire_len` bytes; the payload type is below 128, and there are at most 15 contributing
    /// sources.
    pub fn write_to(&self, buf: &mut [u8], exts: &ExtensionMap) -> usize
        requires room { length (spelled exts.now self.now) ≤ length buf.old }
        requires payload_type { self.now.payload_type < 128 }
        requires csrc_count { self.now.csrc_count ≤ 15 }
        ensures len { result ≡ length (spelled exts.now self.now) }
        ensures written { buf.new ≡ spelled exts.now self.now ++ drop (length (spelled exts.now self.now)) buf.old }
        ensures writable { IsWritable self.now }
    {
        let at = put(buf, 0, &self.fixed_bytes());
        let at = write_words(buf, at, &self.csrc[..self.csrc_count]);
        if self.has_extension {
            self.write_extension(buf, at, exts)
        } else {
            at
        }
    }

    /// The twelve bytes that each header has.
    fn fixed_bytes(&self) -> [u8; 12]
        requires payload_type { self.now.payload_type < 128 }
        requires csrc_count { self.now.csrc_count ≤ 15 }
        ensures bytes { (map : Numbering) → result ≡ fixed_bytes (layout_of map self.now) }
        ensures sequence_number { self.now.sequence_number < 2 ^ 16 }
        ensures timestamp { self.now.timestamp < 2 ^ 32 }
        ensures ssrc { self.now.ssrc < 2 ^ 32 }
    {
        let number = self.sequence_number;
        let time = self.timestamp;
        let extension = if self.has_extension { 16 } else { 0 };
        let padding = if self.has_padding { 32 } else { 0 };
        let marker = if self.marker { 128 } else { 0 };
        let first = 128 + padding + extension + self.csrc_count as u8;
        let second = marker + self.payload_type.get();
        let number = number.to_be_bytes();
        let time = time.to_be_bytes();
        let ssrc = self.ssrc.get().to_be_bytes();
        [
            first, second, number[0], number[1], time[0], time[1], time[2], time[3], ssrc[0],
            ssrc[1], ssrc[2], ssrc[3],
        ]
    }

    /// Writes the extension block at this place, and returns the place after it.
    fn write_extension(&self, buf: &mut [u8], at: usize, exts: &ExtensionMap) -> usize
        requires { at + length (block_bytes (Some (block_of exts.now self.now.ext_vals))) ≤ length buf.old }
        ensures end { result ≡ at + length (block_bytes (Some (block_of exts.now self.now.ext_vals))) }
        ensures in_range { AreValues self.now.ext_vals }
        ensures written { (text before : List ℕ) → IsWritten text before buf.old → at ≡ length text →
            IsWritten (text ++ block_bytes (Some (block_of exts.now self.now.ext_vals))) before buf.new }
    {
        exts.write_headed_block(&self.ext_vals, buf, at)
    }
}

/// Writes the words at this place, and returns the place after them.
fn write_words(buf: &mut [u8], at: usize, words: &[u32]) -> usize
    requires { at + 4 * length words.now ≤ length buf.old }
    ensures end { result ≡ at + 4 * length words.now }
    ensures sources { All (λ c. c < 2 ^ 32) words.now }
    ensures written { (text before : List ℕ) → IsWritten text before buf.old → at ≡ length text →
        IsWritten (text ++ words_of words.now) before buf.new }
{
    let mut end = at;
    for word in words {
        end = put(buf, end, &word.to_be_bytes());
    }
    end
}

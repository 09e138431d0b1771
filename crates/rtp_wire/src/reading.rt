//! Headers read.

ghost use Rattle.std.specs.Prelude.{◌≡◌, ◌+◌, ◌*◌, ◌≤◌, ◌<◌, ℕ, Some, length, drop, IsTrue, if◌then◌else◌};
ghost use Rattle.rtp_wire.specs.Header.{u16_at, u32_at, words_in, slots, is_header, header_in, fields_in};
ghost use Rattle.rtp_wire.specs.Header.{header_length_in, has_bit, csrc_count_in, has_extension_in, block_at};
ghost use Rattle.rtp_wire.specs.Header.{block_in, values_in};
ghost use Rattle.rtp_wire.specs.Widening.{widened};
ghost use Rattle.rtp_wire.specs.Maps.{empty_map};
ghost use Rattle.std.specs.Option.{option_map};

use crate::header::RtpHeader;
use crate::map::ExtensionMap;
use crate::numbers::{Pt, Ssrc};
use crate::sequence::SeqNo;
use crate::values::ExtensionValues;
use crate::widening::extend_u16;

/// The number of two bytes at a place.
fn u16_at(bytes: &[u8], at: usize) -> u16
    requires { at + 2 ≤ length bytes.now }
    ensures { result ≡ u16_at bytes.now at }
{
    u16::from_be_bytes([bytes[at], bytes[at + 1]])
}

/// The number of four bytes at a place.
fn u32_at(bytes: &[u8], at: usize) -> u32
    requires { at + 4 ≤ length bytes.now }
    ensures { result ≡ u32_at bytes.now at }
{
    u32::from_be_bytes([bytes[at], bytes[at + 1], bytes[at + 2], bytes[at + 3]])
}

/// Whether the bit with this weight is set.
fn has_bit(byte: u8, worth: u8) -> bool
    requires { 0 < worth }
    ensures { result ≡ has_bit byte worth }
{
    byte / worth % 2 == 1
}

/// The length of the header in front of the bytes, if there is one.
fn header_length(bytes: &[u8]) -> Option<usize>
    ensures { result ≡ (if is_header bytes.now then Some (header_length_in bytes.now) else None) }
{
    if bytes.len() < 12 || bytes[0] / 64 != 2 {
        return None;
    }
    let block = 12 + 4 * (bytes[0] % 16) as usize;
    if !has_bit(bytes[0], 16) {
        return if block <= bytes.len() {
            Some(block)
        } else {
            None
        };
    }
    if bytes.len() < block + 4 {
        return None;
    }
    let len = block + 4 + 4 * u16_at(bytes, block + 2) as usize;
    if len <= bytes.len() { Some(len) } else { None }
}

/// The contributing sources in their places.
fn csrc_of(bytes: &[u8]) -> [u32; 15]
    requires { block_at bytes.now ≤ length bytes.now }
    ensures { result ≡ slots (words_in (csrc_count_in bytes.now) (drop 12 bytes.now)) }
{
    let mut csrc = [0; 15];
    let count = (bytes[0] % 16) as usize;
    for i in 0..count {
        csrc[i] = u32_at(bytes, 12 + 4 * i);
    }
    csrc
}

/// The values in the extension block, if there is one.
fn values_of(bytes: &[u8], exts: &ExtensionMap) -> ExtensionValues
    requires { IsTrue (is_header bytes.now) }
    ensures { result ≡ values_in exts.now (block_in bytes.now) }
{
    if !has_bit(bytes[0], 16) {
        return ExtensionValues::absent();
    }
    let at = 12 + 4 * (bytes[0] % 16) as usize;
    let len = 4 * u16_at(bytes, at + 2) as usize;
    exts.read_block(u16_at(bytes, at), &bytes[at + 4..at + 4 + len])
}

/// The header in front of the bytes, of this length and with these values.
fn fields_of(bytes: &[u8], ext_vals: ExtensionValues, header_len: usize) -> RtpHeader
    requires header { IsTrue (is_header bytes.now) }
    requires len { header_len ≡ header_length_in bytes.now }
    ensures { result ≡ record (fields_in empty_map bytes.now) { ext_vals = ext_vals } }
{
    RtpHeader {
        version: 2,
        has_padding: has_bit(bytes[0], 32),
        has_extension: has_bit(bytes[0], 16),
        csrc_count: (bytes[0] % 16) as usize,
        marker: has_bit(bytes[1], 128),
        payload_type: Pt::from(bytes[1] % 128),
        sequence_number: u16_at(bytes, 2),
        timestamp: u32_at(bytes, 4),
        ssrc: Ssrc::from(u32_at(bytes, 8)),
        csrc: csrc_of(bytes),
        ext_vals,
        header_len,
    }
}

impl RtpHeader {
    /// The header in front of a datagram (RFC 3550 5.1). None if the version isn't 2, or if
    /// the header, its contributing sources or its extension block pass the end.
    pub fn parse(buf: &[u8], exts: &ExtensionMap) -> Option<RtpHeader>
        ensures { result ≡ header_in exts.now buf.now }
    {
        let header_len = header_length(buf)?;
        Some(fields_of(buf, values_of(buf, exts), header_len))
    }

    /// The header in front of a datagram as a map without header extensions reads it: no value is there, and the
    /// extension block isn't looked into.
    #[tactic(auto, using(crate::proofs::Empty::no_values))]
    pub fn parse_without_values(buf: &[u8]) -> Option<RtpHeader>
        ensures { result ≡ header_in empty_map buf.now }
    {
        let header_len = header_length(buf)?;
        Some(fields_of(buf, ExtensionValues::absent(), header_len))
    }

    /// The values of the header extensions of the header in front of a datagram, and nothing else of it. None if
    /// `parse` reads no header.
    pub fn parse_values(buf: &[u8], exts: &ExtensionMap) -> Option<ExtensionValues>
        ensures { result ≡ option_map (λ h. h.ext_vals) (header_in exts.now buf.now) }
    {
        let _len = header_length(buf)?;
        Some(values_of(buf, exts))
    }

    /// The values of the header extensions of the datagram that this is the header of, without reading it again.
    ///
    /// # Conditions
    /// It is what `parse_without_values` reads of the datagram.
    pub fn values_in(&self, buf: &[u8], exts: &ExtensionMap) -> ExtensionValues
        requires { header_in empty_map buf.now ≡ Some self.now }
        ensures { option_map (λ h. h.ext_vals) (header_in exts.now buf.now) ≡ Some result }
    {
        values_of(buf, exts)
    }

    /// The sequence number, widened by the one before it: the nearest with these 16 bits (RFC 3550 A.1).
    pub fn sequence_number(&self, previous: Option<SeqNo>) -> SeqNo
        ensures { result ≡ widened previous self.now.sequence_number }
    {
        let previous = previous.map(|number| number.get());
        SeqNo::from(extend_u16(previous, self.sequence_number))
    }
}

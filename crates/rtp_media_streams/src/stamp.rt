//! Headers of a stream's datagrams.

ghost use Rattle.std.specs.Prelude.{◌≡◌, ◌<◌, ◌≤◌, ◌^◌, IfOk, [], not, false};
ghost use Rattle.rtp_wire.specs.Header.{spelled, two_byte_length};
ghost use Rattle.rtp_wire.specs.Maps.{is_empty_map};
ghost use Rattle.rtp_media_streams.specs.Sending.{stamped};
ghost use Rattle.rtp_media_streams.specs.Headers.{fixed_header};

use crate::spare::emptied;
use rtp_wire::{ExtensionMap, ExtensionValues, Pt, RtpHeader, Ssrc};
use std::alloc::AllocError;

/// The length of a header without extensions and contributing sources (RFC 3550 5.1).
const FIXED_HEADER_LEN: usize = 12;

/// What all datagrams of a stream share: SSRC, payload type and extension map.
#[derive(Drop)]
pub(crate) struct Stamp {
    pub ssrc: Ssrc,
    pub pt: Pt,
    pub exts: ExtensionMap,
    has_extension: bool,
    ghost payload_type: { pt < 128 },
    ghost extension: { has_extension ≡ not (is_empty_map exts) },
}

impl Stamp {
    /// The stamp of this SSRC, payload type and map of header extensions.
    pub fn new(ssrc: Ssrc, pt: Pt, exts: ExtensionMap) -> Self
        requires { pt < 128 }
        ensures ssrc { result.ssrc ≡ ssrc }
        ensures pt { result.pt ≡ pt }
        ensures exts { result.exts ≡ exts }
    {
        let has_extension = !exts.is_empty();
        Stamp {
            ssrc,
            pt,
            exts,
            has_extension,
        }
    }

    /// Has it carry another payload type.
    pub fn set_type(&mut self, pt: Pt)
        requires { pt < 128 }
        ensures ssrc { self.new.ssrc ≡ self.old.ssrc }
        ensures pt { self.new.pt ≡ pt }
        ensures exts { self.new.exts ≡ self.old.exts }
    {
        self.pt = pt;
    }

    /// The length of a header with these values, in bytes, each element of its block in the two-byte form.
    pub fn two_byte_len(&self, values: &ExtensionValues) -> usize
        ensures len { let header = stamped self.now.ssrc self.now.pt self.now.exts 0 false 0 values.now in
            result ≡ two_byte_length self.now.exts header }
        ensures bound { result ≤ 308 }
    {
        if self.has_extension {
            FIXED_HEADER_LEN + 4 + self.exts.two_byte_len(values)
        } else {
            FIXED_HEADER_LEN
        }
    }

    /// The header of the datagram of this number.
    pub fn header(
        &self,
        number: u64,
        marker: bool,
        time: u32,
        values: &ExtensionValues,
    ) -> RtpHeader
        ensures header { result ≡ stamped self.now.ssrc self.now.pt self.now.exts number marker time values.now }
        ensures payload_type { result.payload_type < 128 }
    {
        RtpHeader {
            version: 2,
            has_padding: false,
            has_extension: self.has_extension,
            csrc_count: 0,
            marker,
            payload_type: self.pt,
            sequence_number: (number % 65536) as u16,
            timestamp: time,
            ssrc: self.ssrc,
            csrc: [0; 15],
            ext_vals: *values,
            header_len: FIXED_HEADER_LEN,
        }
    }

    /// The bytes of the header of the datagram of this number, in this memory and with room for so many bytes after
    /// it.
    ///
    /// # Errors
    /// Out of memory for the bytes.
    pub fn header_bytes(
        &self,
        memory: Vec<u8>,
        room: usize,
        number: u64,
        marker: bool,
        time: u32,
        values: &ExtensionValues,
    ) -> Result<Vec<u8>, AllocError>
        ensures { IfOk result (λ v. v.items ≡ spelled self.now.exts
            (stamped self.now.ssrc self.now.pt self.now.exts number marker time values.now)) }
    {
        if self.has_extension {
            let header = self.header(number, marker, time, values);
            let len = header.wire_len(&self.exts);
            let mut bytes = emptied(memory, len.saturating_add(room))?;
            bytes.resize(len, 0)?;
            header.write_to(&mut bytes, &self.exts);
            return Ok(bytes);
        }
        self.fixed_header(memory, room, (number % 65536) as u16, marker, time)
    }

    /// A header without extensions.
    fn fixed_header(
        &self,
        memory: Vec<u8>,
        room: usize,
        number: u16,
        marker: bool,
        time: u32,
    ) -> Result<Vec<u8>, AllocError>
        ensures { IfOk result (λ v. v.items ≡ fixed_header self.now.ssrc self.now.pt number marker time) }
    {
        let mark = if marker { 128 } else { 0 };
        let mut bytes = emptied(memory, FIXED_HEADER_LEN.saturating_add(room))?;
        bytes.push(128)?;
        bytes.push(mark + self.pt.get())?;
        bytes.extend_from_slice(&number.to_be_bytes())?;
        bytes.extend_from_slice(&time.to_be_bytes())?;
        bytes.extend_from_slice(&self.ssrc.get().to_be_bytes())?;
        Ok(bytes)
    }
}

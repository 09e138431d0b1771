//! Headers as C programs see them.

ghost use Rattle.std.specs.Prelude.{◌≡◌, ◌≤◌};
ghost use Rattle.std.specs.Option.{option_map};
ghost use Rattle.rtp_wire.specs.Header.{header_in};
ghost use Rattle.rtp_wire.specs.Maps.{empty_map};
ghost use Rattle.jilqamur.specs.Headers.{as_wire, as_header};

use rtp_wire::{ExtensionValues, Pt, RtpHeader, Ssrc};

/// The header of an RTP packet (RFC 3550 5.1), without the values of its extensions.
#[repr(C)]
#[derive(Clone, Copy, Drop)]
pub struct WireHeader {
    /// Whether padding follows the payload.
    pub has_padding: bool,
    /// Whether there is an extension block; one that is written is empty.
    pub has_extension: bool,
    /// The marker bit.
    pub marker: bool,
    /// The payload type, 0 to 127.
    pub payload_type: u8,
    /// The low 16 bits of the sequence number.
    pub sequence_number: u16,
    /// The low 32 bits of the media time, in ticks of the payload type's clock.
    pub timestamp: u32,
    /// The stream's source.
    pub ssrc: u32,
    /// How many contributing sources there are, 0 to 15.
    pub csrc_count: u32,
    /// The CSRCs; entries past `csrc_count` are 0 in a parsed header.
    pub csrc: [u32; 15],
    /// The length of a parsed header, in bytes; ignored when writing.
    pub header_len: usize,
}

fn wire_of(header: &RtpHeader) -> WireHeader
    requires { header.now.csrc_count ≤ 15 }
    ensures { result ≡ as_wire header.now }
{
    WireHeader {
        has_padding: header.has_padding,
        has_extension: header.has_extension,
        marker: header.marker,
        payload_type: header.payload_type.get(),
        sequence_number: header.sequence_number,
        timestamp: header.timestamp,
        ssrc: header.ssrc.get(),
        csrc_count: header.csrc_count as u32,
        csrc: header.csrc,
        header_len: header.header_len,
    }
}

/// The header of a datagram. None if the version isn't 2, or if the header, its CSRCs or its
/// extension block exceed the datagram.
pub(crate) fn read_header(datagram: &[u8]) -> Option<WireHeader>
    ensures { result ≡ option_map as_wire (header_in empty_map datagram.now) }
{
    match RtpHeader::parse_without_values(datagram) {
        None => None,
        Some(header) => Some(wire_of(&header)),
    }
}

/// The header that is written for these fields.
pub(crate) fn header_of(header: &WireHeader) -> RtpHeader
    ensures { result ≡ as_header header.now }
{
    RtpHeader {
        version: 2,
        has_padding: header.has_padding,
        has_extension: header.has_extension,
        csrc_count: header.csrc_count as usize,
        marker: header.marker,
        payload_type: Pt::from(header.payload_type),
        sequence_number: header.sequence_number,
        timestamp: header.timestamp,
        ssrc: Ssrc::from(header.ssrc),
        csrc: header.csrc,
        ext_vals: ExtensionValues::absent(),
        header_len: 0,
    }
}

//! The first bytes of H.264 packets (RFC 6184 1.3, 5.2 and 5.8).

ghost use Rattle.h26x_payload_formats.specs.H264Headers.{begun_header, kind_of, type_of};
ghost use Rattle.std.specs.Prelude.{◌≡◌};

use crate::h264_constants::{FUA_NALU_TYPE, STAPA_NALU_TYPE};
use h26x_payload_units::PacketKind;

/// The type in the header of a unit, or in an FU header.
pub fn type_of(header: u8) -> u8
    ensures { result ≡ type_of header }
{
    header % 32
}

/// What a packet is by its first byte.
pub fn kind_of(header: u8) -> PacketKind
    ensures { result ≡ kind_of header }
{
    match type_of(header) {
        STAPA_NALU_TYPE => PacketKind::Aggregate,
        FUA_NALU_TYPE => PacketKind::Fragment,
        1..=23 => PacketKind::Single,
        _ => PacketKind::Unhandled,
    }
}

/// The header of the unit that begins in an FU-A, from the packet's first byte and its FU header.
pub fn begun_header(first: u8, fu: u8) -> u8
    ensures { result ≡ begun_header first fu }
{
    first / 32 * 32 + type_of(fu)
}

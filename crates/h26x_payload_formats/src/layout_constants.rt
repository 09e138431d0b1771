//! Numbers of H.265 and H.266 packets (RFC 7798 4.4, RFC 9328 4.3).

/// How many bytes the header of a unit or a packet has.
pub const NALU_HEADER_SIZE: usize = 2;

/// How many bytes are before a fragment's part of a unit, without a decoding order number.
pub const FRAGMENT_HEADER_SIZE: usize = 3;

/// How many bytes the size of an aggregated unit has.
pub const NALU_LENGTH_SIZE: usize = 2;

/// No packet is longer.
pub const MAX_PACKET_SIZE: usize = 1200;

//! Numbers of H.264 units and packets (RFC 6184 1.3, 5.2, 5.7.1 and 5.8).

/// The type of a coded slice of an IDR picture.
pub const IDR_NALU_TYPE: u8 = 5;

/// The type of a sequence parameter set.
pub const SPS_NALU_TYPE: u8 = 7;

/// The type of a picture parameter set.
pub const PPS_NALU_TYPE: u8 = 8;

/// The type of an access unit delimiter.
pub const AUD_NALU_TYPE: u8 = 9;

/// The type of filler data.
pub const FILLER_NALU_TYPE: u8 = 12;

/// The type of a single-time aggregation packet, STAP-A.
pub const STAPA_NALU_TYPE: u8 = 24;

/// The type of a fragmentation unit, FU-A.
pub const FUA_NALU_TYPE: u8 = 28;

/// The type of a fragmentation unit with a decoding order number, FU-B.
pub const FUB_NALU_TYPE: u8 = 29;

/// How many bytes are before an FU-A's part of a unit.
pub const FUA_HEADER_SIZE: usize = 2;

/// How many bytes are before a STAP-A's first size.
pub const STAPA_HEADER_SIZE: usize = 1;

/// How many bytes the size of an aggregated unit has.
pub const STAPA_NALU_LENGTH_SIZE: usize = 2;

/// The bits of the type in a unit's header and in an FU header.
pub const NALU_TYPE_BITMASK: u8 = 0x1F;

/// The bits of NRI in a unit's header.
pub const NALU_REF_IDC_BITMASK: u8 = 0x60;

/// The bit of S in an FU header.
pub const FU_START_BITMASK: u8 = 0x80;

/// The bit of E in an FU header.
pub const FU_END_BITMASK: u8 = 0x40;

/// The first byte of the STAP-A packets that are sent: NRI 3 and type 24.
pub const OUTPUT_STAP_AHEADER: u8 = 0x78;

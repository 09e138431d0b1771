//! The RTP header.

ghost use Rattle.std.specs.Prelude.{◌≡◌};

use crate::numbers::{Pt, Ssrc};
use crate::values::ExtensionValues;

/// The header of an RTP packet (RFC 3550 5.1).
#[derive(Clone, Copy, Debug, Drop)]
pub struct RtpHeader {
    /// The version, 2 in a header that was read.
    pub version: u8,
    /// Whether padding follows the payload.
    pub has_padding: bool,
    /// Whether there is an extension block.
    pub has_extension: bool,
    /// How many contributing sources there are, 0 to 15.
    pub csrc_count: usize,
    /// The marker bit.
    pub marker: bool,
    /// The payload type, 0 to 127.
    pub payload_type: Pt,
    /// The low 16 bits of the sequence number.
    pub sequence_number: u16,
    /// The low 32 bits of the media time, in ticks of the payload type's clock.
    pub timestamp: u32,
    /// The stream's source.
    pub ssrc: Ssrc,
    /// The CSRCs; entries past `csrc_count` are 0 in a parsed header.
    pub csrc: [u32; 15],
    /// The values of the header extensions.
    pub ext_vals: ExtensionValues,
    /// The length of the header on the wire, in bytes.
    pub header_len: usize,
}

impl Default for RtpHeader {
    ghost use Rattle.std.specs.Prelude.{◌≡◌};
    ghost use Rattle.rtp_wire.specs.Default.{default_header};

    ghost is_default = { λ h. h ≡ default_header };

    /// Version 2, an extension block, payload type 1, length 16; everything else 0, false or
    /// absent.
    fn default() -> RtpHeader {
        RtpHeader {
            version: 2,
            has_padding: false,
            has_extension: true,
            csrc_count: 0,
            marker: false,
            payload_type: Pt::new_with_value(1),
            sequence_number: 0,
            timestamp: 0,
            ssrc: Ssrc::from(0),
            csrc: [0; 15],
            ext_vals: ExtensionValues::absent(),
            header_len: 16,
        }
    }
}

//! The header of an H.265 unit or packet, and that of a fragment (RFC 7798 1.1.4 and 4.4.3).

ghost use Rattle.h26x_payload_units.specs.H265Headers.{header_word, is_idr, word_has_f, word_layer, word_tid};
ghost use Rattle.h26x_payload_units.specs.H265Headers.{word_type};
ghost use Rattle.h26x_payload_units.specs.Headers.{fu_byte, fu_type, has_end, has_start, is_irap};
ghost use Rattle.std.specs.Prelude.{◌≡◌, ◌<◌, ◌==◌, nat_lt};

use crate::layout::{Layout, has_end, has_start};

/// The two-byte header of a NAL unit or packet, big-endian (RFC 7798 1.1.4).
#[derive(Clone, Copy, Debug, PartialEq, Eq, Drop)]
pub struct H265NALUHeader(pub u16);

impl H265NALUHeader {
    /// A header with F clear.
    ///
    /// # Conditions
    /// The unit's type is below 64, the layer below 64, and the temporal id below 8.
    pub fn new_with_type(nalu_type: u8, layer_id: u8, tid: u8) -> Self
        requires nalu_type { nalu_type < 64 }
        requires layer_id { layer_id < 64 }
        requires tid { tid < 8 }
        ensures { result.0 ≡ header_word nalu_type layer_id tid }
    {
        H265NALUHeader(nalu_type as u16 * 512 + layer_id as u16 * 8 + tid as u16)
    }

    /// F, which is set if something is wrong.
    pub fn f(&self) -> bool
        ensures { result ≡ word_has_f self.now.0 }
    {
        self.0 >= 32_768
    }

    /// The type, below 64.
    pub fn nalu_type(&self) -> u8
        ensures { result ≡ word_type self.now.0 }
    {
        (self.0 / 512 % 64) as u8
    }

    /// Whether the unit is of a coded slice: a type below 32.
    pub fn is_type_vcl_unit(&self) -> bool
        ensures { result ≡ nat_lt (word_type self.now.0) 32 }
    {
        self.nalu_type() < 32
    }

    /// The layer, below 64.
    pub fn layer_id(&self) -> u8
        ensures { result ≡ word_layer self.now.0 }
    {
        (self.0 / 8 % 64) as u8
    }

    /// The temporal sublayer plus 1, below 8.
    pub fn tid(&self) -> u8
        ensures { result ≡ word_tid self.now.0 }
    {
        (self.0 % 8) as u8
    }

    /// Whether the packet aggregates units: type 48.
    pub fn is_aggregation_packet(&self) -> bool
        ensures { result ≡ (word_type self.now.0 == 48) }
    {
        self.nalu_type() == 48
    }

    /// Whether the packet has a part of a unit: type 49.
    pub fn is_fragmentation_unit(&self) -> bool
        ensures { result ≡ (word_type self.now.0 == 49) }
    {
        self.nalu_type() == 49
    }

    /// Whether the packet carries payload content information: type 50.
    pub fn is_paci_packet(&self) -> bool
        ensures { result ≡ (word_type self.now.0 == 50) }
    {
        self.nalu_type() == 50
    }

    /// Whether the unit is of an IDR picture: types 19 and 20.
    pub fn is_idr_picture(&self) -> bool
        ensures { result ≡ is_idr (word_type self.now.0) }
    {
        matches!(self.nalu_type(), 19..=20)
    }

    /// Whether the unit is of a random access picture: types 16 to 23.
    pub fn is_irap(&self) -> bool
        ensures { result ≡ is_irap Layout.H265 (word_type self.now.0) }
    {
        Layout::H265.is_irap(self.nalu_type())
    }
}

/// The FU header: S, E and the type of the NAL unit (RFC 7798 4.4.3).
#[derive(Clone, Copy, Debug, PartialEq, Eq, Drop)]
pub struct H265FragmentationUnitHeader(pub u8);

impl H265FragmentationUnitHeader {
    /// A header with these bits, and the low six bits of the type.
    pub fn new(s: bool, e: bool, fu_type: u8) -> Self
        ensures { result.0 ≡ fu_byte Layout.H265 s e fu_type }
    {
        H265FragmentationUnitHeader(Layout::H265.fu_byte(s, e, fu_type))
    }

    /// S: the fragment is its unit's first.
    pub fn s(&self) -> bool
        ensures { result ≡ has_start self.now.0 }
    {
        has_start(self.0)
    }

    /// E: the fragment is its unit's last.
    pub fn e(&self) -> bool
        ensures { result ≡ has_end self.now.0 }
    {
        has_end(self.0)
    }

    /// The type of the unit, below 64.
    pub fn fu_type(&self) -> u8
        ensures { result ≡ fu_type Layout.H265 self.now.0 }
    {
        Layout::H265.fu_type(self.0)
    }
}

//! The header of an H.266 unit or packet, and that of a fragment (RFC 9328 1.1.4 and 4.3.3).

ghost use Rattle.h26x_payload_units.specs.H266Headers.{has_picture_end, header_word, word_has_f, word_has_z};
ghost use Rattle.h26x_payload_units.specs.H266Headers.{word_layer, word_tid, word_type};
ghost use Rattle.h26x_payload_units.specs.Headers.{fu_byte, fu_type, has_end, has_start, is_irap};
ghost use Rattle.std.specs.Prelude.{◌≡◌, ◌==◌, ◌+◌, ◌*◌, if◌then◌else◌};

use crate::layout::{Layout, has_end, has_start};

/// The two-byte header of a NAL unit or packet, big-endian (RFC 9328 1.1.4).
#[derive(Clone, Copy, Debug, PartialEq, Eq, Drop)]
pub struct H266NALUHeader(pub u16);

impl H266NALUHeader {
    /// The header of these two bytes.
    pub fn new(high_byte: u8, low_byte: u8) -> Self
        ensures { result.0 ≡ high_byte * 256 + low_byte }
    {
        H266NALUHeader(high_byte as u16 * 256 + low_byte as u16)
    }

    /// A header with F and Z clear, the low five bits of the type, the low six of the layer and the low three of TID.
    pub fn new_with_type(typ: u8, layer_id: u8, tid: u8) -> Self
        ensures { result.0 ≡ header_word typ layer_id tid }
    {
        let layer = layer_id as u16 % 64;
        let nalu_type = typ as u16 % 32;
        H266NALUHeader(layer * 256 + nalu_type * 8 + tid as u16 % 8)
    }

    /// F, which is set if something is wrong.
    pub fn f(&self) -> bool
        ensures { result ≡ word_has_f self.now.0 }
    {
        self.0 >= 32_768
    }

    /// Z, the reserved bit after F, which is clear.
    pub fn z(&self) -> bool
        ensures { result ≡ word_has_z self.now.0 }
    {
        self.0 / 16_384 % 2 == 1
    }

    /// The layer, below 64.
    pub fn layer_id(&self) -> u8
        ensures { result ≡ word_layer self.now.0 }
    {
        (self.0 / 256 % 64) as u8
    }

    /// The type, below 32.
    pub fn nalu_type(&self) -> u8
        ensures { result ≡ word_type self.now.0 }
    {
        (self.0 / 8 % 32) as u8
    }

    /// The temporal sublayer plus 1, below 8.
    pub fn tid(&self) -> u8
        ensures { result ≡ word_tid self.now.0 }
    {
        (self.0 % 8) as u8
    }

    /// Whether the unit is of a random access picture: types 7 to 9.
    pub fn is_irap(&self) -> bool
        ensures { result ≡ is_irap Layout.H266 (word_type self.now.0) }
    {
        Layout::H266.is_irap(self.nalu_type())
    }

    /// Whether the packet aggregates units: type 28.
    pub fn is_aggregation_packet(&self) -> bool
        ensures { result ≡ (word_type self.now.0 == 28) }
    {
        self.nalu_type() == 28
    }

    /// Whether the packet has a part of a unit: type 29.
    pub fn is_fragmentation_unit(&self) -> bool
        ensures { result ≡ (word_type self.now.0 == 29) }
    {
        self.nalu_type() == 29
    }
}

/// The FU header: S, E, P and the type of the NAL unit (RFC 9328 4.3.3).
#[derive(Clone, Copy, Debug, PartialEq, Eq, Drop)]
pub struct H266FragmentationUnitHeader(pub u8);

impl H266FragmentationUnitHeader {
    /// A header with these bits, and the low five bits of the type.
    pub fn new(start: bool, end: bool, last_of_picture: bool, fu_type: u8) -> Self
        ensures { result.0 ≡ fu_byte Layout.H266 start end fu_type + (if last_of_picture then 32 else 0) }
    {
        let p: u8 = if last_of_picture { 32 } else { 0 };
        H266FragmentationUnitHeader(Layout::H266.fu_byte(start, end, fu_type) + p)
    }

    /// S: the fragment is its unit's first.
    pub fn s(&self) -> bool
        ensures { result ≡ has_start self.now.0 }
    {
        has_start(self.0)
    }

    /// E: the fragment is its unit's last.
    pub fn e(&self) -> bool
        ensures { result ≡ has_end self.now.0 }
    {
        has_end(self.0)
    }

    /// P: the fragment is the last of its picture's last unit.
    pub fn p(&self) -> bool
        ensures { result ≡ has_picture_end self.now.0 }
    {
        self.0 / 32 % 2 == 1
    }

    /// The type of the unit, below 32.
    pub fn fu_type(&self) -> u8
        ensures { result ≡ fu_type Layout.H266 self.now.0 }
    {
        Layout::H266.fu_type(self.0)
    }
}

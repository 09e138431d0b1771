//! H.265 and H.266, each by its layout.

ghost use Rattle.std.specs.Prelude.{◌≡◌};

use crate::packetizer::H265OrH266Packetizer;
use crate::receiver::H265OrH266Depacketizer;
use h26x_payload_units::Layout;

/// A codec whose units have a header of two bytes, with a layer and a TID in them.
pub trait H265OrH266: Copy + Drop {
    ghost use Rattle.h26x_payload_units.specs.declared.layout.Layout.{Layout};

    ghost layout: { Layout };

    /// The codec.
    fn new() -> Self;

    /// How its units are laid out.
    fn layout(self) -> Layout
        ensures { result ≡ layout };
}

/// H.265 (RFC 7798).
#[derive(Clone, Copy, Debug, Drop)]
pub struct H265;

impl H265OrH266 for H265 {
    ghost use Rattle.h26x_payload_units.specs.declared.layout.Layout.{Layout};

    ghost layout = { Layout.H265 };

    fn new() -> Self {
        H265
    }

    fn layout(self) -> Layout {
        Layout::H265
    }
}

/// H.266 (RFC 9328).
#[derive(Clone, Copy, Debug, Drop)]
pub struct H266;

impl H265OrH266 for H266 {
    ghost use Rattle.h26x_payload_units.specs.declared.layout.Layout.{Layout};

    ghost layout = { Layout.H266 };

    fn new() -> Self {
        H266
    }

    fn layout(self) -> Layout {
        Layout::H266
    }
}

/// Cuts H.265 access units into packets (RFC 7798 4.4).
pub type H265Packetizer = H265OrH266Packetizer<H265>;

/// Hands out the units of H.265 packets (RFC 7798 4.4).
pub type H265Depacketizer = H265OrH266Depacketizer<H265>;

/// Cuts H.266 access units into packets (RFC 9328 4.3).
pub type H266Packetizer = H265OrH266Packetizer<H266>;

/// Hands out the units of H.266 packets (RFC 9328 4.3).
pub type H266Depacketizer = H265OrH266Depacketizer<H266>;

//! What a packet says of its frame, without a stream.

ghost use Rattle.std.specs.Prelude.{◌≡◌, ◌≢◌};
ghost use Rattle.jilqamur.specs.Codes.{ok};
ghost use Rattle.jilqamur.specs.PacketInfos.{info_outcome, layer_told, said_of, told_of};

use crate::codes;
use crate::copying::text_in;
use h26x_payload::has_format;
use media_types::Codec;
use packet_info::{PacketInfo, packet_info};

/// What a packet says of its frame.
#[repr(C)]
#[derive(Clone, Copy, Drop)]
pub struct WirePacketInfo {
    /// Whether a frame can begin with it.
    pub is_head: bool,
    /// Whether a frame ends with it.
    pub is_tail: bool,
    /// Whether it shows that its frame is a key frame.
    pub shows_key_frame: bool,
    /// Whether it tells its spatial layer.
    pub has_spatial_layer: bool,
    /// The spatial layer, 0 if it isn't told.
    pub spatial_layer: u8,
    /// Whether it tells its temporal layer.
    pub has_temporal_layer: bool,
    /// The temporal layer, 0 if it isn't told.
    pub temporal_layer: u8,
}

/// A layer, or 0 if none is told.
fn layer_told(layer: Option<u8>) -> u8
    ensures { result ≡ layer_told layer }
{
    layer.unwrap_or(0)
}

fn told_of(info: &PacketInfo) -> WirePacketInfo
    ensures { result ≡ told_of info.now }
{
    let layers = info.layers;
    WirePacketInfo {
        is_head: info.is_head,
        is_tail: info.is_tail,
        shows_key_frame: info.shows_key_frame,
        has_spatial_layer: layers.spatial.is_some(),
        spatial_layer: layer_told(layers.spatial),
        has_temporal_layer: layers.temporal.is_some(),
        temporal_layer: layer_told(layers.temporal),
    }
}

/// Tells what a packet of the codec of this name, with this payload and marker bit, says of its frame, and returns
/// `OK`. `NOT_TEXT` for a name that isn't UTF-8, `OUT_OF_RANGE` for one of no codec with a payload format, and nothing
/// is told.
#[unsafe(no_mangle)]
pub extern "C" fn jilqamur_payload_info(
    codec: &[u8],
    payload: &[u8],
    marker: bool,
    info: &mut WirePacketInfo,
) -> u32
    ensures outcome { result ≡ info_outcome codec.now }
    ensures told { result ≡ ok → info.new ≡ told_of (said_of codec.now payload.now marker) }
    ensures kept { result ≢ ok → info.new ≡ info.old }
{
    let Some(name) = text_in(codec) else {
        return codes::NOT_TEXT;
    };
    let codec = Codec::from(name);
    if !has_format(codec) {
        return codes::OUT_OF_RANGE;
    }
    *info = told_of(&packet_info(codec, payload, marker));
    codes::OK
}

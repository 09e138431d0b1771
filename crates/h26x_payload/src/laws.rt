//! The codec law, codec by codec and through one packetizer and one depacketizer over all codecs.

ghost use Rattle.h26x_payload.specs.Dispatch.{FillPackets, FillPacketsInForms, FirstIsReached, FormsKeepUnits};
ghost use Rattle.h26x_payload.specs.Dispatch.{KeepCodecLaw, KeepCodecLawInForms, PairKeepsCodecLaw};
ghost use Rattle.h26x_payload.specs.Dispatch.{PairKeepsCodecLawInForms};

use crate::codec_depacketizer::CodecDepacketizer;
use crate::codec_packetizer::CodecPacketizer;
use h26x_payload_formats::{h264_law, h265_h266_law};
use payload_core_audio::{amr_wb_law, plain_laws, telephone_law};
use payload_core_av1::av1_law;
use payload_core_base::{Depacketizer, Packetizer};
use payload_core_vpx::{vp8_law, vp9_law};

/// Every codec that `CodecPacketizer::new` accepts obeys the codec law, whatever was negotiated,
/// and its packetizer starts in a state that the law covers. Every VP8 or VP9 packet except a
/// sample's last is as long as the limit. All this also holds with VP8's picture id 0 and VP9's
/// prediction flag, and at limits above 4 bytes these don't change the units.
pub fn codec_law()
    ensures codec { KeepCodecLaw }
    ensures first { FirstIsReached }
    ensures full { FillPackets }
    ensures codec_in_forms { KeepCodecLawInForms }
    ensures full_in_forms { FillPacketsInForms }
    ensures units_in_forms { FormsKeepUnits }
{
    plain_laws();
    amr_wb_law();
    telephone_law();
    vp8_law();
    vp9_law();
    av1_law();
    h264_law();
    h265_h266_law();
}

/// A packetizer and a depacketizer of one codec with the same settings, as `new` and
/// `configure_for` leave them, obey its codec law. The packets of a well-formed sample have between
/// one byte and the limit; read in order, with no fragment open before, they give the sample's
/// units, none is refused, and no fragment is left open.
pub fn pair_law<P: Packetizer, D: Depacketizer>(
    packetizer: &CodecPacketizer<P>,
    depacketizer: &CodecDepacketizer<D>,
)
    ensures plain { PairKeepsCodecLaw (⟦<CodecPacketizer<P> as Packetizer>⟧.packing packetizer.now)
        (⟦<CodecDepacketizer<D> as Depacketizer>⟧.format depacketizer.now) }
    ensures in_forms { PairKeepsCodecLawInForms (⟦<CodecPacketizer<P> as Packetizer>⟧.packing packetizer.now)
        (⟦<CodecDepacketizer<D> as Depacketizer>⟧.format depacketizer.now) }
{
    codec_law();
}

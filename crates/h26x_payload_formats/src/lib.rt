//! The payload formats of H.264 (RFC 6184), H.265 (RFC 7798) and H.266 (RFC 9328).
#![tactic(auto)]

mod codecs;
mod h264_constants;
mod h264_laws;
mod h264_packets;
mod h264_receiver;
mod h264_sender;
mod headers;
mod keyframes;
mod layout_constants;
mod layout_laws;
mod packetizer;
mod packets;
mod prefix;
mod receiver;
mod sender;

pub use codecs::{
    H265, H265Depacketizer, H265OrH266, H265Packetizer, H266, H266Depacketizer, H266Packetizer,
};
pub use h264_constants::{
    AUD_NALU_TYPE, FILLER_NALU_TYPE, FU_END_BITMASK, FU_START_BITMASK, FUA_HEADER_SIZE,
    FUA_NALU_TYPE, FUB_NALU_TYPE, IDR_NALU_TYPE, NALU_REF_IDC_BITMASK, NALU_TYPE_BITMASK,
    OUTPUT_STAP_AHEADER, PPS_NALU_TYPE, SPS_NALU_TYPE, STAPA_HEADER_SIZE, STAPA_NALU_LENGTH_SIZE,
    STAPA_NALU_TYPE,
};
pub use h264_laws::{h264_law, h264_reading_law};
pub use h264_receiver::{H264Depacketizer, detect_h264_keyframe, detect_h264_nalu};
pub use h264_sender::H264Packetizer;
pub use keyframes::{detect_h265_keyframe, detect_h266_keyframe};
pub use layout_constants::MAX_PACKET_SIZE;
pub use layout_laws::{h265_h266_law, h265_h266_reading_law};
pub use packetizer::H265OrH266Packetizer;
pub use packets::Form;
pub use receiver::H265OrH266Depacketizer;
pub use sender::{Kept, push_units};

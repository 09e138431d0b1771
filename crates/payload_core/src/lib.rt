//! RTP payload formats: what all codecs share, audio and video payloads, and the jitter buffer for
//! any codec. The RTP types that their calls use are re-exported here.
#![tactic(auto)]

pub use media_types::{Codec, MediaKind};
pub use payload_core_audio::{
    AmrWbDepacketizer, AmrWbPacketizer, ComfortNoiseDepacketizer, ComfortNoisePacketizer,
    G7xxPacketizer, G711Depacketizer, G711Packetizer, G722Packetizer, OpusDepacketizer,
    OpusPacketizer, RedBlock, RedBlocks, RedDecoder, RedEncoder, RedSender, RedSink,
    RedundantBlock, TelephoneEventDepacketizer, TelephoneEventPacketizer, amr_wb_law,
    amr_wb_layout_law, plain_laws, red_law, red_wrap_law, telephone_law,
};
pub use payload_core_av1::{
    Av1Depacketizer, Av1Packetizer, av1_law, av1_layout_law, av1_open_law, av1_packets_law,
    av1_size_law, detect_av1_keyframe,
};
pub use payload_core_base::{
    Av1CodecExtra, CodecExtra, Depacketizer, H264CodecExtra, H265CodecExtra, H266CodecExtra,
    PacketError, PacketList, PacketSink, Packetizer, Payloader, SentPacket, TelephoneEvent,
    TelephoneEvents, Vp8CodecExtra, Vp9CodecExtra, telephone_event_law,
};
pub use payload_core_buffer::{
    Depacketized, DepacketizingBuffer, MAX_HELD, MIN_HELD, RtpMeta, frames_law, is_valid_capacity,
};
pub use payload_core_vpx::{
    VP8_HEADER_SIZE, Vp8Depacketizer, Vp8Descriptor, Vp8DescriptorError, Vp8Packetizer, Vp8Patch,
    Vp8PatchBuilder, Vp8PatchError, Vp8Shift, Vp9Depacketizer, Vp9Packetizer, detect_vp8_keyframe,
    vp8_keyframe_law, vp8_law, vp8_layout_law, vp8_patch_law, vp8_shift_law, vp9_law,
    vp9_layout_law,
};
pub use rtp_wire::{
    AbsCaptureTime, ClockRate, ExtensionValues, Frequency, Mid, ParseFrequencyError, Pt, Rid,
    SeqNo, VideoOrientation,
};

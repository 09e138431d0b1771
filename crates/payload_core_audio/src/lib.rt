//! Payload formats of audio: Opus, G.711, G.722, comfort noise, telephone events, AMR-WB, and redundancy (RFC 2198).
#![tactic(auto)]

mod amr_wb;
mod amr_wb_laws;
mod audio_laws;
mod bits;
mod block;
mod comfort_noise;
mod cut;
mod decoder;
mod encoder;
mod field;
mod history;
mod plain;
mod red_laws;
mod repeated;
mod sender;
mod sink;
mod spelling;
mod telephone_event;

pub use amr_wb::{AmrWbDepacketizer, AmrWbPacketizer};
pub use amr_wb_laws::{amr_wb_law, amr_wb_layout_law};
pub use audio_laws::{plain_laws, telephone_law};
pub use block::{RedBlock, RedundantBlock};
pub use comfort_noise::ComfortNoisePacketizer;
pub use decoder::{RedBlocks, RedDecoder};
pub use encoder::RedEncoder;
pub use plain::{
    ComfortNoiseDepacketizer, G7xxPacketizer, G711Depacketizer, G711Packetizer, G722Packetizer,
    OpusDepacketizer, OpusPacketizer, PlainDepacketizer, PlainPacketizer,
};
pub use red_laws::{red_law, red_wrap_law};
pub use sender::RedSender;
pub use sink::RedSink;
pub use telephone_event::{TelephoneEventDepacketizer, TelephoneEventPacketizer};

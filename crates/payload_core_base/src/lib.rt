//! Codecs, the traits of packetizers and depacketizers, and telephone events (RFC 4733), and sending samples through a
//! packet sink.
#![tactic(auto)]

mod boxed;
mod bytes;
mod depacketizer;
mod error;
mod extra;
mod packet_list;
mod packetizer;
mod payloader;
mod sink;
mod telephone_event;

pub use bytes::{behind, byte_at, has_bit};
pub use depacketizer::Depacketizer;
pub use error::PacketError;
pub use extra::{
    Av1CodecExtra, CodecExtra, H264CodecExtra, H265CodecExtra, H266CodecExtra, Vp8CodecExtra,
    Vp9CodecExtra,
};
pub use packet_list::{PacketList, SentPacket};
pub use packetizer::Packetizer;
pub use payloader::Payloader;
pub use sink::PacketSink;
pub use telephone_event::{TelephoneEvent, TelephoneEvents, telephone_event_law};

//! The payload format of AV1.
#![tactic(auto)]

mod av1_elements;
mod av1_receiver;
mod av1_sender;
mod laws;
mod leb128;
mod obu;
mod obu_element;

pub use av1_receiver::{Av1Depacketizer, detect_av1_keyframe};
pub use av1_sender::Av1Packetizer;
pub use laws::{av1_law, av1_layout_law, av1_open_law, av1_packets_law, av1_size_law};
pub use leb128::{push_size, size_len};
pub use obu::{Obu, first_obu};

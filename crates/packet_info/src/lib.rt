//! What a packet says of its frame, without the frame being put together: for whoever sends packets on, or looks for
//! the first key frame of a stream.
#![tactic(auto)]

mod info;
mod laws;
mod layers;
mod packets;

pub use info::{PacketInfo, packet_info};
pub use laws::{packet_info_law, size_law};
pub use layers::Layers;

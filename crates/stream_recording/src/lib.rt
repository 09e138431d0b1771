//! What is recorded of a stream: the units of its packets, in their order.
#![tactic(auto)]

mod laws;
mod recording;

pub use laws::recording_law;
pub use recording::{record_packet, record_rest};

//! Laws of whole runs over two hops whose middle forwards packets; no code.
#![tactic(auto)]

mod opus;
mod over_ends;
mod over_hops;
mod over_steps;
mod published;
mod vp8;

pub use opus::opus_over_forwarder;
pub use over_ends::forwarded_runs_law;
pub use over_hops::{first_hop_law, hops_laws};
pub use over_steps::steps_over_hops_law;
pub use published::published_law;
pub use vp8::vp8_over_forwarder;

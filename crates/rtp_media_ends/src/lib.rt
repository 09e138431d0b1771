//! The end of a media path: exchanges, openings, streams.
#![tactic(auto)]

mod end;
mod errors;
mod laws;
mod new_streams;
mod openings;
mod params;
mod rows;

pub use end::{End, ReceivedAll, connect};
pub use errors::OpenError;
pub use laws::{exchanged_law, isolation_law, openings_law, repairs_law, transparency_law};
pub use new_streams::{new_receiver, new_sender};
pub use params::{Distances, StreamParams};

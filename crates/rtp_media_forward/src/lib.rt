//! Packets of one stream or of several, sent on as those of another.
#![tactic(auto)]

mod chains;
mod forwarder;
mod laws;
mod steps;
mod vp8_ids;

pub use chains::chain_laws;
pub use forwarder::{Forwarder, Piece, Placed, ReserveError};
pub use laws::{forwarding_laws, relayed_laws};
pub use steps::steps_law;
pub use vp8_ids::{Vp8Ids, Vp8Part, vp8_ids_law};

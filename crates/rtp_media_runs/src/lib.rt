//! Whole runs between two ends, and what holds of them.
#![tactic(auto)]

mod again;
mod answered;
mod events;
mod late_repairs;
mod laws;
mod names;
mod opus;
mod pushing;
mod redundancy;
mod runs;
mod sample;
mod schedule;
mod second_hop;
mod types;
mod well_formed;

pub use again::again_law;
pub use answered::answered_rows_law;
pub use late_repairs::late_repairs_law;
pub use laws::headline;
pub use names::names_law;
pub use opus::opus_over_two_hops;
pub use redundancy::redundancy_law;
pub use runs::play;
pub use sample::Sample;
pub use schedule::{Event, Played};
pub use second_hop::second_hop_law;
pub use types::types_law;
pub use well_formed::well_formed_law;

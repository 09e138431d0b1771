//! Rounds of negotiation over payload rows, and their laws: what a round makes of rows, and when it is refused.
#![tactic(auto)]

mod agreed;
mod best;
mod claims;
mod config;
mod error;
mod match_laws;
mod plain_laws;
mod refusals;
mod results;
mod round_laws;
mod rounds;
mod settings;
mod settled;
mod standing;
mod type_laws;

pub use best::{best_row, better};
pub use config::{CodecConfig, RemoteSection};
pub use error::RoundError;
pub use match_laws::best_is_best;
pub use plain_laws::rounds_keep_widths;
pub use refusals::{locked_types_law, round_refusals_law};
pub use results::round_results_law;
pub use round_laws::{
    locked_rows_keep_types, locked_types_distinct, rows_become, suggested_types_taken,
    unlocked_rows_apart,
};
pub use rounds::round;
pub use settings::negotiated;
pub use type_laws::{all_are_apart, chosen_are_apart, types_stay_apart, types_stay_small};

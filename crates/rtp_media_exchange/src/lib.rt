//! The exchange of an offer and an answer (RFC 3264).
#![tactic(auto)]

mod agree;
mod answering;
mod errors;
mod exchange;
mod fixed;
mod laws;
mod named;
mod offered;
mod plain;
mod print;
mod read_back;
mod said_sections;
mod settle;
mod widths;

pub use errors::{EndError, ExchangeError};
pub use exchange::Exchange;
pub use laws::{mutual_law, one_agreement_law};

//! The line at which a session text can't be read on, and what is wrong there.
#![tactic(auto)]

mod fault;
mod finding;
mod header;
mod numbered;
mod sections;

pub use fault::{FaultyLine, LineFault};
pub use finding::faulty_line;

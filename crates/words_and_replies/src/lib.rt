//! Words and replies of the test programs.
#![tactic(auto)]

mod bytes;
mod line;
mod reading;
mod reply;
mod words;

pub use bytes::part;
pub use line::CommandLine;
pub use reply::ReplyText;
pub use words::parted;

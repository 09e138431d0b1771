//! Generic NACKs (RFC 4585 6.2.1): which numbers a receiver asks for now, and which datagrams a sender has to repair.
#![tactic(auto)]

mod history;
mod laws;
mod requests;

pub use history::{Copied, PacketHistory};
pub use laws::nack_laws;
pub use requests::{NackRequester, Request, is_rising};

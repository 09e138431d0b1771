//! The streams that an end has open: by number, SSRC and payload type.
#![tactic(auto)]

mod errors;
mod finding;
mod open_stream;
mod received;
mod slots;
mod stream_index;
mod stream_table;

pub use errors::ReceiveError;
pub use finding::{conflicts, stream_for};
pub use open_stream::{Direction, OpenStream};
pub use received::Received;
pub use stream_index::StreamIndex;
pub use stream_table::{Polls, StreamTable};

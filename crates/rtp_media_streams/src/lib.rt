//! One sending or receiving stream.
#![tactic(auto)]

mod codecs;
mod datagram;
mod errors;
mod laws;
mod making;
mod payload;
mod receiver;
mod row_format;
mod sender;
mod spare;
mod stamp;
mod types;

pub use codecs::{depacketizer_for, packetizer_for};
pub use datagram::Datagram;
pub use errors::{ForwardError, PollFault, RepairError, SampleError};
pub use laws::{datagrams_laws, redundancy_laws};
pub use payload::{Brought, locate_payload};
pub use receiver::{Arrival, Placed, ReceivingStream};
pub use row_format::{RowFormat, rtp_rate_of};
pub use sender::SendingStream;
pub use types::{PayloadTypes, RepairKey};

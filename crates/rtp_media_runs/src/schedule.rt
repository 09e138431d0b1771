//! Schedules, and what they are answered.

use payload_core_base::PacketError;
use payload_core_buffer::Unit;
use rtp_media_stream_table::Received;
use rtp_media_streams::{Datagram, RepairError};

/// What happens at the end that receives, and between both.
#[derive(Drop)]
pub enum Event {
    /// The sender's datagram with this index (from 0) arrives; nothing happens if there is none.
    Arrive(usize),
    /// The sender retransmits its datagram with this index (from 0), and the retransmission arrives
    /// (RFC 4588); nothing happens if there is none, or if the repair is refused.
    Repair(usize),
    /// Other bytes arrive.
    Foreign(Datagram),
    /// The receiving stream is polled.
    Poll,
}

/// What an event is answered.
#[derive(Drop)]
pub enum Played {
    /// What is said of bytes that arrived.
    Received(Received),
    /// Why a datagram isn't repaired; never `RepairError::Memory`.
    NotRepaired(RepairError),
    /// What a poll returned: a unit, that none is ready, or why a packet of the next frame is
    /// refused (the frame is then dropped).
    Polled(Result<Option<Unit>, PacketError>),
}

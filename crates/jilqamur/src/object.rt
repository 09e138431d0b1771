//! What handles hold.

use crate::held_end::HeldEnd;
use crate::inbox::Inbox;
use crate::outbox::Outbox;
use crate::packet_inbox::PacketInbox;
use crate::packet_outbox::PacketOutbox;
use crate::replay::Replay;
use rtp_media_forward::Forwarder;
use rtp_media_nack::{NackRequester, PacketHistory};

/// What a handle holds.
#[derive(Drop)]
pub enum Object {
    /// An end.
    End(HeldEnd),
    /// A window.
    Window(Replay),
    /// A sending stream.
    Sender(Outbox),
    /// A receiving stream.
    Receiver(Inbox),
    /// A packetizer.
    Packetizer(PacketOutbox),
    /// A depacketizer.
    Depacketizer(PacketInbox),
    /// A forwarder.
    Forwarder(Forwarder),
    /// What a stream sent.
    History(PacketHistory),
    /// What a receiver asks for.
    Requester(NackRequester),
}

//! Handles, each of one kind of object; all bytes of one that is closed may be 0.

ghost use Rattle.std.specs.Prelude.{◌≡◌, is_some};
ghost use Rattle.jilqamur.specs.Objects.{end_of, window_of, sender_of, receiver_of, packetizer_of, depacketizer_of};
ghost use Rattle.jilqamur.specs.Objects.{forwarder_of, history_of, requester_of};

use crate::place::Slot;

/// A handle of an end.
#[repr(C)]
#[derive(Drop)]
pub struct EndHandle {
    /// Where it is held.
    pub slot: Slot,
    ghost kind: { is_some (end_of slot.place.object) ≡ is_some slot.place.object },
}

/// A handle of a window.
#[repr(C)]
#[derive(Drop)]
pub struct WindowHandle {
    /// Where it is held.
    pub slot: Slot,
    ghost kind: { is_some (window_of slot.place.object) ≡ is_some slot.place.object },
}

/// A handle of a sending stream.
#[repr(C)]
#[derive(Drop)]
pub struct SenderHandle {
    /// Where it is held.
    pub slot: Slot,
    ghost kind: { is_some (sender_of slot.place.object) ≡ is_some slot.place.object },
}

/// A handle of a receiving stream.
#[repr(C)]
#[derive(Drop)]
pub struct ReceiverHandle {
    /// Where it is held.
    pub slot: Slot,
    ghost kind: { is_some (receiver_of slot.place.object) ≡ is_some slot.place.object },
}

/// A handle of a packetizer.
#[repr(C)]
#[derive(Drop)]
pub struct PacketizerHandle {
    /// Where it is held.
    pub slot: Slot,
    ghost kind: { is_some (packetizer_of slot.place.object) ≡ is_some slot.place.object },
}

/// A handle of a depacketizer.
#[repr(C)]
#[derive(Drop)]
pub struct DepacketizerHandle {
    /// Where it is held.
    pub slot: Slot,
    ghost kind: { is_some (depacketizer_of slot.place.object) ≡ is_some slot.place.object },
}

/// A handle of a forwarder.
#[repr(C)]
#[derive(Drop)]
pub struct ForwarderHandle {
    /// Where it is held.
    pub slot: Slot,
    ghost kind: { is_some (forwarder_of slot.place.object) ≡ is_some slot.place.object },
}

/// A handle of what a stream sent.
#[repr(C)]
#[derive(Drop)]
pub struct HistoryHandle {
    /// Where it is held.
    pub slot: Slot,
    ghost kind: { is_some (history_of slot.place.object) ≡ is_some slot.place.object },
}

/// A handle of what a receiver asks for.
#[repr(C)]
#[derive(Drop)]
pub struct RequesterHandle {
    /// Where it is held.
    pub slot: Slot,
    ghost kind: { is_some (requester_of slot.place.object) ≡ is_some slot.place.object },
}

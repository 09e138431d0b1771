//! The streams of an end.

ghost use Rattle.std.specs.Prelude.{◌≡◌};
ghost use Rattle.rtp_media_stream_table.specs.Arrivals.{takes};
ghost use Rattle.rtp_media_stream_table.specs.Streams.{is_receiving, is_sending};
ghost use Rattle.rtp_media_stream_table.specs.Indexed.{has_key, sends};

use crate::slots::{ReceiverSlot, SenderSlot};
use rtp_wire::{Pt, Ssrc};

/// Which streams are looked for.
#[derive(Clone, Copy, Drop)]
pub enum Direction {
    /// Those that send.
    Sends,
    /// Those that receive.
    Receives,
}

/// A stream of an end.
#[derive(Drop)]
pub enum OpenStream {
    /// One that sends.
    Sender(SenderSlot),
    /// One that receives.
    Receiver(ReceiverSlot),
    /// One that was closed.
    Closed,
}

impl OpenStream {
    /// Whether it sends.
    pub fn is_sender(&self) -> bool
        ensures { result ≡ is_sending self.now }
    {
        match self {
            OpenStream::Sender(_) => true,
            OpenStream::Receiver(_) | OpenStream::Closed => false,
        }
    }

    /// Whether it receives.
    pub fn is_receiver(&self) -> bool
        ensures { result ≡ is_receiving self.now }
    {
        match self {
            OpenStream::Receiver(_) => true,
            OpenStream::Sender(_) | OpenStream::Closed => false,
        }
    }

    /// Whether it has this direction and this key: an SSRC and a payload type that its datagrams may have.
    pub fn has_key(&self, direction: Direction, ssrc: Ssrc, pt: Pt) -> bool
        ensures { result ≡ has_key direction ssrc pt self.now }
    {
        match direction {
            Direction::Sends => self.sends(ssrc, pt),
            Direction::Receives => self.takes(ssrc, pt),
        }
    }

    /// Whether it could send datagrams of this SSRC and payload type.
    fn sends(&self, ssrc: Ssrc, pt: Pt) -> bool
        ensures { result ≡ sends ssrc pt self.now }
    {
        match self {
            OpenStream::Sender(sender) => sender.stream.is_key(ssrc, pt),
            OpenStream::Receiver(_) | OpenStream::Closed => false,
        }
    }

    /// Whether datagrams of this SSRC and payload type are its own.
    fn takes(&self, ssrc: Ssrc, pt: Pt) -> bool
        ensures { result ≡ takes ssrc pt self.now }
    {
        match self {
            OpenStream::Receiver(receiver) => receiver.stream.is_own(ssrc, pt),
            OpenStream::Sender(_) | OpenStream::Closed => false,
        }
    }
}

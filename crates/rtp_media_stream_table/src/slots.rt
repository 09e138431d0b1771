//! Open streams in memory of their own, so that the place of a closed one is small.

ghost use Rattle.std.specs.Prelude.{◌≡◌, IfOk};

use rtp_media_streams::{ReceivingStream, SendingStream};
use std::alloc::{AllocError, Global};
use std::marker::Model;

/// A sending stream in memory of its own.
#[derive(Drop)]
pub struct SenderSlot {
    /// The stream.
    pub stream: Box<SendingStream>,
}

impl Model for SenderSlot {
    ghost use Rattle.rtp_media_streams.specs.Sending.{Sending};
    ghost use Rattle.rtp_wire.specs.Replay.{window_code};
    ghost use Rattle.std.specs.Coded.{codes};

    ghost Value = { Sending };

    ghost coded = { Prim.hlevel (codes, window_code) };

    ghost view = { λ s. s.stream.value };
}

impl SenderSlot {
    /// Puts a stream into memory of its own.
    ///
    /// # Errors
    /// Out of memory.
    pub fn new(alloc: Global, stream: SendingStream) -> Result<Self, AllocError>
        ensures { IfOk result (λ s. s ≡ stream) }
    {
        Ok(SenderSlot {
            stream: Box::new(alloc, stream)?,
        })
    }
}

/// A receiving stream in memory of its own.
#[derive(Drop)]
pub struct ReceiverSlot {
    /// The stream.
    pub stream: Box<ReceivingStream>,
}

impl Model for ReceiverSlot {
    ghost use Rattle.rtp_media_streams.specs.Receiving.{Receiving};
    ghost use Rattle.rtp_wire.specs.Replay.{window_code};
    ghost use Rattle.std.specs.Coded.{codes};

    ghost Value = { Receiving };

    ghost coded = { Prim.hlevel (codes, window_code) };

    ghost view = { λ s. s.stream.value };
}

impl ReceiverSlot {
    /// Puts a stream into memory of its own.
    ///
    /// # Errors
    /// Out of memory.
    pub fn new(alloc: Global, stream: ReceivingStream) -> Result<Self, AllocError>
        ensures { IfOk result (λ s. s ≡ stream) }
    {
        Ok(ReceiverSlot {
            stream: Box::new(alloc, stream)?,
        })
    }
}

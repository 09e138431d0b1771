//! Why samples are refused, and why polls hand out nothing.

use payload_core_base::PacketError;
use std::alloc::AllocError;
use thiserror::Error;

/// Why a sample is not sent; of several reasons the first listed is answered.
#[derive(Clone, Copy, Debug, PartialEq, Eq, Drop, Error)]
pub enum SampleError {
    /// Memory ran out in the stream before, or its numbers are used up.
    #[error("the stream sends no more")]
    StreamFailed,
    /// The time does not fit 64 bits at the stream's clock.
    #[error("the time is too large")]
    TimeTooLarge,
    /// A payload of `mtu` bytes plus its header would exceed the datagram limit.
    #[error("a datagram would pass the limit")]
    LimitTooSmall,
    /// The codec does not take the sample.
    #[error("the sample is refused: {0}")]
    Payload(PacketError),
    /// Out of memory.
    #[error("out of memory")]
    Memory,
}

impl From<AllocError> for SampleError {
    ghost use Rattle.std.specs.Prelude.{◌≡◌};
    ghost use Rattle.rtp_media_streams.specs.declared.errors.SampleError.TheVariants.{Memory};

    ghost from_gives = { λ _ e. e ≡ Memory };

    fn from(_error: AllocError) -> SampleError {
        SampleError::Memory
    }
}

/// Why a poll hands out nothing though a unit may be ready.
#[derive(Clone, Copy, Debug, PartialEq, Eq, Drop, Error)]
pub enum PollFault {
    /// The payloads of the frame are invalid for their format.
    #[error("the payload is refused: {0}")]
    Payload(PacketError),
    /// Out of memory.
    #[error("out of memory")]
    Memory,
}

/// Why a datagram is not repaired; of several reasons the first listed is answered.
#[derive(Clone, Copy, Debug, PartialEq, Eq, Drop, Error)]
pub enum RepairError {
    /// The stream has no RTX SSRC and type, or adds redundancy.
    #[error("the stream has no repairs")]
    NoRepair,
    /// The datagram isn't one of the stream's own, or has no payload.
    #[error("the datagram is not the stream's own")]
    NotOwn,
    /// With two more bytes the datagram would exceed the limit.
    #[error("the repair would pass the limit")]
    LimitTooSmall,
    /// Out of memory.
    #[error("out of memory")]
    Memory,
}

impl From<AllocError> for RepairError {
    ghost use Rattle.std.specs.Prelude.{◌≡◌};
    ghost use Rattle.rtp_media_streams.specs.declared.errors.RepairError.TheVariants.{Memory};

    ghost from_gives = { λ _ e. e ≡ Memory };

    fn from(_error: AllocError) -> RepairError {
        RepairError::Memory
    }
}

/// Why a packet is not sent on; of several reasons the first listed is answered.
#[derive(Clone, Copy, Debug, PartialEq, Eq, Drop, Error)]
pub enum ForwardError {
    /// The stream adds redundancy.
    #[error("the stream adds redundancy")]
    AddsRedundancy,
    /// The number is 2^62 or above.
    #[error("the number is too large")]
    NumberTooLarge,
    /// The payload has no byte.
    #[error("there is no payload")]
    NoPayload,
    /// The datagram would pass the limit.
    #[error("the datagram would pass the limit")]
    LimitTooSmall,
    /// Out of memory.
    #[error("out of memory")]
    Memory,
}

impl From<AllocError> for ForwardError {
    ghost use Rattle.std.specs.Prelude.{◌≡◌};
    ghost use Rattle.rtp_media_streams.specs.declared.errors.ForwardError.TheVariants.{Memory};

    ghost from_gives = { λ _ e. e ≡ Memory };

    fn from(_error: AllocError) -> ForwardError {
        ForwardError::Memory
    }
}

//! Why a sample or a packet is refused.

use std::alloc::{AllocError, AllocFailed};
use thiserror::Error;

/// Why a sample can't be packed, or a packet can't be read.
#[derive(Clone, Copy, Debug, PartialEq, Eq, Drop, Error)]
pub enum PacketError {
    /// The packet is too short for its format.
    #[error("the packet is too short")]
    ErrShortPacket,
    /// The sample can't be cut, and its single packet exceeds the limit.
    #[error("the payload is larger than the limit")]
    ErrPayloadTooLarge,
    /// A VP9 descriptor lists a fourth reference (RFC 9628 4.2).
    #[error("too many reference differences")]
    ErrTooManyPDiff,
    /// An H.265 packet breaks its format (RFC 7798 4.4).
    #[error("corrupted H.265 packet")]
    ErrH265CorruptedPacket,
    /// An H.266 packet breaks its format (RFC 9328 4.3).
    #[error("corrupted H.266 packet")]
    ErrH266CorruptedPacket,
    /// An aggregated unit has this size, but only this many bytes are left (RFC 6184 5.7.1).
    #[error("an aggregated unit of {0} bytes where {1} are left")]
    StapASizeLargerThanBuffer(usize, usize),
    /// Packets with this NAL unit type are not supported (RFC 6184 5.2, RFC 7798 4.2, RFC 9328
    /// 4.2).
    #[error("unit type {0} is not handled")]
    NaluTypeIsNotHandled(u8),
    /// A VP8 descriptor breaks its format (RFC 7741 4.2).
    #[error("corrupted VP8 packet")]
    ErrVP8CorruptedPacket,
    /// A VP9 descriptor breaks its format (RFC 9628 4.2).
    #[error("corrupted VP9 packet")]
    ErrVP9CorruptedPacket,
    /// An AV1 packet breaks its format.
    #[error("corrupted AV1 packet")]
    ErrAv1CorruptedPacket,
    /// A redundant payload breaks its format (RFC 2198 3).
    #[error("corrupted redundant packet")]
    ErrRedCorruptedPacket,
    /// A list of telephone event reports isn't a nonempty multiple of four bytes (RFC 4733 2.3).
    #[error("invalid telephone event")]
    InvalidTelephoneEvent,
    /// An AMR-WB packet or sample breaks its format (RFC 4867 4.3 and 4.4).
    #[error("corrupted AMR-WB packet")]
    ErrAmrWbCorruptedPacket,
    /// Out of memory.
    #[error("out of memory")]
    Memory,
}

impl From<AllocError> for PacketError {
    ghost use Rattle.std.specs.Prelude.{◌≡◌};
    ghost use Rattle.payload_core_base.specs.declared.error.PacketError.TheVariants.{Memory};

    ghost from_gives = { λ _ e. e ≡ Memory };

    fn from(_e: AllocError) -> PacketError {
        PacketError::Memory
    }
}

impl<T: Drop> From<AllocFailed<T>> for PacketError {
    ghost use Rattle.std.specs.Prelude.{◌≡◌};
    ghost use Rattle.payload_core_base.specs.declared.error.PacketError.TheVariants.{Memory};

    ghost from_gives = { λ _ e. e ≡ Memory };

    fn from(_e: AllocFailed<T>) -> PacketError {
        PacketError::Memory
    }
}

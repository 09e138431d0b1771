//! Why a sample or a packet is refused, as a number.

ghost use Rattle.std.specs.Prelude.{◌≡◌};
ghost use Rattle.jilqamur.specs.Faults.{fault_code};

use crate::codes;
use payload_core_base::PacketError;

/// The number of a refusal; the sizes of an aggregated unit and the type of a unit are not told.
pub fn fault_code(error: PacketError) -> u32
    ensures { result ≡ fault_code error }
{
    match error {
        PacketError::ErrShortPacket => codes::PACKET_TOO_SHORT,
        PacketError::ErrPayloadTooLarge => codes::SAMPLE_TOO_LARGE,
        PacketError::ErrTooManyPDiff => codes::TOO_MANY_REFERENCES,
        PacketError::ErrH265CorruptedPacket => codes::H265_CORRUPTED,
        PacketError::ErrH266CorruptedPacket => codes::H266_CORRUPTED,
        PacketError::StapASizeLargerThanBuffer(_, _) => codes::AGGREGATE_CUT_SHORT,
        PacketError::NaluTypeIsNotHandled(_) => codes::UNIT_TYPE_NOT_HANDLED,
        PacketError::ErrVP8CorruptedPacket => codes::VP8_CORRUPTED,
        PacketError::ErrVP9CorruptedPacket => codes::VP9_CORRUPTED,
        PacketError::ErrAv1CorruptedPacket => codes::AV1_CORRUPTED,
        PacketError::ErrRedCorruptedPacket => codes::RED_CORRUPTED,
        PacketError::InvalidTelephoneEvent => codes::EVENT_INVALID,
        PacketError::ErrAmrWbCorruptedPacket => codes::AMR_WB_CORRUPTED,
        PacketError::Memory => codes::MEMORY,
    }
}

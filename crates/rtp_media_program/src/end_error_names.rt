//! The names under which errors of ends and of streams are printed.

ghost use Rattle.std.specs.Prelude.{◌≡◌};
ghost use Rattle.rtp_media_program.specs.EndErrorNames.{end_error_name, fault_name, open_error_name, repair_error_name};
ghost use Rattle.rtp_media_program.specs.EndErrorNames.{forward_error_name, reserve_error_name, sample_error_name};

use crate::memory_name::memory;
use crate::reply::ErrorName;
use rtp_media_ends::OpenError;
use rtp_media_exchange::EndError;
use rtp_media_forward::ReserveError;
use rtp_media_streams::{ForwardError, PollFault, RepairError, SampleError};

/// The name of a refusal to make an end.
pub(crate) fn end_error_name(error: EndError) -> ErrorName
    ensures { result ≡ end_error_name error }
{
    match error {
        EndError::RowNotPlain(_) => ErrorName::new("RowNotPlain"),
        EndError::TypesNotDistinct(_) => ErrorName::new("TypesNotDistinct"),
        EndError::NotWritable => ErrorName::new("NotWritable"),
        EndError::Memory => memory(),
    }
}

/// The name of a refused opening.
pub(crate) fn open_error_name(error: OpenError) -> ErrorName
    ensures { result ≡ open_error_name error }
{
    match error {
        OpenError::NoSection => ErrorName::new("NoSection"),
        OpenError::RowNotAgreed => ErrorName::new("RowNotAgreed"),
        OpenError::RowDiffers => ErrorName::new("RowDiffers"),
        OpenError::WrongDirection => ErrorName::new("WrongDirection"),
        OpenError::SsrcNotNamed => ErrorName::new("SsrcNotNamed"),
        OpenError::AlreadyOpen => ErrorName::new("AlreadyOpen"),
        OpenError::Memory => memory(),
    }
}

/// The name of a refused sample.
pub fn sample_error_name(error: SampleError) -> ErrorName
    ensures { result ≡ sample_error_name error }
{
    match error {
        SampleError::StreamFailed => ErrorName::new("StreamFailed"),
        SampleError::TimeTooLarge => ErrorName::new("TimeTooLarge"),
        SampleError::LimitTooSmall => ErrorName::new("LimitTooSmall"),
        SampleError::Payload(_) => ErrorName::new("Payload"),
        SampleError::Memory => memory(),
    }
}

/// The name of a refused repair.
pub(crate) fn repair_error_name(error: RepairError) -> ErrorName
    ensures { result ≡ repair_error_name error }
{
    match error {
        RepairError::NoRepair => ErrorName::new("NoRepair"),
        RepairError::NotOwn => ErrorName::new("NotOwn"),
        RepairError::LimitTooSmall => ErrorName::new("LimitTooSmall"),
        RepairError::Memory => memory(),
    }
}

/// The name of a refusal to send a packet on.
pub(crate) fn forward_error_name(error: ForwardError) -> ErrorName
    ensures { result ≡ forward_error_name error }
{
    match error {
        ForwardError::AddsRedundancy => ErrorName::new("AddsRedundancy"),
        ForwardError::NumberTooLarge => ErrorName::new("NumberTooLarge"),
        ForwardError::NoPayload => ErrorName::new("NoPayload"),
        ForwardError::LimitTooSmall => ErrorName::new("LimitTooSmall"),
        ForwardError::Memory => memory(),
    }
}

/// The name of a refusal to reserve numbers.
pub(crate) fn reserve_error_name(error: ReserveError) -> ErrorName
    ensures { result ≡ reserve_error_name error }
{
    match error {
        ReserveError::NumberTooLarge => ErrorName::new("NumberTooLarge"),
        ReserveError::Memory => memory(),
    }
}

/// The name of a fault of a poll.
pub fn fault_name(fault: PollFault) -> ErrorName
    ensures { result ≡ fault_name fault }
{
    match fault {
        PollFault::Payload(_) => ErrorName::new("Payload"),
        PollFault::Memory => memory(),
    }
}

//! What samples and polls return, as numbers.

ghost use Rattle.std.specs.Prelude.{◌≡◌};
ghost use Rattle.jilqamur.specs.StreamAnswers.{sample_code, poll_code, unit_behind};

use crate::codes;
use payload_core_buffer::Unit;
use rtp_media_streams::{PollFault, SampleError};

/// The number of a refused sample.
pub fn sample_code(error: SampleError) -> u32
    ensures { result ≡ sample_code error }
{
    match error {
        SampleError::StreamFailed => codes::STREAM_FAILED,
        SampleError::TimeTooLarge => codes::TIME_TOO_LARGE,
        SampleError::LimitTooSmall => codes::LIMIT_TOO_SMALL,
        SampleError::Payload(_) => codes::PAYLOAD,
        SampleError::Memory => codes::MEMORY,
    }
}

/// Keeps the unit of a poll, if there is one, and returns the poll's number.
pub fn poll_code(answer: Result<Option<Unit>, PollFault>, unit: &mut Option<Unit>) -> u32
    ensures code { result ≡ poll_code answer }
    ensures unit { unit.new ≡ unit_behind answer unit.old }
{
    match answer {
        Ok(None) => codes::NOTHING,
        Ok(Some(next)) => {
            *unit = Some(next);
            codes::OK
        }
        Err(PollFault::Payload(_)) => codes::PAYLOAD,
        Err(PollFault::Memory) => codes::MEMORY,
    }
}

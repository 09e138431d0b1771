//! Why a stream isn't opened, as a number.

ghost use Rattle.std.specs.Prelude.{◌≡◌};
ghost use Rattle.jilqamur.specs.Refusals.{open_code};

use crate::codes;
use rtp_media_ends::OpenError;

/// The number of a refusal to open a stream.
pub(crate) fn open_code(error: OpenError) -> u32
    ensures { result ≡ open_code error }
{
    match error {
        OpenError::NoSection => codes::NO_SECTION,
        OpenError::RowNotAgreed => codes::ROW_NOT_AGREED,
        OpenError::RowDiffers => codes::ROW_DIFFERS,
        OpenError::WrongDirection => codes::WRONG_DIRECTION,
        OpenError::SsrcNotNamed => codes::SSRC_NOT_NAMED,
        OpenError::AlreadyOpen => codes::ALREADY_OPEN,
        OpenError::Memory => codes::MEMORY,
    }
}

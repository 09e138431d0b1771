//! Why streams can't be opened.

use std::alloc::{AllocError, AllocFailed};
use thiserror::Error;

/// Why a stream can't be opened; of several reasons the first listed is answered.
#[derive(Clone, Copy, Debug, PartialEq, Eq, Drop, Error)]
pub enum OpenError {
    /// No section of this name is agreed.
    #[error("no such section is agreed")]
    NoSection,
    /// The answer's section has no row with this payload type, or its codec has no payload format,
    /// or its type is above 127.
    #[error("no row of this type is agreed")]
    RowNotAgreed,
    /// The end's own row with this type is missing, not locked, or different; also if the agreed
    /// row's RED type equals its own type.
    #[error("the end's own row differs from the agreed one")]
    RowDiffers,
    /// The section does not flow this way.
    #[error("the section does not flow this way")]
    WrongDirection,
    /// The sender's section doesn't name this SSRC.
    #[error("the sender's section does not name this SSRC")]
    SsrcNotNamed,
    /// A stream in this direction has this SSRC and a payload type (RED included) in common with
    /// this one.
    #[error("such a stream is open already")]
    AlreadyOpen,
    /// Out of memory.
    #[error("out of memory")]
    Memory,
}

impl From<AllocError> for OpenError {
    ghost use Rattle.std.specs.Prelude.{◌≡◌};
    ghost use Rattle.rtp_media_ends.specs.declared.errors.OpenError.TheVariants.{Memory};

    ghost from_gives = { λ _ e. e ≡ Memory };

    fn from(_error: AllocError) -> OpenError {
        OpenError::Memory
    }
}

impl<T: Drop> From<AllocFailed<T>> for OpenError {
    ghost use Rattle.std.specs.Prelude.{◌≡◌};
    ghost use Rattle.rtp_media_ends.specs.declared.errors.OpenError.TheVariants.{Memory};

    ghost from_gives = { λ _ e. e ≡ Memory };

    fn from(_error: AllocFailed<T>) -> OpenError {
        OpenError::Memory
    }
}

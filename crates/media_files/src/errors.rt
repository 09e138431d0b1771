//! Why a recording can't be written.

use std::alloc::{AllocError, AllocFailed};
use thiserror::Error;

/// Why a recording can't be written.
#[derive(Clone, Copy, Debug, PartialEq, Eq, Drop, Error)]
pub enum RecordingError {
    /// A length or a count passes what the format has room for.
    #[error("a length or a count passes what the file format has room for")]
    TooLong,
    /// There is no memory for the file.
    #[error("out of memory")]
    Memory,
}

impl From<AllocError> for RecordingError {
    ghost use Rattle.std.specs.Prelude.{◌≡◌};
    ghost use Rattle.media_files.specs.declared.errors.RecordingError.TheVariants.{Memory};

    ghost from_gives = { λ _ e. e ≡ Memory };

    fn from(_error: AllocError) -> Self {
        RecordingError::Memory
    }
}

impl<T: Drop> From<AllocFailed<T>> for RecordingError {
    ghost use Rattle.std.specs.Prelude.{◌≡◌};
    ghost use Rattle.media_files.specs.declared.errors.RecordingError.TheVariants.{Memory};

    ghost from_gives = { λ _ e. e ≡ Memory };

    fn from(_error: AllocFailed<T>) -> Self {
        RecordingError::Memory
    }
}

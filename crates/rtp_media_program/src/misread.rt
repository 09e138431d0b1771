//! Why a line could not be read.

ghost use Rattle.std.specs.Prelude.{◌≡◌};
ghost use Rattle.rtp_media_program.specs.declared.misread.Misread.TheVariants.{Memory};

use std::alloc::{AllocError, AllocFailed};

/// Why words could not be read as what a command takes there.
#[derive(Drop)]
pub enum Misread {
    /// A word is missing, superfluous, or invalid.
    NotUnderstood,
    /// Out of memory.
    Memory,
}

impl From<AllocError> for Misread {
    ghost from_gives = { λ _ e. e ≡ Memory };

    fn from(_e: AllocError) -> Misread {
        Misread::Memory
    }
}

impl<T: Drop> From<AllocFailed<T>> for Misread {
    ghost from_gives = { λ _ e. e ≡ Memory };

    fn from(_e: AllocFailed<T>) -> Misread {
        Misread::Memory
    }
}

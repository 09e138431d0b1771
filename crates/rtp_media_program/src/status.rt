//! How a run of the program ends.

ghost use Rattle.std.specs.Prelude.{◌≡◌};
ghost use Rattle.rtp_media_program.specs.Statuses.{code_of, worse};
ghost use Rattle.rtp_media_program.specs.declared.status.RunFault.TheVariants.{Memory, Write};

use crate::writing::WriteFault;
use std::alloc::AllocError;
use thiserror::Error;

/// How a run that reached the end of its input went.
#[derive(Clone, Copy, Debug, PartialEq, Eq)]
pub enum Status {
    /// Each line was understood, and its conditions held.
    Success,
    /// An `error line` was printed.
    ErrorLine,
}

impl Status {
    /// The program's exit status: 0, or 2 if an `error line` was printed.
    pub fn code(self) -> u8
        ensures { result ≡ code_of self }
    {
        match self {
            Status::Success => 0,
            Status::ErrorLine => 2,
        }
    }

    /// The status of two parts of a run, one after the other.
    pub fn and(self, later: Status) -> Status
        ensures { result ≡ worse self later }
    {
        match self {
            Status::Success => later,
            Status::ErrorLine => Status::ErrorLine,
        }
    }
}

/// Why a run ended before the end of its input was answered.
#[derive(Clone, Copy, Debug, Drop, Error, PartialEq, Eq)]
pub enum RunFault {
    /// A read failed, or the input doesn't end within 16,777,216 reads.
    #[error("read fault")]
    Read,
    /// A write failed, or took no bytes.
    #[error("write fault")]
    Write,
    /// Memory ran out.
    #[error("memory fault")]
    Memory,
}

impl From<AllocError> for RunFault {
    ghost from_gives = { λ _ e. e ≡ Memory };

    fn from(_e: AllocError) -> RunFault {
        RunFault::Memory
    }
}

impl From<WriteFault> for RunFault {
    ghost from_gives = { λ _ e. e ≡ Write };

    fn from(_e: WriteFault) -> RunFault {
        RunFault::Write
    }
}

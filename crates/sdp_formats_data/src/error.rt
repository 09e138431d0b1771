//! Why a session text isn't read.

use std::alloc::{AllocError, AllocFailed};
use std::error::Error;
use std::fmt;

/// Why a session text isn't read.
#[derive(Debug, Drop)]
pub enum SdpError {
    /// It has no valid header, or an inconsistent section.
    ParseError(String),
    /// Its parts are inconsistent.
    Inconsistent(String),
    /// Out of memory.
    Memory,
}

impl From<AllocError> for SdpError {
    ghost use Rattle.std.specs.Prelude.{◌≡◌};
    ghost use Rattle.sdp_formats_data.specs.declared.error.SdpError.TheVariants.{Memory};

    ghost from_gives = { λ _ e. e ≡ Memory };

    fn from(_error: AllocError) -> SdpError {
        SdpError::Memory
    }
}

impl<T: Drop> From<AllocFailed<T>> for SdpError {
    ghost use Rattle.std.specs.Prelude.{◌≡◌};
    ghost use Rattle.sdp_formats_data.specs.declared.error.SdpError.TheVariants.{Memory};

    ghost from_gives = { λ _ e. e ≡ Memory };

    fn from(_error: AllocFailed<T>) -> SdpError {
        SdpError::Memory
    }
}

impl fmt::Display for SdpError {
    ghost use Rattle.std.specs.Prelude.{Some};
    ghost use Rattle.sdp_formats_data.specs.Errors.{error_text};

    ghost output = { λ e. Some (error_text e) };

    fn fmt<W: fmt::Write>(&self, f: &mut fmt::Formatter<W>) -> fmt::Result {
        match self {
            SdpError::ParseError(text) => write!(f, "SDP parse: {text}"),
            SdpError::Inconsistent(text) => write!(f, "SDP inconsistent: {text}"),
            SdpError::Memory => f.write_str("SDP: out of memory"),
        }
    }
}

impl Error for SdpError {}

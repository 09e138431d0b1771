//! Why calls are refused.

use rtp_wire::{Mid, Pt};
use sdp_formats_data::SdpError;
use sdp_formats_rounds::RoundError;
use std::alloc::{AllocError, AllocFailed};
use thiserror::Error;

/// Why an end can't be made; of several reasons the first listed is answered.
#[derive(Clone, Copy, Debug, PartialEq, Eq, Drop, Error)]
pub enum EndError {
    /// The row of this index is of a kind that an end can't agree on.
    #[error("row {0} is not plain")]
    RowNotPlain(usize),
    /// A payload type is used for two things: it occurred before as a payload type, an RTX type or
    /// a RED type.
    #[error("payload type {0} stands for two things")]
    TypesNotDistinct(Pt),
    /// The URI of a header extension is empty or contains a blank or a line end; or the session
    /// can't be written: its bandwidth line doesn't read back as that bandwidth, or an attribute is
    /// a group, or its line reads back neither as that attribute nor as one of an unknown kind.
    #[error("the session can't be written")]
    NotWritable,
    /// Out of memory.
    #[error("out of memory")]
    Memory,
}

impl From<AllocError> for EndError {
    ghost use Rattle.std.specs.Prelude.{◌≡◌};
    ghost use Rattle.rtp_media_exchange.specs.declared.errors.EndError.TheVariants.{Memory};

    ghost from_gives = { λ _ e. e ≡ Memory };

    fn from(_error: AllocError) -> EndError {
        EndError::Memory
    }
}

/// Why an offer, an answer or its acceptance is refused; of several reasons the first listed is answered.
#[derive(Debug, Drop, Error)]
pub enum ExchangeError {
    /// The text isn't the text of an offer or an answer.
    #[error("{0}")]
    Unreadable(SdpError),
    /// An offer is pending, or none is.
    #[error("this call is out of turn")]
    OutOfTurn,
    /// This section of the text isn't media: not audio or video over `UDP/TLS/RTP/SAVPF`, or
    /// rejected by port 0.
    #[error("section {0} is no media")]
    NotMedia(Mid),
    /// There is no section, a mid occurs twice, the sections of the text and the list don't have
    /// the same mids and kinds in the same order, or they don't start with the agreed ones.
    #[error("the sections do not correspond")]
    NotCorresponding,
    /// Negotiating the rows with the other end's failed.
    #[error("{0}")]
    Round(RoundError),
    /// This section would list no row.
    #[error("section {0} would list no row")]
    NoCommonRow(Mid),
    /// The name of a wanted section is empty.
    #[error("the text can't be written")]
    NotWritable,
    /// Out of memory.
    #[error("out of memory")]
    Memory,
}

impl From<AllocError> for ExchangeError {
    ghost use Rattle.std.specs.Prelude.{◌≡◌};
    ghost use Rattle.rtp_media_exchange.specs.declared.errors.ExchangeError.TheVariants.{Memory};

    ghost from_gives = { λ _ e. e ≡ Memory };

    fn from(_error: AllocError) -> ExchangeError {
        ExchangeError::Memory
    }
}

impl<T: Drop> From<AllocFailed<T>> for ExchangeError {
    ghost use Rattle.std.specs.Prelude.{◌≡◌};
    ghost use Rattle.rtp_media_exchange.specs.declared.errors.ExchangeError.TheVariants.{Memory};

    ghost from_gives = { λ _ e. e ≡ Memory };

    fn from(_error: AllocFailed<T>) -> ExchangeError {
        ExchangeError::Memory
    }
}

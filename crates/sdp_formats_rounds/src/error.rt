//! Refusals of a round.

use rtp_wire::Pt;
use std::alloc::AllocError;
use thiserror::Error;

/// Why a round is refused.
#[derive(Clone, Copy, Debug, PartialEq, Eq, Drop, Error)]
pub enum RoundError {
    /// A payload type is above 127, or already claimed. For a RED type: it is above 127, or it is
    /// already claimed and its row was locked before the round; other rows drop a claimed RED type,
    /// or take a free one.
    #[error("payload type {0} is taken")]
    TypeTaken(Pt),
    /// An RTX type is above 127, or already claimed.
    #[error("retransmission type {0} is taken")]
    ResendTaken(Pt),
    /// No payload type is free.
    #[error("no payload type is free")]
    NoFreeType,
    /// Memory runs out.
    #[error("out of memory")]
    Memory,
}

impl From<AllocError> for RoundError {
    ghost use Rattle.std.specs.Prelude.{◌≡◌};
    ghost use Rattle.sdp_formats_rounds.specs.declared.error.RoundError.TheVariants.{Memory};

    ghost from_gives = { λ _ e. e ≡ Memory };

    fn from(_error: AllocError) -> Self {
        RoundError::Memory
    }
}

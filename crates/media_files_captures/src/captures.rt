//! Captured packets.

use crate::frames::LinkType;
use std::alloc::{AllocError, AllocFailed};
use thiserror::Error;

/// How many ticks of a packet's time make a second.
#[derive(Debug, Clone, Copy, PartialEq, Eq)]
pub enum Resolution {
    /// Ten to this power.
    Decimal(u8),
    /// Two to this power.
    Binary(u8),
}

/// A packet that a capture holds.
#[derive(Debug, Clone, Copy)]
pub struct CapturedPacket<'a> {
    /// When it came, in ticks of the resolution; in most captures since 1970.
    pub ticks: u64,
    /// What a tick is.
    pub resolution: Resolution,
    /// How its bytes begin.
    pub link: LinkType,
    /// How many bytes it had.
    pub original_len: u32,
    /// What the capture kept of it, from its front.
    pub bytes: &'a [u8],
}

/// The packets that a capture holds, in their order.
#[derive(Debug, Drop)]
pub struct Capture<'a> {
    /// Each packet once.
    pub packets: Vec<CapturedPacket<'a>>,
    /// What follows the last packet, and is none: of a file that was cut off, a part of one.
    pub unread: &'a [u8],
}

/// Why a capture can't be read.
#[derive(Clone, Copy, Debug, PartialEq, Eq, Drop, Error)]
pub enum CaptureError {
    /// The bytes don't begin as the format says.
    #[error("the file doesn't begin as a capture of this format")]
    UnknownFormat,
    /// There is no memory for the packets.
    #[error("out of memory")]
    Memory,
}

impl From<AllocError> for CaptureError {
    ghost use Rattle.std.specs.Prelude.{◌≡◌};
    ghost use Rattle.media_files_captures.specs.declared.captures.CaptureError.TheVariants.{Memory};

    ghost from_gives = { λ _ e. e ≡ Memory };

    fn from(_error: AllocError) -> Self {
        CaptureError::Memory
    }
}

impl<T: Drop> From<AllocFailed<T>> for CaptureError {
    ghost use Rattle.std.specs.Prelude.{◌≡◌};
    ghost use Rattle.media_files_captures.specs.declared.captures.CaptureError.TheVariants.{Memory};

    ghost from_gives = { λ _ e. e ≡ Memory };

    fn from(_error: AllocFailed<T>) -> Self {
        CaptureError::Memory
    }
}

//! Why datagrams aren't taken in.

use std::alloc::{AllocError, AllocFailed};
use thiserror::Error;

/// Why a datagram is not taken in.
#[derive(Clone, Copy, Debug, PartialEq, Eq, Drop, Error)]
pub enum ReceiveError {
    /// Out of memory.
    #[error("out of memory")]
    Memory,
}

impl<T: Drop> From<AllocFailed<T>> for ReceiveError {
    fn from(_error: AllocFailed<T>) -> ReceiveError {
        ReceiveError::Memory
    }
}

impl From<AllocError> for ReceiveError {
    fn from(_error: AllocError) -> ReceiveError {
        ReceiveError::Memory
    }
}

//! Access units of made-up bytes.

use std::alloc::{AllocError, Global};

/// The bytes of a slice after its start.
const SLICE: [u8; 3_000] = [7; 3_000];

/// An access unit of parameter sets and four slices with this start, some 12,000 bytes.
pub(crate) fn access_unit(alloc: Global, sets: &[u8], start: &[u8]) -> Result<Vec<u8>, AllocError> {
    [
        sets, start, &SLICE, start, &SLICE, start, &SLICE, start, &SLICE,
    ]
    .concat(alloc)
}

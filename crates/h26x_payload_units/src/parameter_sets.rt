//! Parameter sets held back for the next sample.

ghost use Rattle.std.specs.Prelude.{◌≡◌, IfOk, option_map};

use std::alloc::{AllocError, Global};

/// A waiting set as a slice.
pub fn set_of(set: &Option<Vec<u8>>) -> Option<&[u8]>
    ensures { option_map (λ s. s.now) result ≡ option_map (λ v. v.items) set.now }
{
    match set {
        Some(set) => Some(set.as_slice()),
        None => None,
    }
}

/// A copy of a waiting set.
///
/// # Errors
///
/// `AllocError` if memory runs out.
pub fn copy_of_set(alloc: Global, set: Option<&[u8]>) -> Result<Option<Vec<u8>>, AllocError>
    ensures { IfOk result (λ copy. option_map (λ v. v.items) copy ≡ option_map (λ s. s.now) set.entry) }
{
    match set {
        Some(set) => Ok(Some(Vec::from_slice(alloc, set)?)),
        None => Ok(None),
    }
}

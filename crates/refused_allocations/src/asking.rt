//! How often a call is asked.

/// A call that fails for lack of memory is repeated; since only one allocation fails in all, twice
/// is enough.
pub(crate) const TIMES: usize = 3;

/// Prints that a call was refused.
pub(crate) fn print_refused(rt: &HostRuntime) {
    let _ = println!(*rt; "memory");
}

//! Candidates each once.

ghost use Rattle.sdp_formats_laws.specs.Candidates.{AddedAreEachOnce, OneListIsEachOnce};

/// The candidates of a text are listed each once, in the order of their first occurrence (RFC 8839
/// 5.1). There is exactly one such list.
pub fn candidates_once_law()
    ensures exactly { AddedAreEachOnce }
    ensures one { OneListIsEachOnce }
{}

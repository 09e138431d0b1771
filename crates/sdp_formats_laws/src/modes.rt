//! Sets of modes.

ghost use Rattle.sdp_formats_laws.specs.Modes.{ModesAreListed, OthersAreNone};

/// The set of modes of a text is given if and only if each part between commas, blanks round it dropped, is a number 0
/// to 8, and then exactly the bits of these numbers are set (RFC 4867 8.2).
pub fn modes_law()
    ensures listed { ModesAreListed }
    ensures otherwise { OthersAreNone }
{}

//! What holds of keys and values.

ghost use Rattle.sdp_formats_reader.specs.PairsSay.{PairsAreExact};
ghost use Rattle.sdp_formats_reader.specs.PrintedPairs.{PairsComeBack, RestrictionsComeBack};

/// A list of keys and values is read if and only if it says one, and says at most one.
pub fn pairs_law()
    ensures { PairsAreExact }
{}

/// Printed keys and values are read as those keys and values, as parameters of a format and as restrictions.
pub fn printed_pairs_law()
    ensures pairs { PairsComeBack }
    ensures restrictions { RestrictionsComeBack }
{}

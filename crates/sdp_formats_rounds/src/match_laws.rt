//! What holds of the best match.

ghost use Rattle.sdp_formats_rounds.specs.Best.{BestIsBest, NoneMatches};

/// The best row is the last of the greatest score; there is none if and only if no row matches.
pub fn best_is_best()
    ensures best { BestIsBest }
    ensures none { NoneMatches }
{}

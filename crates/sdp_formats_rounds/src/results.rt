//! What a round makes of rows.

ghost use Rattle.sdp_formats_rounds.specs.Rounded.{AnswersAreRounds, RoundsAnswer};

/// A successful round has exactly this result: a row locked before changes only in its negotiated
/// settings; an unlocked row that is matched is locked, each of its types depending on whether the
/// other end's is claimed and whether it is dictated; the other rows keep everything except types
/// that a locked row has.
pub fn round_results_law()
    ensures answered { RoundsAnswer }
    ensures answer { AnswersAreRounds }
{}

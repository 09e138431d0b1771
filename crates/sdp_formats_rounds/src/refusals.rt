//! When a round is refused.

ghost use Rattle.sdp_formats_rounds.specs.Rounded.{RefusalsAreRounds, RoundsRefuse};
ghost use Rattle.sdp_formats_rounds.specs.Standing.{LockedTypesApart, LockedTypesRefuse};

/// A round is refused for the first type of a previously locked row that is above 127 or occurs
/// before, in row order and within a row in the order payload type, RTX type, RED type. A
/// successful round has no such type.
pub fn locked_types_law()
    ensures refuse { LockedTypesRefuse }
    ensures apart { LockedTypesApart }
{}

/// A round is refused exactly as follows: for the first taken type of the rows locked before it;
/// otherwise for the first row refused while matching, at its payload type, RTX type or RED type;
/// otherwise for the first row left unlocked that is refused, at its payload type, RED type or RTX
/// type. A type is refused if it is above 127; a dictated payload or RTX type also if it is
/// claimed. If a free type is needed and there is none, the error is `NoFreeType`, except that a
/// RED type is then dropped.
pub fn round_refusals_law()
    ensures refused { RoundsRefuse }
    ensures refuse { RefusalsAreRounds }
{}

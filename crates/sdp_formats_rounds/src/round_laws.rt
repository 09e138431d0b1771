//! What holds of rounds.

ghost use Rattle.sdp_formats_rounds.specs.Laws.{LockedTypesDistinct, RowsBecome, LockedRowsKeepTypes};
ghost use Rattle.sdp_formats_rounds.specs.Laws.{UnlockedRowsApart};
ghost use Rattle.sdp_formats_rounds.specs.Laws.{SuggestedTypesTaken};

/// After an answered round the types of the locked rows are distinct: types, RTX types, RED types.
pub fn locked_types_distinct()
    ensures { LockedTypesDistinct }
{}

/// What an answered round makes of each row.
pub fn rows_become()
    ensures { RowsBecome }
{}

/// In whatever rounds follow, a locked row stays locked under its types.
pub fn locked_rows_keep_types()
    ensures { LockedRowsKeepTypes }
{}

/// After an answered round the rows that are left unlocked have no type of a locked row.
pub fn unlocked_rows_apart()
    ensures { UnlockedRowsApart }
{}

/// If the other end doesn't dictate types, a type that it suggests is taken over, unless a locked row has it.
pub fn suggested_types_taken()
    ensures { SuggestedTypesTaken }
{}

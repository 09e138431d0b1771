//! What holds of the types of rows.

ghost use Rattle.sdp_formats_rounds.specs.Chosen.{ChosenAreApart, ChosenAreAsAll};
ghost use Rattle.sdp_formats_rounds.specs.TypeLaws.{AllAreApart, RoundsKeepTypesApart, TypesStaySmall};
ghost use Rattle.sdp_formats_rounds.specs.TypeLaws.{UnlockedAreApart, UnlockedTypesStayApart};

/// A round keeps payload types below 128.
pub fn types_stay_small()
    ensures { TypesStaySmall }
{}

/// A round keeps the types of the rows that it leaves unlocked apart from one another; and rounds keep the types of all
/// rows apart, be these locked or not.
pub fn types_stay_apart()
    ensures unlocked { UnlockedTypesStayApart }
    ensures rounds { RoundsKeepTypesApart }
{}

/// The types of all rows are apart if those of locked and of unlocked rows are, among themselves and from one
/// another; and those of unlocked rows are apart if those of all rows are.
pub fn all_are_apart()
    ensures all { AllAreApart }
    ensures unlocked { UnlockedAreApart }
{}

/// Rows that are chosen, each once by its type, have types apart if all rows have, and are as all rows are.
pub fn chosen_are_apart()
    ensures apart { ChosenAreApart }
    ensures all { ChosenAreAsAll }
{}

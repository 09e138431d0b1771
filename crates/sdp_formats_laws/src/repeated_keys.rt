//! Format parameters of several keys, if each key counts once.

ghost use Rattle.sdp_formats_laws.specs.RepeatedKeys.{EntriesHaveLast, LevelNamesAreThree, OthersAreInOrder};
ghost use Rattle.sdp_formats_laws.specs.RepeatedKeys.{PairsAreSettled, ValuesAreLast};

/// The value of a name among pairs is that of the last pair of the name, in any ASCII case; there is none exactly where
/// there is no such pair (RFC 4855 3).
pub fn last_value_law()
    ensures { ValuesAreLast }
{}

/// The entries of some pairs are exactly these: they have the pairs' keys in lower case, each once and in the order in
/// which they are first there, and each has the value of the last pair of its key (RFC 4855 3).
pub fn settled_pairs_law()
    ensures { PairsAreSettled }
{}

/// The entry of a name has the value that the name has among the pairs.
pub fn entry_values_law()
    ensures { EntriesHaveLast }
{
    last_value_law();
    settled_pairs_law();
}

/// The parameters after a profile, tier and level are those of the other entries, in their order: of all but
/// `profile-id`, `tier-flag` and `level-id` (RFC 7798 7.1, RFC 9328 7.2).
pub fn other_parameters_law()
    ensures others { OthersAreInOrder }
    ensures names { LevelNamesAreThree }
{}

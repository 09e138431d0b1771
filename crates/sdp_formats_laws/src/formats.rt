//! The format parameters of a line.

ghost use Rattle.sdp_formats_laws.specs.FormatParts.{LastNumbersAreLast, LastTextsAreLast, PiecesAreJoined};
ghost use Rattle.sdp_formats_laws.specs.FormatParts.{RangesStandAlone, ValuesAreOfKeys};
ghost use Rattle.sdp_formats_laws.specs.Formats.{FormatsAreOfLines};

/// What the parts of a line give, which are between semicolons (RFC 8866 6.15): a value of a key if the part is
/// the key's name, in any ASCII case (RFC 4855 3), up to its first equals sign, and then the value, up to the next one
/// or to its end, blanks round both dropped; a range of telephone events if the part has no equals sign and is one
/// (RFC 4733 2.4.1). The last that is given is what a part gives after which no part gives any.
pub fn format_parts_law()
    ensures pieces { PiecesAreJoined }
    ensures values { ValuesAreOfKeys }
    ensures ranges { RangesStandAlone }
    ensures last_texts { LastTextsAreLast }
    ensures last_numbers { LastNumbersAreLast }
{}

/// The format parameters of a line are exactly these (RFC 8866 6.15). A flag is on if the last
/// value of its key is 1, off for any other value, and not given if no part gives its key a value
/// (RFC 7587 6.1). A number is the last value of its key that parses; but if a part gives a tier or
/// level of H.265 or H.266, it is the last value, and not given if that doesn't parse. The range of
/// telephone events is the last one given (RFC 4733 2.4.1). If a part gives a tier or level, the
/// last values of `profile-id`, `tier-flag` and `level-id` make the profile, tier and level of
/// H.265, or else of H.266, if they mean one (RFC 7798 7.1, RFC 9328 7.2), and `profile-id` is not
/// a number of its own; otherwise no profile, tier and level is given.
pub fn format_values_law()
    ensures { FormatsAreOfLines }
{}

//! How printed parameters are read back.

ghost use Rattle.std.specs.Prelude.{◌≡◌};
ghost use Rattle.media_types.specs.H265ProfileTierLevel.{fallback as h265_fallback};
ghost use Rattle.media_types.specs.H266ProfileTierLevel.{fallback as h266_fallback};
ghost use Rattle.sdp_formats_laws.specs.PrintedParameters.{FormatsComeBack, LinksComeBack, PlainParametersAreReadable};
ghost use Rattle.sdp_formats_laws.specs.PrintedParameters.{PlainFormatsAreInRange, PlainParametersComeBack};
ghost use Rattle.sdp_formats_laws.specs.PrintedParameters.{ReadableListsComeBack, RowsAreAsPlainAsTheirOthers};

use media_types::{H265ProfileTierLevel, H266ProfileTierLevel, h265_tables_law, h266_tables_law};
use sdp_formats_reader::{pairs_law, printed_pairs_law};

/// Readable lists of parameters are read as they are printed (RFC 8866 6.15), a profile, tier and level in front of the
/// others: lists of parameters of a key and a value, in any order; lists with one profile, tier and level, and others
/// of distinct keys; and one parameter alone that has no key.
pub fn parameter_lists_law()
    ensures { ReadableListsComeBack }
{
    pairs_law();
    printed_pairs_law();
    h265_tables_law();
    h266_tables_law();
}

/// The parameters of a plain row, as its section lists them, are such a list, so that they are read as they are
/// printed; and they are never one alone that isn't known, which prints nothing.
pub fn plain_parameters_law()
    ensures readable { PlainParametersAreReadable }
    ensures come_back { PlainParametersComeBack }
{
    parameter_lists_law();
}

/// The parameter of a type of retransmissions (RFC 4588 8.6) and that of a type of redundant audio (RFC 2198 5) are
/// read as they are printed.
pub fn links_law()
    ensures { LinksComeBack }
{
    parameter_lists_law();
}

/// A format whose numbers are of their widths, with one profile, tier and level at most, is read of the text that it is
/// printed as (RFC 8866 6.15), and no other format is: so a row with such a format is plain if and only if its types,
/// its codec, its feedback and the rest are.
pub fn formats_law()
    ensures come_back { FormatsComeBack }
    ensures in_range { PlainFormatsAreInRange }
    ensures rows { RowsAreAsPlainAsTheirOthers }
{
    h265_tables_law();
    h266_tables_law();
}

/// The constants `FALLBACK`, which are where a session text says nothing: the numbers 1, 0 and 93 of H.265 (RFC 7798
/// 7.1), and 1, 0 and 51 of H.266 (RFC 9328 7.2).
pub fn fallbacks_law() -> (H265ProfileTierLevel, H266ProfileTierLevel)
    ensures h265 { result.0 ≡ h265_fallback }
    ensures h266 { result.1 ≡ h266_fallback }
{
    (
        H265ProfileTierLevel::FALLBACK,
        H266ProfileTierLevel::FALLBACK,
    )
}

//! What rounds preserve of plain rows.

ghost use Rattle.sdp_formats_rounds.specs.PlainLaws.{RoundsKeepWidths};

/// Rounds with rows whose numbers are of their widths keep rows plain, but for what their formats are printed as, and
/// keep the numbers of their formats within their widths, with one profile, tier and level at most.
pub fn rounds_keep_widths()
    ensures { RoundsKeepWidths }
{}

//! Listed rows come back.

ghost use Rattle.sdp_formats_laws.specs.RowsBack.{PlainRowsComeBack};

/// The rows that are read of a section that lists plain rows are those rows, in their order and not locked.
///
/// The section's list has the rows' types, which are distinct: row by row the type, its RTX type and its RED type. Its
/// attributes are those of the rows, row by row, and before and after them others that name no payload type (RFC 8866
/// 6.6 and 6.15, RFC 4585 4.2, RFC 4588 8.6, RFC 2198 5).
pub fn plain_rows_come_back()
    ensures { PlainRowsComeBack }
{}

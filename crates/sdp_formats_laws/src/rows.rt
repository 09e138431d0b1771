//! Rows that are printed in a text and read of it.

ghost use Rattle.sdp_formats_laws.specs.Rows.{ListedRowsHaveNoFault, ReadRowsAreRows, ReadSectionsSayTheSame};
ghost use Rattle.sdp_formats_laws.specs.Rows.{RowTextsComeBack};
ghost use Rattle.sdp_formats_laws.specs.Rows.{RowsArePrintable, WritableRowTextsComeBack};
ghost use Rattle.sdp_formats_laws.specs.StaticTypes.{StaticTypesAgree};
ghost use Rattle.sdp_formats_laws.specs.WrittenSession.{GroupedRowTextsComeBack, PrintableIsWritable};
ghost use Rattle.sdp_formats_laws.specs.WrittenSession.{UsualAttributesAreWritten};
ghost use Rattle.sdp_formats_laws.specs.WrittenSession.{WrittenRowTextsComeBack};

use crate::printed_parameters::{parameter_lists_law, plain_parameters_law};
use crate::rows_back::plain_rows_come_back;
use crate::texts::printed_texts_law;
use sdp_formats_grammar::Lined;
use sdp_formats_reader::{MediaAttributeLine, SessionAttributeLine, printed_pairs_law};

/// A section that lists plain rows, as `as_media_attrs` gives their attributes, can be printed: each of its lines is
/// read as what it was printed of.
pub fn row_lines_law()
    ensures { RowsArePrintable }
{
    plain_parameters_law();
}

/// A section that lists plain rows of distinct types and has one name, at most one setup and, of RTP, one direction,
/// has no fault: each of its types is mapped once, and each retransmits one other at most (RFC 4588 8.6).
pub fn rows_without_fault_law()
    ensures { ListedRowsHaveNoFault }
{}

/// The rows that a printed section is read to name are those that the section names, by any parameters.
pub fn read_rows_law()
    ensures { ReadRowsAreRows }
{}

/// What a printed section is read to say by lines other than `a=fmtp` is what the section says by them.
pub fn read_sections_law()
    ensures { ReadSectionsSayTheSame }
{}

/// Plain rows of distinct types, printed in sections of a printable session, are read whole, and `rtp_params` answers
/// them equal and in order (RFC 8866 6.6 and 6.15, RFC 4585 4.2, RFC 4588 8.6, RFC 2198 5).
pub fn row_texts_law()
    ensures { RowTextsComeBack }
{
    printed_texts_law();
    plain_rows_come_back();
    row_lines_law();
    rows_without_fault_law();
    read_rows_law();
}

/// The same of a session whose attributes can be written, as `is_writable_session` tells, or are printable, as a group
/// of sections is: each printable one is read as itself, and each other one as itself or as one of no known kind. The
/// group and `a=extmap-allow-mixed` of WebRTC's sessions are such, and a session that can be written with a group
/// before its attributes, as `WholeText` prints it.
pub fn written_row_texts_law()
    ensures come_back { WrittenRowTextsComeBack }
    ensures grouped { GroupedRowTextsComeBack }
    ensures printable { PrintableIsWritable }
    ensures usual { UsualAttributesAreWritten }
{
    SessionAttributeLine::exact_law();
    MediaAttributeLine::exact_law();
    printed_pairs_law();
    parameter_lists_law();
    plain_rows_come_back();
    row_lines_law();
    rows_without_fault_law();
    read_rows_law();
}

/// The same of a session that can be written, as `is_writable_session` tells: each of its attributes is read as itself,
/// or as one of no known kind.
pub fn writable_row_texts_law()
    ensures { WritableRowTextsComeBack }
{
    written_row_texts_law();
}

/// The payload types that a section may list without a line `a=rtpmap` are those that have a codec of their own
/// (RFC 3551 6).
pub fn static_types_law()
    ensures { StaticTypesAgree }
{}

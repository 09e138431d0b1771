//! Sections that are printed in a text and read of it.

ghost use Rattle.rtp_media_sections.specs.PrintedSections.{NamesPrintTheSame, PrintedSectionsComeBack};
ghost use Rattle.rtp_media_sections.specs.PrintedSections.{TextsSaySections};

use sdp_formats_laws::{
    one_reading_law, plain_rows_come_back, read_rows_law, read_sections_law, written_row_texts_law,
};

/// A printed section is read back as that section: its mid, kind and direction, its rows, its
/// header extensions by URI, and its sources, each once. So the text of a writable session with
/// printable sections in one BUNDLE group says exactly these sections (RFC 8866 5, RFC 8829 5.2.1
/// and 5.3.1).
pub fn printed_sections_law()
    ensures names { NamesPrintTheSame }
    ensures sections { PrintedSectionsComeBack }
    ensures texts { TextsSaySections }
{
    plain_rows_come_back();
    read_rows_law();
    read_sections_law();
    written_row_texts_law();
    one_reading_law();
}

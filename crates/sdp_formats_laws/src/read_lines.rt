//! What is read of a text.

ghost use Rattle.sdp_formats_laws.specs.OneReading.{SessionsHaveOneReading, TextsHaveOneReading};
ghost use Rattle.sdp_formats_laws.specs.PlainRounds.{RoundsKeepPlainRows};
ghost use Rattle.sdp_formats_laws.specs.ReadLines.{ReadLinesAreSound, SoundLinesGiveSoundRows};

use crate::printed_parameters::formats_law;
use sdp_formats_grammar::Lined;
use sdp_formats_reader::{MediaAttributeLine, SessionAttributeLine};
use sdp_formats_rounds::rounds_keep_widths;

/// A text says one session with its sections at most, and leaves one rest; and so does a text of a session alone.
pub fn one_reading_law()
    ensures text { TextsHaveOneReading }
    ensures session { SessionsHaveOneReading }
{
    SessionAttributeLine::exact_law();
    MediaAttributeLine::exact_law();
}

/// The lines of a section that is read of a text have modes of AMR-WB (RFC 4867 8.2), numbers of decoding order
/// (RFC 7798 7.1) and `profile-id` of their widths, and header extensions that are those of their own URIs
/// (RFC 8285 5).
pub fn read_lines_law()
    ensures { ReadLinesAreSound }
{}

/// The rows of lines with such values have such values.
pub fn sound_rows_law()
    ensures { SoundLinesGiveSoundRows }
{}

/// Rounds with the rows of a text keep plain rows plain, so that each can be listed in a text again.
pub fn rounds_keep_plain_rows()
    ensures { RoundsKeepPlainRows }
{
    rounds_keep_widths();
    formats_law();
}

//! SDP that is read back as it was printed.

ghost use Rattle.std.specs.Prelude.{[], IsTrue};
ghost use Rattle.std.specs.List.{list_all};
ghost use Rattle.sdp_formats_laws.specs.Behind.{OthersFitNowhere, SessionStaysWithWhatFitsNowhere};
ghost use Rattle.sdp_formats_laws.specs.Behind.{StaysWithWhatFitsNowhere};
ghost use Rattle.sdp_formats_laws.specs.LineEnds.{LinesEndEitherWay, ReadsByAnyEnd, ReadsBySameLines};
ghost use Rattle.sdp_formats_laws.specs.LineEnds.{ReadsSessionBySameLines};
ghost use Rattle.sdp_formats_rounds.specs.Members.{IsEach};
ghost use Rattle.sdp_formats_laws.specs.PrintableTexts.{IsPrintableSession, IsPrintableText, HasLinesThatComeBack};
ghost use Rattle.sdp_formats_laws.specs.ReadTexts.{text_as_read};
ghost use Rattle.sdp_formats_data.specs.Consistency.{is_consistent};
ghost use Rattle.sdp_formats_reader.specs.Grammar.{SdpSays, SessionSays};
ghost use Rattle.sdp_formats_data.specs.PrintedSession.{sdp_text, session_text};
ghost use Rattle.sdp_formats_data.specs.declared.session.Sdp.{Sdp};
ghost use Rattle.sdp_formats_data.specs.declared.session.Session.{Session};

use crate::printed_parameters::parameter_lists_law;
use sdp_formats_grammar::Lined;
use sdp_formats_reader::{MediaAttributeLine, SessionAttributeLine, printed_pairs_law};

/// The printed text of a session is read whole as that session, if its texts can be where they are printed and no
/// section has a fault; of lines `a=fmtp` as `printed_lines_law` says. So is a session without sections, and any text
/// whose sections have lines each of which is read as it is printed.
pub fn printed_texts_law()
    ensures text { (sdp : Sdp) → IsPrintableText sdp → SdpSays (sdp_text sdp) (text_as_read sdp) [] }
    ensures lines { (sdp : Sdp) → IsPrintableSession sdp.session → IsEach HasLinesThatComeBack sdp.media_lines
        → IsTrue (list_all is_consistent sdp.media_lines) → SdpSays (sdp_text sdp) (text_as_read sdp) [] }
    ensures session { (s : Session) → IsPrintableSession s → SessionSays (session_text s) s [] }
{
    SessionAttributeLine::exact_law();
    MediaAttributeLine::exact_law();
    printed_pairs_law();
    parameter_lists_law();
}

/// A text whose lines end in LF is read like the same text with CR LF, and vice versa (RFC 8866 5).
/// So are any two texts with the same lines, each ended by LF or CR LF independently; and sessions
/// without sections.
pub fn line_ends_law()
    ensures returns { ReadsByAnyEnd }
    ensures lines { ReadsBySameLines }
    ensures session { ReadsSessionBySameLines }
    ensures either { LinesEndEitherWay }
{}

/// Take a text whose last line is terminated, and append another text. What is read of it stays the
/// same (apart from the rest) if and only if something of it was left unread anyway, or the
/// appended text can't follow it (RFC 8866 5). After sections, a text can't follow if it begins
/// with no media attribute and no section, such as `b=AS:5`; after a session alone, if it begins
/// with no session attribute, no section and, if there is no attribute yet, no `r=` line. A session
/// read on its own also leaves sections unread. A text that begins with none of `a`, `m` and `r`
/// can't follow any session.
pub fn fits_nowhere_law()
    ensures same { StaysWithWhatFitsNowhere }
    ensures session { SessionStaysWithWhatFitsNowhere }
    ensures letters { OthersFitNowhere }
{
    MediaAttributeLine::exact_law();
}

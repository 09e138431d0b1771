//! Lines of a section that are read as what they were printed of.

ghost use Rattle.std.specs.Prelude.{List, ℕ, ◌++◌, ◌∷◌, ◌≤◌, codes};
ghost use Rattle.sdp_formats_laws.specs.CandidateWords.{CandidatesAreTheirWords};
ghost use Rattle.sdp_formats_laws.specs.Names.{NamesAreLettersAndNumbers, NamesAreRead};
ghost use Rattle.sdp_formats_laws.specs.OtherLines.{OtherLinesStayInSections, OtherLinesStayInSessions};
ghost use Rattle.sdp_formats_laws.specs.PrintedParameters.{IsReadBack};
ghost use Rattle.sdp_formats_laws.specs.Printable.{IsPrintable};
ghost use Rattle.sdp_formats_laws.specs.PrintableSession.{IsPrintable as IsPrintableInSession};
ghost use Rattle.sdp_formats_laws.specs.RestrictionTexts.{LimitsAreExact, RestrictionsAreExact};
ghost use Rattle.sdp_formats_reader.specs.AttributesChoice.{attribute_line};
ghost use Rattle.sdp_formats_reader.specs.AsRead.{as_read};
ghost use Rattle.sdp_formats_grammar.specs.Line.{LineOf};
ghost use Rattle.sdp_formats_reader.specs.ReaderChoice.{attribute_line as session_line};
ghost use Rattle.sdp_formats_data.specs.PrintedMedia.{attribute_text};
ghost use Rattle.sdp_formats_data.specs.PrintedSession.{attribute_text as session_attribute_text};
ghost use Rattle.sdp_formats_data.specs.declared.session.SessionAttribute.{SessionAttribute};
ghost use Rattle.sdp_formats_data.specs.declared.session.SessionAttribute.TheVariants.{AllowMixedExts};
ghost use Rattle.sdp_formats_data.specs.declared.session.SessionAttribute.TheVariants.{Unused as NoKnownKind};
ghost use Rattle.sdp_formats_values.specs.declared.param.FormatParam.{FormatParam};
ghost use Rattle.sdp_formats_data.specs.declared.media.MediaAttribute.{MediaAttribute};
ghost use Rattle.sdp_formats_data.specs.declared.media.MediaAttribute.TheVariants.{Fmtp};

use crate::printed_parameters::parameter_lists_law;
use sdp_formats_grammar::Lined;
use sdp_formats_reader::{MediaAttributeLine, SessionAttributeLine, printed_pairs_law};

/// The printed line of a printable attribute is read as that attribute, whatever follows it.
///
/// Of a line `a=fmtp` a profile, tier and level is read in front of the other parameters, a range of telephone
/// events as a range, and a type of redundant audio as a list of types: `as_read`. It comes back wherever its list of
/// parameters does by itself, as readable ones do.
pub fn printed_lines_law()
    ensures printable { (a : MediaAttribute) (rest : List ℕ) → IsPrintable a
        → LineOf attribute_line.Says (attribute_text a ++ rest) (as_read a) rest }
    ensures parameters { (pt : ℕ) (p : FormatParam) (ps : List FormatParam) (rest : List ℕ) → pt ≤ 127
        → IsReadBack (p ∷ ps)
        → LineOf attribute_line.Says (attribute_text (Fmtp pt (p ∷ ps)) ++ rest) (as_read (Fmtp pt (p ∷ ps))) rest }
{
    MediaAttributeLine::exact_law();
    printed_pairs_law();
    parameter_lists_law();
}

/// The printed line of a printable attribute of a session is read as that attribute, whatever follows it, and
/// `a=extmap-allow-mixed` as a line of no known kind.
pub fn printed_session_lines_law()
    ensures printable { (a : SessionAttribute) (rest : List ℕ) → IsPrintableInSession a
        → LineOf session_line.Says (session_attribute_text a ++ rest) a rest }
    ensures mixed { (rest : List ℕ) → LineOf session_line.Says (session_attribute_text AllowMixedExts ++ rest)
        (NoKnownKind (codes "extmap-allow-mixed")) rest }
{
    SessionAttributeLine::exact_law();
}

/// A text is read as a candidate if and only if it is words for it, in their order, with a blank between each two
/// (RFC 8839 5.1): foundation, component, protocol, priority, address, port, `typ` and kind; then, if they are
/// given, `raddr` and `rport`, `tcptype`, `generation`, `network-id`, `ufrag` and `network-cost`, each with its word.
pub fn candidate_words_law()
    ensures { CandidatesAreTheirWords }
{}

/// A text is read as the restrictions of `a=rid` if and only if it says them (RFC 8851 4): KEY=VALUE, blanks before a
/// key alone, with `;` between each two and none at the end. What follows the direction is such restrictions,
/// or a payload type and maybe restrictions after a blank.
pub fn restrictions_law()
    ensures restrictions { RestrictionsAreExact }
    ensures limits { LimitsAreExact }
{}

/// A text is read as the name of a stream exactly where it is letters and numbers of any script, which is where it is a
/// printable name: no sign that parts names or lines is among them (RFC 8851 4).
pub fn names_law()
    ensures printable { NamesAreRead }
    ensures letters { NamesAreLettersAndNumbers }
{}

/// A text that begins with no known name, and is no known word, is read as an attribute of no known kind: so it is one
/// that is printable if it can be on a line.
pub fn other_lines_law()
    ensures section { OtherLinesStayInSections }
    ensures session { OtherLinesStayInSessions }
{}

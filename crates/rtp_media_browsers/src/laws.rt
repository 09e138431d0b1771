//! Laws of texts between a browser and an end.

ghost use Rattle.std.specs.Prelude.{List};
ghost use Rattle.sdp_formats_data.specs.declared.media.MediaLine.{MediaLine};
ghost use Rattle.rtp_media_browsers.specs.AnswerLaws.{AnswersEachSection, TextsAreWhole};
ghost use Rattle.rtp_media_browsers.specs.InCommon.{AnswersInCommon, OnlyRejects};
ghost use Rattle.rtp_media_browsers.specs.Laws.{AreWanted, ComesBack, EachInItsPlace, GoesOn, IsHalted, LinesStay};
ghost use Rattle.rtp_media_browsers.specs.Laws.{NothingChanges, SectionsComeBack, TakenAreRejected};
ghost use Rattle.rtp_media_browsers.specs.KnownLaws.{ReadsKnown};
ghost use Rattle.rtp_media_browsers.specs.ListingLaws.{AnswersListOffered};
ghost use Rattle.rtp_media_browsers.specs.StandardLaws.{EndsWriteEndTexts, RolesFit, TellsByLevels};
ghost use Rattle.rtp_media_browsers.specs.declared.state.BrowserState.{BrowserState};
ghost use Rattle.rtp_media_browsers.specs.declared.transport.Transport.{Transport};
ghost use Rattle.rtp_media_browsers.specs.declared.request.SectionRequest.{SectionRequest};

use sdp_formats_reader::{pairs_law, printed_pairs_law};

/// If each section is accepted, the first text made for a browser from an end's text reads, for an end, as that text
/// again: a text as ends write them, of audio and video that isn't rejected, without transport lines, whose BUNDLE
/// group names its sections. And such a text needs no change for an end. Of later texts each section comes back.
pub fn return_law()
    ensures back { ComesBack }
    ensures same { NothingChanges }
    ensures sections { SectionsComeBack }
{}

/// A browser gets the end's sections in its own places, by their names, with the removed ones in theirs, rejected, and
/// new ones after them.
pub fn places_law()
    ensures placed { EachInItsPlace }
    ensures rejected { TakenAreRejected }
{}

/// An answer for a browser, of its first offer or a later one, has a section for each of the offer's, in its place and
/// under its name; port 0 is that of exactly those that aren't answered, and the bundle names exactly the others (RFC
/// 3264 6, RFC 8829 5.3.1, RFC 9143 7.3.3). Any text, the end's offers too, has a section at each place of the state,
/// and its bundle names exactly those whose port isn't 0 (RFC 3264 8).
pub fn answer_law()
    ensures answers { AnswersEachSection }
    ensures texts { TextsAreWhole }
{}

/// Whatever the browser stops, an end is handed its own sections first and in its order, so that it never refuses a
/// text because one is missing; and those to answer with are the same, by name and kind. One that was stopped is
/// inactive, and has its name, kind and payload types.
pub fn following_law()
    ensures goes_on { (olds ms : List MediaLine) → GoesOn olds ms }
    ensures wanted { (state : BrowserState) (requests : List SectionRequest) → AreWanted state requests }
    ensures halted { (m : MediaLine) → IsHalted m }
{}

/// Every section of an end's text is the same in the browser's text, except for the transport's
/// lines.
pub fn lines_law()
    ensures { (t : Transport) (m : MediaLine) → LinesStay t m }
{}

/// What a section of a browser's text tells of its transport comes before what the session tells: credentials and
/// candidates (RFC 8839 5.4), the role (RFC 8842 5), and the fingerprint, the preferred one of several (RFC 8122 5).
pub fn levels_law()
    ensures { TellsByLevels }
{}

/// Who opens the connection (RFC 5763 5, RFC 8842 5.2 and 5.3): only an offer may leave it to the other end, a role
/// that was settled stays, and the two ends never have one role.
pub fn roles_law()
    ensures { RolesFit }
{}

/// Each section of an answer for a browser lists, of the types that the browser offered in this section, some in its
/// order, each with the codec, parameters that match and the type that it repairs or adds redundancy to, and with
/// feedback that was offered, whatever other sections say (RFC 3264 6.1).
pub fn order_law()
    ensures { AnswersListOffered }
{}

/// The offer or answer of an end, whose own session lines are neither of the transport nor a bundle, is a text as ends
/// write it, the premise of `return_law`.
pub fn end_text_law()
    ensures { EndsWriteEndTexts }
{}

/// Requests with sections rejected that have no row in common are otherwise as they were, and the end then refuses what
/// it is handed for want of a row in common only if that is a section that was stopped (RFC 3264 6).
pub fn in_common_law()
    ensures others { OnlyRejects }
    ensures answers { AnswersInCommon }
{}

/// Of the parameters that a browser's text gives a payload type, each that is known is read as it is alone, whatever is
/// around it (RFC 8866 6.15, RFC 6184 8.2.2, RFC 9628 7).
pub fn parameters_law()
    ensures { ReadsKnown }
{
    pairs_law();
    printed_pairs_law();
}

//! Session texts as they are printed (RFC 8866 5).

ghost use Rattle.std.specs.Prelude.{◌≡◌, IfOk};
ghost use Rattle.std.specs.String.{string_bytes};
ghost use Rattle.sdp_formats_data.specs.PrintedSession.{sdp_text};

use crate::media::MediaLine;
use crate::session::{Sdp, Session, SessionAttribute};
use rtp_wire::Mid;
use sdp_formats_grammar::{Joined, Maybe, Text};
use sdp_formats_values::{Mids, Words, write_both, write_value};
use std::alloc::{AllocError, Global};
use std::fmt;
use std::fmt::Display;

/// Its line with its end.
impl fmt::Display for SessionAttribute {
    ghost use Rattle.std.specs.Prelude.{Some};
    ghost use Rattle.sdp_formats_data.specs.PrintedSession.{attribute_text};

    ghost output = { λ a. Some (attribute_text a) };

    #[tactic(auto, unfolding(crate::specs::PrintedSession::attribute_text))]
    fn fmt<W: fmt::Write>(&self, f: &mut fmt::Formatter<W>) -> fmt::Result {
        match self {
            SessionAttribute::Group { typ, mids } => Group(typ, mids.as_slice()).fmt(f),
            SessionAttribute::MsidSemantic {
                semantic,
                stream_ids,
            } => {
                let streams = Words(stream_ids.as_slice());
                write_both(f, "a=msid-semantic: ", semantic, &streams)
            }
            SessionAttribute::AllowMixedExts => f.write_str("a=extmap-allow-mixed\r\n"),
            SessionAttribute::IceLite => f.write_str("a=ice-lite\r\n"),
            SessionAttribute::IceUfrag(value) => write_value(f, "a=ice-ufrag:", value),
            SessionAttribute::IcePwd(value) => write_value(f, "a=ice-pwd:", value),
            SessionAttribute::IceOptions(value) => write_value(f, "a=ice-options:", value),
            SessionAttribute::Fingerprint(value) => write_value(f, "a=fingerprint:", value),
            SessionAttribute::Setup(value) => write_value(f, "a=setup:", value),
            SessionAttribute::Candidate(value) => write_value(f, "a=", value),
            SessionAttribute::EndOfCandidates => f.write_str("a=end-of-candidates\r\n"),
            SessionAttribute::Unused(value) => write_value(f, "a=", value),
        }
    }
}

/// As it is printed.
impl fmt::Debug for SessionAttribute {
    ghost use Rattle.std.specs.Prelude.{Some};
    ghost use Rattle.sdp_formats_data.specs.PrintedSession.{attribute_text};

    ghost debug_output = { λ a. Some (attribute_text a) };

    fn fmt<W: fmt::Write>(&self, f: &mut fmt::Formatter<W>) -> fmt::Result {
        fmt::Display::fmt(self, f)
    }
}

// An `a=group` line: what the group means, and its sections.
#[derive(Drop)]
struct Group<'a>(&'a Text, &'a [Mid]);

impl fmt::Display for Group<'_> {
    ghost use Rattle.std.specs.Prelude.{Some};
    ghost use Rattle.sdp_formats_data.specs.PrintedSession.{group_text};

    ghost output = { λ g. Some (group_text g.0.now g.1.now) };

    fn fmt<W: fmt::Write>(&self, f: &mut fmt::Formatter<W>) -> fmt::Result {
        if self.1.is_empty() {
            return write_value(f, "a=group:", self.0);
        }
        let mids = Mids(self.1);
        write_both(f, "a=group:", self.0, &mids)
    }
}

/// Attributes to be printed, one after the other.
#[derive(Drop)]
pub struct SessionAttributes<'a>(pub &'a [SessionAttribute]);

impl fmt::Display for SessionAttributes<'_> {
    ghost use Rattle.std.specs.Prelude.{Some};
    ghost use Rattle.sdp_formats_data.specs.PrintedSession.{attributes_text};

    ghost output = { λ a. Some (attributes_text a.0.now) };

    fn fmt<W: fmt::Write>(&self, f: &mut fmt::Formatter<W>) -> fmt::Result {
        Joined(self.0, "").fmt(f)
    }
}

/// Sections to be printed, one after the other.
#[derive(Drop)]
pub struct Sections<'a>(pub &'a [MediaLine]);

impl fmt::Display for Sections<'_> {
    ghost use Rattle.std.specs.Prelude.{Some};
    ghost use Rattle.sdp_formats_data.specs.PrintedSession.{sections_text};

    ghost output = { λ s. Some (sections_text s.0.now) };

    fn fmt<W: fmt::Write>(&self, f: &mut fmt::Formatter<W>) -> fmt::Result {
        Joined(self.0, "").fmt(f)
    }
}

/// Its lines with their ends: the version, the originator `str0m-0.25.0` with the session's number, the name `-`, the
/// bandwidth if there is one, the time `0 0`, and the attributes.
impl fmt::Display for Session {
    ghost use Rattle.std.specs.Prelude.{Some};
    ghost use Rattle.sdp_formats_data.specs.PrintedSession.{session_text};

    ghost output = { λ s. Some (session_text s) };

    #[tactic(auto, unfolding(crate::specs::PrintedSession::session_text))]
    fn fmt<W: fmt::Write>(&self, f: &mut fmt::Formatter<W>) -> fmt::Result {
        let id = self.id;
        let bandwidth = Maybe("", &self.bw);
        let attributes = SessionAttributes(self.attrs.as_slice());
        write!(
            f,
            "v=0\r\no=str0m-0.25.0 {id} 2 IN IP4 0.0.0.0\r\ns=-\r\n{bandwidth}t=0 0\r\n{attributes}"
        )
    }
}

/// The session, and its sections.
impl fmt::Display for Sdp {
    ghost use Rattle.std.specs.Prelude.{Some};

    ghost output = { λ s. Some (sdp_text s) };

    fn fmt<W: fmt::Write>(&self, f: &mut fmt::Formatter<W>) -> fmt::Result {
        let session = &self.session;
        let sections = Sections(self.media_lines.as_slice());
        write!(f, "{session}{sections}")
    }
}

impl Sdp {
    /// The text.
    ///
    /// # Errors
    ///
    /// `AllocError` if memory runs out.
    pub fn to_sdp_string(&self, alloc: Global) -> Result<String, AllocError>
        ensures { IfOk result (λ text. string_bytes text ≡ sdp_text self.now) }
    {
        self.to_string(alloc)
    }
}

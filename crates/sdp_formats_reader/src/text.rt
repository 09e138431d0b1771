//! The text of a session and its sections, with an attribute before the session's own.

use sdp_formats_data::{MediaLine, Sections, Session, SessionAttribute, SessionAttributes};
use sdp_formats_grammar::Maybe;
use std::fmt;
use std::fmt::Display;

// An attribute, and others after it.
#[derive(Drop)]
struct FirstAttributes<'a> {
    first: &'a SessionAttribute,
    others: &'a [SessionAttribute],
}

impl fmt::Display for FirstAttributes<'_> {
    ghost use Rattle.std.specs.Prelude.{Some, ◌∷◌};
    ghost use Rattle.sdp_formats_data.specs.PrintedSession.{attributes_text};

    ghost output = { λ a. Some (attributes_text (a.first.now ∷ a.others.now)) };

    fn fmt<W: fmt::Write>(&self, f: &mut fmt::Formatter<W>) -> fmt::Result {
        let first = self.first;
        let others = SessionAttributes(self.others);
        write!(f, "{first}{others}")
    }
}

// A session with an attribute before its own.
#[derive(Drop)]
struct WithFirst<'a> {
    session: &'a Session,
    first: &'a SessionAttribute,
}

impl fmt::Display for WithFirst<'_> {
    ghost use Rattle.std.specs.Prelude.{Some};
    ghost use Rattle.sdp_formats_data.specs.PrintedSession.{session_text};
    ghost use Rattle.sdp_formats_reader.specs.OneMoreAttribute.{with_first};

    ghost output = { λ s. Some (session_text (with_first s.first.now s.session.now)) };

    #[tactic(auto, unfolding(sdp_formats_data::specs::PrintedSession::session_text))]
    fn fmt<W: fmt::Write>(&self, f: &mut fmt::Formatter<W>) -> fmt::Result {
        let id = self.session.id;
        let bandwidth = Maybe("", &self.session.bw);
        let attributes = FirstAttributes {
            first: self.first,
            others: self.session.attrs.as_slice(),
        };
        write!(
            f,
            "v=0\r\no=str0m-0.25.0 {id} 2 IN IP4 0.0.0.0\r\ns=-\r\n{bandwidth}t=0 0\r\n{attributes}"
        )
    }
}

/// A whole text to be printed (RFC 8866 5): the session, with an attribute before its own, and the sections.
#[derive(Drop)]
pub struct WholeText<'a> {
    /// The session.
    pub session: &'a Session,
    /// The attribute that is before the session's own.
    pub first: &'a SessionAttribute,
    /// The sections.
    pub sections: &'a [MediaLine],
}

/// Its lines with their ends.
impl fmt::Display for WholeText<'_> {
    ghost use Rattle.std.specs.Prelude.{Some};
    ghost use Rattle.sdp_formats_data.specs.PrintedSession.{sdp_text};
    ghost use Rattle.sdp_formats_reader.specs.OneMoreAttribute.{with_first};

    ghost output = { λ t. Some (sdp_text (record {
      session = with_first t.first.now t.session.now;
      media_lines = t.sections.now;
    })) };

    fn fmt<W: fmt::Write>(&self, f: &mut fmt::Formatter<W>) -> fmt::Result {
        let session = WithFirst {
            session: self.session,
            first: self.first,
        };
        let sections = Sections(self.sections);
        write!(f, "{session}{sections}")
    }
}

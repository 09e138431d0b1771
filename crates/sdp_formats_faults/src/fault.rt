//! What is wrong with a line of a session text.

ghost use Rattle.std.specs.Prelude.{◌≡◌};
ghost use Rattle.sdp_formats_faults.specs.FaultWords.{fault_words, section_words};

use sdp_formats_data::Inconsistency;
use std::fmt;

/// What is wrong with a line of a session text.
#[derive(Clone, Copy, Debug, PartialEq, Eq, Drop)]
pub enum LineFault {
    /// It isn't the line `v=0` that a text begins with (RFC 8866 5.1).
    Version,
    /// It isn't a valid line `o=`, which is the second (RFC 8866 5.2).
    Origin,
    /// It isn't a line `s=` with a name, which is the third (RFC 8866 5.3).
    Name,
    /// It isn't the line `t=0 0`, nor a line that may precede it (RFC 8866 5.9).
    Times,
    /// It is the line `m=` of a section that has this fault (RFC 8866 5.14).
    Section(Inconsistency),
    /// It is none of the lines that may stand there.
    Stray,
}

/// The line at which a session text can't be read on.
#[derive(Clone, Copy, Debug, PartialEq, Eq, Drop)]
pub struct FaultyLine<'a> {
    /// Its number, counted from 1.
    pub number: usize,
    /// The line, without its end; empty if the text ends before it.
    pub text: &'a str,
    /// What is wrong with it.
    pub fault: LineFault,
}

fn section_words(fault: Inconsistency) -> &'static str
    ensures { result.now ≡ section_words fault }
{
    match fault {
        Inconsistency::MissingMid => "a section without a=mid",
        Inconsistency::SeveralMids => "a section with several a=mid",
        Inconsistency::SeveralSetups => "a section with several a=setup",
        Inconsistency::Directions => "a section without exactly one direction",
        Inconsistency::NoPayloadType => "a section without payload types",
        Inconsistency::RtpMaps => "a section with a payload type that isn't mapped once",
        Inconsistency::ConflictingApts => "a section with a payload type that repairs several",
    }
}

fn fault_words(fault: LineFault) -> &'static str
    ensures { result.now ≡ fault_words fault }
{
    match fault {
        LineFault::Version => "not v=0",
        LineFault::Origin => "no valid o=",
        LineFault::Name => "no s= with a name",
        LineFault::Times => "not t=0 0",
        LineFault::Section(fault) => section_words(fault),
        LineFault::Stray => "fits nowhere",
    }
}

/// What is wrong, in a few words.
impl fmt::Display for LineFault {
    ghost use Rattle.std.specs.Prelude.{Some};
    ghost use Rattle.sdp_formats_faults.specs.FaultWords.{fault_words};

    ghost output = { λ f. Some (fault_words f) };

    fn fmt<W: fmt::Write>(&self, f: &mut fmt::Formatter<W>) -> fmt::Result {
        f.write_str(fault_words(*self))
    }
}

/// The number of the line, what is wrong with it, and the line.
impl fmt::Display for FaultyLine<'_> {
    ghost use Rattle.std.specs.Prelude.{Some};
    ghost use Rattle.sdp_formats_faults.specs.FaultWords.{line_words};

    ghost output = { λ l. Some (line_words l.number l.fault l.text.now) };

    fn fmt<W: fmt::Write>(&self, f: &mut fmt::Formatter<W>) -> fmt::Result {
        let FaultyLine {
            number,
            text,
            fault,
        } = *self;
        write!(f, "line {number}: {fault}: {text}")
    }
}

//! Transport attributes, allowed at session and at media level.

ghost use Rattle.std.specs.Prelude.{◌≡◌};
ghost use Rattle.sdp_formats_grammar.specs.Kinds.{value_of, alone_of};
ghost use Rattle.sdp_formats_grammar.specs.Refusals.{Gives};
ghost use Rattle.sdp_formats_reader.specs.Transport.{in_session, in_section, transport_kinds};

use crate::digest::fingerprint_of;
use crate::words::setup_of;
use sdp_formats_data::{MediaAttribute, SessionAttribute};
use sdp_formats_grammar::{Refusal, Text, text_of};
use sdp_formats_values::{Candidate, Fingerprint, Setup, candidate_of};
use std::alloc::Global;

/// An attribute of transport, of a session or of a section.
#[derive(Debug, Drop)]
pub enum TransportAttribute {
    /// `a=ice-ufrag` (RFC 8839 5.4).
    IceUfrag(Text),
    /// `a=ice-pwd` (RFC 8839 5.4).
    IcePwd(Text),
    /// `a=ice-options` (RFC 8839 5.6).
    IceOptions(Text),
    /// `a=fingerprint` (RFC 8122 5).
    Fingerprint(Fingerprint),
    /// `a=setup` (RFC 4145 4).
    Setup(Setup),
    /// `a=candidate` (RFC 8839 5.1).
    Candidate(Candidate),
    /// `a=end-of-candidates` (RFC 8840 8.2).
    EndOfCandidates,
}

impl TransportAttribute {
    /// The attribute of a session.
    pub fn in_session(self) -> SessionAttribute
        ensures { result ≡ in_session self }
    {
        match self {
            TransportAttribute::IceUfrag(text) => SessionAttribute::IceUfrag(text),
            TransportAttribute::IcePwd(text) => SessionAttribute::IcePwd(text),
            TransportAttribute::IceOptions(text) => SessionAttribute::IceOptions(text),
            TransportAttribute::Fingerprint(print) => SessionAttribute::Fingerprint(print),
            TransportAttribute::Setup(setup) => SessionAttribute::Setup(setup),
            TransportAttribute::Candidate(candidate) => SessionAttribute::Candidate(candidate),
            TransportAttribute::EndOfCandidates => SessionAttribute::EndOfCandidates,
        }
    }

    /// The attribute of a section.
    pub fn in_section(self) -> MediaAttribute
        ensures { result ≡ in_section self }
    {
        match self {
            TransportAttribute::IceUfrag(text) => MediaAttribute::IceUfrag(text),
            TransportAttribute::IcePwd(text) => MediaAttribute::IcePwd(text),
            TransportAttribute::IceOptions(text) => MediaAttribute::IceOptions(text),
            TransportAttribute::Fingerprint(print) => MediaAttribute::Fingerprint(print),
            TransportAttribute::Setup(setup) => MediaAttribute::Setup(setup),
            TransportAttribute::Candidate(candidate) => MediaAttribute::Candidate(candidate),
            TransportAttribute::EndOfCandidates => MediaAttribute::EndOfCandidates,
        }
    }
}

/// An attribute of transport by its name and its value.
///
/// # Errors
///
/// `Unfit` if the name is none of theirs or the value doesn't fit it, `Memory` if memory runs out.
pub fn transport_value(
    alloc: Global,
    name: &str,
    value: &str,
) -> Result<TransportAttribute, Refusal>
    ensures { Gives result (value_of transport_kinds name.now value.now) }
{
    match name {
        "ice-ufrag" => Ok(TransportAttribute::IceUfrag(text_of(alloc, value)?)),
        "ice-pwd" => Ok(TransportAttribute::IcePwd(text_of(alloc, value)?)),
        "ice-options" => Ok(TransportAttribute::IceOptions(text_of(alloc, value)?)),
        "fingerprint" => Ok(TransportAttribute::Fingerprint(fingerprint_of(alloc, value)?)),
        "setup" => Ok(TransportAttribute::Setup(setup_of(value)?)),
        "candidate" => Ok(TransportAttribute::Candidate(candidate_of(alloc, value)?)),
        _ => Err(Refusal::Unfit),
    }
}

/// An attribute of transport that is one word.
///
/// # Errors
///
/// `Unfit` if it is no such word.
pub fn transport_word(text: &str) -> Result<TransportAttribute, Refusal>
    ensures { Gives result (alone_of transport_kinds text.now) }
{
    match text {
        "end-of-candidates" => Ok(TransportAttribute::EndOfCandidates),
        _ => Err(Refusal::Unfit),
    }
}

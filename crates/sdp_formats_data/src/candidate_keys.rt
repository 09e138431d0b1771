//! ICE candidates as keys of a set.

ghost use Rattle.std.specs.Prelude.{◌≡◌};
ghost use Rattle.std.specs.Option.{option_copied, option_map};
ghost use Rattle.sdp_formats_values.specs.PrintedCandidates.{tcp_type_text};
ghost use Rattle.sdp_formats_data.specs.Keys.{IsKeyOf, related_of, shown};

use sdp_formats_values::{Candidate, RelatedAddress, TcpType};

/// A candidate by all of its fields. Keys are ordered, not hashed, since a peer could make texts
/// whose hashes collide.
#[derive(PartialEq, Eq, PartialOrd, Ord, Drop)]
pub(crate) struct CandidateKey<'a> {
    foundation: &'a str,
    component_id: u16,
    proto: &'a str,
    prio: u32,
    addr: &'a str,
    port: u16,
    kind: &'a str,
    related: Option<(&'a str, u16)>,
    tcptype: Option<&'a str>,
    ufrag: Option<&'a str>,
}

fn related_key(related: Option<&RelatedAddress>) -> Option<(&str, u16)>
    ensures { option_map shown result ≡ option_map related_of (option_copied related.entry) }
{
    match related {
        Some(related) => Some((related.addr.as_str(), related.port)),
        None => None,
    }
}

fn tcp_type_key(tcptype: Option<TcpType>) -> Option<&'static str>
    ensures { option_copied result ≡ option_map tcp_type_text tcptype }
{
    match tcptype {
        Some(tcptype) => Some(tcptype.as_str()),
        None => None,
    }
}

/// The key of a candidate.
pub(crate) fn candidate_key(candidate: &Candidate) -> CandidateKey<'_>
    ensures { IsKeyOf result candidate.now }
{
    CandidateKey {
        foundation: candidate.foundation(),
        component_id: candidate.component_id(),
        proto: candidate.proto().as_str(),
        prio: candidate.prio(),
        addr: candidate.addr(),
        port: candidate.port(),
        kind: candidate.kind().as_str(),
        related: related_key(candidate.related()),
        tcptype: tcp_type_key(candidate.tcptype()),
        ufrag: candidate.ufrag(),
    }
}

//! Candidates (RFC 8839 5.1) and credentials (RFC 8839 5.4).

ghost use Rattle.std.specs.Prelude.{◌≡◌, IfOk};
ghost use Rattle.std.specs.Option.{option_copied};
ghost use Rattle.std.specs.String.{string_bytes};
ghost use Rattle.sdp_formats_values.specs.PrintedCandidates.{protocol_text, kind_text, tcp_type_text, candidate_text};

use sdp_formats_grammar::{Maybe, Text};
use std::alloc::{AllocError, Global};
use std::fmt;

/// What transports a candidate's packets.
#[derive(Clone, Copy, Debug, PartialEq, Eq, Hash, Drop)]
pub enum Protocol {
    /// `udp`
    Udp,
    /// `tcp`
    Tcp,
    /// `ssltcp`
    SslTcp,
    /// `tls`
    Tls,
}

/// How a candidate was found (RFC 8445 5.1.1).
#[derive(Clone, Copy, Debug, PartialEq, Eq, Hash, Drop)]
pub enum CandidateKind {
    /// `host`: an address of the machine itself.
    Host,
    /// `prflx`: seen by the other end.
    PeerReflexive,
    /// `srflx`: told by a STUN server.
    ServerReflexive,
    /// `relay`: of a TURN server.
    Relayed,
}

/// Which end opens the connection of a TCP candidate (RFC 6544 4.5).
#[derive(Clone, Copy, Debug, PartialEq, Eq, Hash, Drop)]
pub enum TcpType {
    /// `active`
    Active,
    /// `passive`
    Passive,
    /// `so`: both at once.
    So,
}

/// The address that a candidate was derived from.
#[derive(Debug, PartialEq, Eq, Hash, Drop)]
pub struct RelatedAddress {
    /// The address: a word, not checked to be one of IP.
    pub addr: Text,
    /// The port.
    pub port: u16,
}

/// A candidate: an address that an end may be reached at (RFC 8839 5.1). Only the readers of texts make one, so each
/// has been read from a text.
#[derive(Debug, PartialEq, Eq, Hash, Drop)]
pub struct Candidate {
    /// Its foundation: candidates with the same base and kind share it.
    pub(crate) foundation: Text,
    /// The component of the stream, 1 for RTP.
    pub(crate) component_id: u16,
    /// What transports its packets.
    pub(crate) proto: Protocol,
    /// Its priority.
    pub(crate) prio: u32,
    /// The address: a word, not checked to be one of IP.
    pub(crate) addr: Text,
    /// The port.
    pub(crate) port: u16,
    /// How it was found.
    pub(crate) kind: CandidateKind,
    /// The address that it was derived from, if it is told.
    pub(crate) related: Option<RelatedAddress>,
    /// Which end opens the connection, for TCP.
    pub(crate) tcptype: Option<TcpType>,
    /// The ufrag it belongs to, if given.
    pub(crate) ufrag: Option<Text>,
}

impl Candidate {
    /// Its foundation: candidates with the same base and kind share it.
    pub fn foundation(&self) -> &str
        ensures { result.now ≡ self.now.foundation }
    {
        self.foundation.as_str()
    }

    /// The component of the stream, 1 for RTP.
    pub fn component_id(&self) -> u16
        ensures { result ≡ self.now.component_id }
    {
        self.component_id
    }

    /// Its priority, below 2^32.
    pub fn prio(&self) -> u32
        ensures { result ≡ self.now.prio }
    {
        self.prio
    }

    /// How it was found.
    pub fn kind(&self) -> CandidateKind
        ensures { result ≡ self.now.kind }
    {
        self.kind
    }

    /// The address that it was derived from, if it is told.
    pub fn related(&self) -> Option<&RelatedAddress>
        ensures { option_copied result ≡ self.now.related }
    {
        self.related.as_ref()
    }

    /// The address: a word, not checked to be one of IP.
    pub fn addr(&self) -> &str
        ensures { result.now ≡ self.now.addr }
    {
        self.addr.as_str()
    }

    /// The port.
    pub fn port(&self) -> u16
        ensures { result ≡ self.now.port }
    {
        self.port
    }

    /// What transports its packets.
    pub fn proto(&self) -> Protocol
        ensures { result ≡ self.now.proto }
    {
        self.proto
    }

    /// Which end opens the connection, for TCP.
    pub fn tcptype(&self) -> Option<TcpType>
        ensures { result ≡ self.now.tcptype }
    {
        self.tcptype
    }

    /// The ufrag it belongs to, if given.
    pub fn ufrag(&self) -> Option<&str>
        ensures { option_copied result ≡ self.now.ufrag }
    {
        match &self.ufrag {
            Some(ufrag) => Some(ufrag.as_str()),
            None => None,
        }
    }
}

impl Protocol {
    /// The word for it in a session text.
    pub fn as_str(&self) -> &'static str
        ensures { result.now ≡ protocol_text self.now }
    {
        match self {
            Protocol::Udp => "udp",
            Protocol::Tcp => "tcp",
            Protocol::SslTcp => "ssltcp",
            Protocol::Tls => "tls",
        }
    }
}

impl CandidateKind {
    /// The word for it in a session text.
    pub fn as_str(&self) -> &'static str
        ensures { result.now ≡ kind_text self.now }
    {
        match self {
            CandidateKind::Host => "host",
            CandidateKind::PeerReflexive => "prflx",
            CandidateKind::ServerReflexive => "srflx",
            CandidateKind::Relayed => "relay",
        }
    }
}

impl TcpType {
    /// The word for it in a session text.
    pub fn as_str(&self) -> &'static str
        ensures { result.now ≡ tcp_type_text self.now }
    {
        match self {
            TcpType::Active => "active",
            TcpType::Passive => "passive",
            TcpType::So => "so",
        }
    }
}

impl fmt::Display for TcpType {
    ghost use Rattle.std.specs.Prelude.{Some};

    ghost output = { λ t. Some (tcp_type_text t) };

    fn fmt<W: fmt::Write>(&self, f: &mut fmt::Formatter<W>) -> fmt::Result {
        f.write_str(self.as_str())
    }
}

impl fmt::Display for RelatedAddress {
    ghost use Rattle.std.specs.Prelude.{Some};
    ghost use Rattle.sdp_formats_values.specs.PrintedCandidates.{related_text};

    ghost output = { λ r. Some (related_text r) };

    fn fmt<W: fmt::Write>(&self, f: &mut fmt::Formatter<W>) -> fmt::Result {
        let addr = &self.addr;
        let port = self.port;
        write!(f, "{addr} rport {port}")
    }
}

// What follows a candidate's kind, each part where it is told.
#[derive(Drop)]
struct CandidateParts<'a>(&'a Candidate);

impl fmt::Display for CandidateParts<'_> {
    ghost use Rattle.std.specs.Prelude.{Some};
    ghost use Rattle.sdp_formats_values.specs.PrintedCandidates.{parts_text};

    ghost output = { λ p. Some (parts_text p.0.now) };

    fn fmt<W: fmt::Write>(&self, f: &mut fmt::Formatter<W>) -> fmt::Result {
        let related = Maybe(" raddr ", &self.0.related);
        let tcptype = Maybe(" tcptype ", &self.0.tcptype);
        let ufrag = Maybe(" ufrag ", &self.0.ufrag);
        write!(f, "{related}{tcptype}{ufrag}")
    }
}

/// `candidate:` and its parts, without generation, network number and cost (RFC 8839 5.1).
impl fmt::Display for Candidate {
    ghost use Rattle.std.specs.Prelude.{Some};

    ghost output = { λ c. Some (candidate_text c) };

    #[tactic(auto, unfolding(crate::specs::PrintedCandidates::candidate_text))]
    fn fmt<W: fmt::Write>(&self, f: &mut fmt::Formatter<W>) -> fmt::Result {
        let (foundation, component) = (&self.foundation, self.component_id);
        let (proto, prio) = (self.proto.as_str(), self.prio);
        let (addr, port, kind) = (&self.addr, self.port, self.kind.as_str());
        let parts = CandidateParts(self);
        write!(
            f,
            "candidate:{foundation} {component} {proto} {prio} {addr} {port} typ {kind}{parts}"
        )
    }
}

impl Candidate {
    /// It as it follows `a=`.
    ///
    /// # Errors
    ///
    /// `AllocError` if memory runs out.
    pub fn to_sdp_string(&self, alloc: Global) -> Result<String, AllocError>
        ensures { IfOk result (λ text. string_bytes text ≡ candidate_text self.now) }
    {
        self.to_string(alloc)
    }
}

/// The credentials of connectivity checks (RFC 8839 5.4).
#[derive(Debug, PartialEq, Eq, Drop)]
pub struct IceCreds {
    /// The name, `ice-ufrag`.
    pub ufrag: Text,
    /// The password, `ice-pwd`.
    pub pass: Text,
}

//! Words of candidates that stand for a choice (RFC 8839 5.1, RFC 6544 4.5).

ghost use Rattle.std.specs.Prelude.{◌≡◌};
ghost use Rattle.std.specs.Str.{str_eq_ignore_ascii_case};
ghost use Rattle.sdp_formats_grammar.specs.Refusals.{Gives};
ghost use Rattle.sdp_formats_values.specs.CandidateWords.{protocol_word, kind_word, tcptype_word};

use crate::candidate::{CandidateKind, Protocol, TcpType};
use sdp_formats_grammar::Refusal;

fn is_word(text: &str, word: &str) -> bool
    ensures { result ≡ str_eq_ignore_ascii_case word.now text.now }
{
    word.eq_ignore_ascii_case(text)
}

pub(crate) fn protocol_of(word: &str) -> Result<Protocol, Refusal>
    ensures { Gives result (protocol_word word.now) }
{
    if is_word(word, "udp") {
        return Ok(Protocol::Udp);
    }
    if is_word(word, "tcp") {
        return Ok(Protocol::Tcp);
    }
    if is_word(word, "ssltcp") {
        return Ok(Protocol::SslTcp);
    }
    if is_word(word, "tls") {
        return Ok(Protocol::Tls);
    }
    Err(Refusal::Unfit)
}

pub(crate) fn kind_of(word: &str) -> Result<CandidateKind, Refusal>
    ensures { Gives result (kind_word word.now) }
{
    match word {
        "host" => Ok(CandidateKind::Host),
        "prflx" => Ok(CandidateKind::PeerReflexive),
        "srflx" => Ok(CandidateKind::ServerReflexive),
        "relay" => Ok(CandidateKind::Relayed),
        _ => Err(Refusal::Unfit),
    }
}

pub(crate) fn tcptype_of(word: &str) -> Result<TcpType, Refusal>
    ensures { Gives result (tcptype_word word.now) }
{
    match word {
        "active" => Ok(TcpType::Active),
        "passive" => Ok(TcpType::Passive),
        "so" => Ok(TcpType::So),
        _ => Err(Refusal::Unfit),
    }
}

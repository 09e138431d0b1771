//! Candidates as they are read (RFC 8839 5.1).

ghost use Rattle.std.specs.Option.{option_copied};
ghost use Rattle.sdp_formats_grammar.specs.Form.{maybe};
ghost use Rattle.sdp_formats_grammar.specs.Refusals.{Gives, GivesBy};
ghost use Rattle.sdp_formats_values.specs.CandidateWords.{tcptype_word};
ghost use Rattle.sdp_formats_values.specs.Candidates.{related_in, related_field, with_rest, related_rest};
ghost use Rattle.sdp_formats_values.specs.Candidates.{tcptype_field, tcptype_rest, ufrag_field};
ghost use Rattle.sdp_formats_values.specs.Candidates.{candidate_fields};
ghost use Rattle.sdp_formats_values.specs.Candidates.{candidate_base, candidate_carrier, carried};
ghost use Rattle.sdp_formats_values.specs.Candidates.{candidate_place, placed, candidate};

use crate::candidate::{Candidate, Protocol, RelatedAddress, TcpType};
use crate::candidate_words::{kind_of, protocol_of, tcptype_of};
use sdp_formats_grammar::{
    Refusal, Text, behind, copied, copy, field, halves, number_16, number_32, some, split,
    stripped, text_of,
};
use std::alloc::Global;

// The fields after a candidate's kind.
#[derive(Drop)]
struct Fields {
    related: Option<RelatedAddress>,
    tcptype: Option<TcpType>,
    ufrag: Option<Text>,
}

/// The address and port after `raddr `, and what is left after a blank.
#[tactic(auto, unfolding(crate::specs::Candidates::related_in))]
fn related_in(alloc: Global, text: &str) -> Result<(RelatedAddress, Option<&str>), Refusal>
    ensures { GivesBy with_rest result (related_in text.now) }
{
    let (addr, rest) = split(text, ' ')?;
    let addr = text_of(alloc, addr)?;
    let rest = behind(rest, "rport ")?;
    let (port, rest) = halves(rest, ' ');
    let port = number_16(port)?;
    Ok((RelatedAddress { addr, port }, rest))
}

fn related_field(
    alloc: Global,
    text: Option<&str>,
) -> Result<(Option<RelatedAddress>, Option<&str>), Refusal>
    ensures { GivesBy related_rest result (related_field (option_copied text.entry)) }
{
    let Some(text) = text else {
        return Ok((None, None));
    };
    let Some(value) = stripped(text, "raddr ") else {
        return Ok((None, Some(text)));
    };
    let (related, rest) = related_in(alloc, value)?;
    Ok((Some(related), rest))
}

fn maybe_tcptype(word: Option<&str>) -> Result<Option<TcpType>, Refusal>
    ensures { Gives result (maybe tcptype_word (option_copied word.entry)) }
{
    match word {
        Some(word) => Ok(Some(tcptype_of(word)?)),
        None => Ok(None),
    }
}

#[tactic(auto, unfolding(crate::specs::Candidates::tcptype_field))]
fn tcptype_field(text: Option<&str>) -> Result<(Option<TcpType>, Option<&str>), Refusal>
    ensures { GivesBy tcptype_rest result (tcptype_field (option_copied text.entry)) }
{
    let (word, rest) = field(text, "tcptype ")?;
    Ok((maybe_tcptype(word)?, rest))
}

/// The ufrag, among fields that are ignored, up to the end.
#[tactic(auto, unfolding(crate::specs::Candidates::ufrag_field))]
fn ufrag_field(text: Option<&str>) -> Result<Option<&str>, Refusal>
    ensures { GivesBy option_copied result (ufrag_field (option_copied text.entry)) }
{
    let (_, rest) = field(text, "generation ")?;
    let (_, rest) = field(rest, "network-id ")?;
    let (ufrag, rest) = field(rest, "ufrag ")?;
    let (_, rest) = field(rest, "network-cost ")?;
    if rest.is_some() {
        return Err(Refusal::Unfit);
    }
    Ok(ufrag)
}

/// What the fields after a candidate's kind say.
#[tactic(auto, unfolding(crate::specs::Candidates::candidate_fields))]
fn candidate_fields(alloc: Global, tail: Option<&str>) -> Result<Fields, Refusal>
    ensures { Gives result (candidate_fields (option_copied tail.entry)) }
{
    let (related, tail) = related_field(alloc, tail)?;
    let (tcptype, tail) = tcptype_field(tail)?;
    let ufrag = ufrag_field(tail)?;
    let ufrag = copied(alloc, ufrag)?;
    Ok(Fields {
        related,
        tcptype,
        ufrag,
    })
}

/// The foundation, the component and what follows them.
#[tactic(auto, unfolding(crate::specs::Candidates::candidate_base))]
fn candidate_base(text: &str) -> Result<(&str, u16, &str), Refusal>
    ensures { GivesBy placed result (candidate_base text.now) }
{
    let (foundation, rest) = split(text, ' ')?;
    let foundation = some(foundation)?;
    let (component, rest) = split(rest, ' ')?;
    let component = number_16(component)?;
    Ok((foundation, component, rest))
}

/// The protocol, the priority and what follows them.
#[tactic(auto, unfolding(crate::specs::Candidates::candidate_carrier))]
fn candidate_carrier(text: &str) -> Result<(Protocol, u32, &str), Refusal>
    ensures { GivesBy carried result (candidate_carrier text.now) }
{
    let (protocol, rest) = split(text, ' ')?;
    let protocol = protocol_of(protocol)?;
    let (priority, rest) = split(rest, ' ')?;
    let priority = number_32(priority)?;
    Ok((protocol, priority, rest))
}

/// The address, the port and what follows `typ `.
#[tactic(auto, unfolding(crate::specs::Candidates::candidate_place))]
fn candidate_place(text: &str) -> Result<(&str, u16, &str), Refusal>
    ensures { GivesBy placed result (candidate_place text.now) }
{
    let (address, rest) = split(text, ' ')?;
    let address = some(address)?;
    let (port, rest) = split(rest, ' ')?;
    let port = number_16(port)?;
    let rest = behind(rest, "typ ")?;
    Ok((address, port, rest))
}

/// What follows `a=candidate:` (RFC 8839 5.1).
///
/// # Errors
///
/// `Unfit` if it is no candidate, `Memory` if memory runs out.
#[tactic(auto, unfolding(crate::specs::Candidates::candidate))]
pub fn candidate_of(alloc: Global, value: &str) -> Result<Candidate, Refusal>
    ensures { Gives result (candidate value.now) }
{
    let (foundation, component_id, rest) = candidate_base(value)?;
    let (proto, prio, rest) = candidate_carrier(rest)?;
    let (addr, port, rest) = candidate_place(rest)?;
    let (kind, tail) = halves(rest, ' ');
    let kind = kind_of(kind)?;
    let fields = candidate_fields(alloc, tail)?;
    Ok(Candidate {
        foundation: copy(alloc, foundation)?,
        component_id,
        proto,
        prio,
        addr: copy(alloc, addr)?,
        port,
        kind,
        related: fields.related,
        tcptype: fields.tcptype,
        ufrag: fields.ufrag,
    })
}

//! Commands on values that come alone: candidates, fingerprints, setups and parameters of formats.

use sdp_formats::{
    Candidate, CandidateKind, Fingerprint, FingerprintError, FormatParams, Joined, Refusal,
    RelatedAddress, candidate_of, fingerprint_of, setup_of,
};
use std::alloc::Global;
use std::hash::{DefaultHasher, Hash, Hasher};
use words_and_replies::ReplyText;

/// `candidate TEXT`: the candidate that follows `candidate:`, printed, and what its accessors return.
pub(crate) fn put_candidate(alloc: Global, text: &str, reply: &mut ReplyText) {
    match candidate_of(alloc, text) {
        Ok(candidate) => put_parts(alloc, &candidate, reply),
        Err(Refusal::Unfit) => reply.put("no candidate"),
        Err(Refusal::Memory) => reply.fail(),
    }
}

fn put_parts(alloc: Global, candidate: &Candidate, reply: &mut ReplyText) {
    reply.put_printed("", candidate.to_sdp_string(alloc));
    reply.say(": at ", &candidate.addr());
    reply.say(", port ", &candidate.port());
    reply.say(", by ", &candidate.proto().as_str());
    reply.put(kind_of(candidate.kind()));
    put_related(candidate.related(), reply);
    reply.say_or_dash(", opened ", &candidate.tcptype());
    reply.say_or_dash(", of ", &candidate.ufrag());
}

/// How it was found (RFC 8839 5.1).
fn kind_of(kind: CandidateKind) -> &'static str {
    match kind {
        CandidateKind::Host => ", local",
        CandidateKind::ServerReflexive => ", told by a server",
        CandidateKind::PeerReflexive => ", told by the peer",
        CandidateKind::Relayed => ", of a relay",
    }
}

fn put_related(related: Option<&RelatedAddress>, reply: &mut ReplyText) {
    match related {
        Some(related) => {
            reply.say(", from ", &related.addr);
            reply.say(" port ", &related.port);
        }
        None => reply.put(", from -"),
    }
}

/// `fingerprint TEXT`: the fingerprint of a text of its own, printed, the place of its hash function, and whether it is
/// the one that `a=fingerprint` would give.
pub(crate) fn put_fingerprint(alloc: Global, text: &str, reply: &mut ReplyText) {
    match Fingerprint::from_str(alloc, text) {
        Ok(print) => {
            reply.say("", &print);
            reply.say(", place ", &print.hash_preference());
            put_of_line(alloc, text, &print, reply);
        }
        Err(FingerprintError::Malformed) => reply.put("no fingerprint"),
        Err(FingerprintError::Memory) => reply.fail(),
    }
}

/// Whether a fingerprint is the one of a line of this text.
fn put_of_line(alloc: Global, text: &str, print: &Fingerprint, reply: &mut ReplyText) {
    match fingerprint_of(alloc, text) {
        Ok(other) => {
            reply.say(", the same as of a line ", &(*print == other));
            reply.say(", by its hash ", &(hash_of(print) == hash_of(&other)));
        }
        Err(Refusal::Unfit) => reply.put(", none of a line"),
        Err(Refusal::Memory) => reply.fail(),
    }
}

fn hash_of(print: &Fingerprint) -> u64 {
    let mut hasher = DefaultHasher::new();
    print.hash(&mut hasher);
    hasher.finish()
}

/// `setup WORD WORD`: a DTLS role, the role as the other end sees it, and the role this end takes
/// given the other's.
pub(crate) fn put_setup((own, other): (&str, &str), reply: &mut ReplyText) {
    let (Ok(own), Ok(other)) = (setup_of(own), setup_of(other)) else {
        return reply.put("no setup");
    };
    reply.say("", &own);
    reply.say(", inverted ", &own.invert());
    reply.say(", towards ", &other);
    reply.say_or_dash(" ", &own.compare_to_remote(other));
}

/// `format TEXT`: the parameters that a text gives, blanks and all, printed again.
pub(crate) fn put_format(alloc: Global, text: &str, reply: &mut ReplyText) {
    reply.put_printed("", FormatParams::parse_line(text).to_string(alloc));
}

/// `parameters TEXT`: the parameters of the format that a text gives, one by one, or a dash if there are none.
pub(crate) fn put_parameters(alloc: Global, text: &str, reply: &mut ReplyText) {
    match FormatParams::parse_line(text).to_format_param(alloc) {
        Ok(params) if params.is_empty() => reply.put("-"),
        Ok(params) => reply.say("", &Joined(params.as_slice(), " ")),
        Err(_) => reply.fail(),
    }
}

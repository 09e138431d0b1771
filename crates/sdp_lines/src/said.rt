//! What texts say, by their accessors.

use sdp_formats::{Candidate, MediaAttribute, MediaLine, Sdp, Session, SimulcastLayer, Text};
use std::alloc::{AllocError, Global};
use words_and_replies::ReplyText;

/// `says NAME`: what each accessor returns of the session, of each section and of the whole text, a line for each that
/// answers something.
pub(crate) fn put_said(alloc: Global, sdp: &Sdp, reply: &mut ReplyText) {
    put_session(alloc, &sdp.session, reply);
    for section in sdp.media_lines.as_slice() {
        put_section(alloc, section, reply);
        put_transport(section, reply);
        put_lists(alloc, section, reply);
        put_count("\n    ", section.ice_candidates(alloc), reply);
    }
    put_whole(sdp, reply);
    put_bundle(sdp, reply);
    put_candidates(alloc, sdp, reply);
}

/// Writes the name and the password of connectivity checks.
fn put_creds(before: &str, creds: Option<(&Text, &Text)>, reply: &mut ReplyText) {
    if let Some((ufrag, pass)) = creds {
        reply.say(before, ufrag);
        reply.say(" ", pass);
    }
}

fn put_session(alloc: Global, session: &Session, reply: &mut ReplyText) {
    put_creds("\n  session: ice ", session.ice_creds(), reply);
    reply.say_some("\n  session: fingerprint ", &session.fingerprint());
    reply.say_some("\n  session: setup ", &session.setup());
    if session.ice_lite() {
        reply.put("\n  session: ice-lite");
    }
    if session.end_of_candidates() {
        reply.put("\n  session: end-of-candidates");
    }
    put_count("\n  session: ", session.ice_candidates(alloc), reply);
}

/// Writes how many candidates there are, if there are some.
fn put_count(before: &str, candidates: Result<Vec<&Candidate>, AllocError>, reply: &mut ReplyText) {
    match candidates {
        Ok(candidates) => {
            if !candidates.is_empty() {
                reply.say(before, &candidates.len());
                reply.put(" candidates");
            }
        }
        Err(_) => reply.fail(),
    }
}

/// What a section says of its name, its direction and its streams.
fn put_section(alloc: Global, section: &MediaLine, reply: &mut ReplyText) {
    reply.put("\n  section");
    reply.say_some(" ", &section.mid());
    reply.say(": direction ", &section.direction());
    reply.say_some("\n    msid ", &section.msid());
    if let Some(simulcast) = section.simulcast() {
        put_layers(alloc, "\n    simulcast send ", &simulcast.send, reply);
        put_layers(alloc, "\n    simulcast recv ", &simulcast.recv, reply);
    }
}

/// The layers of one way of a simulcast, those that aren't active at first after a tilde.
fn put_layers(alloc: Global, before: &str, layers: &[SimulcastLayer], reply: &mut ReplyText) {
    for layer in layers {
        reply.put_printed_or_dash(before, layer.restriction_id.to_sdp(alloc));
    }
}

/// What a section says of its transport.
fn put_transport(section: &MediaLine, reply: &mut ReplyText) {
    put_creds("\n    ice ", section.ice_creds(), reply);
    reply.say_some("\n    fingerprint ", &section.fingerprint());
    reply.say_some("\n    setup ", &section.setup());
    reply.say_some("\n    sctp-init ", &section.sctp_init());
    reply.say_some("\n    max-message-size ", &section.max_message_size());
    if section.end_of_candidates() {
        reply.put("\n    end-of-candidates");
    }
}

/// The header extensions of a section, and the names of its restricted streams, cut as packets have them, and whole.
fn put_lists(alloc: Global, section: &MediaLine, reply: &mut ReplyText) {
    put_extmaps(alloc, section, reply);
    match section.rids(alloc) {
        Ok(rids) => {
            for rid in rids.as_slice() {
                reply.say("\n    rid ", rid);
            }
        }
        Err(_) => reply.fail(),
    }
    for attribute in section.attrs.as_slice() {
        if let MediaAttribute::Rid { id, .. } = attribute {
            reply.put_printed_or_dash("\n    restricted ", id.to_sdp(alloc));
        }
    }
}

fn put_extmaps(alloc: Global, section: &MediaLine, reply: &mut ReplyText) {
    match section.extmaps(alloc) {
        Ok(extmaps) => {
            for (id, ext) in extmaps.as_slice() {
                reply.say("\n    extmap ", id);
                reply.say(" ", ext);
            }
        }
        Err(_) => reply.fail(),
    }
}

fn put_whole(sdp: &Sdp, reply: &mut ReplyText) {
    put_creds("\n  whole: ice ", sdp.ice_creds(), reply);
    reply.say_some("\n  whole: fingerprint ", &sdp.fingerprint());
    reply.say_some("\n  whole: setup ", &sdp.setup());
    reply.say_some("\n  whole: sctp-init ", &sdp.sctp_init());
}

/// The bundled sections of a text.
fn put_bundle(sdp: &Sdp, reply: &mut ReplyText) {
    if let Some(mids) = sdp.bundle_mids() {
        reply.put("\n  whole: bundle");
        for mid in mids {
            reply.say(" ", mid);
        }
    }
}

fn put_candidates(alloc: Global, sdp: &Sdp, reply: &mut ReplyText) {
    match sdp.ice_candidates(alloc) {
        Ok(candidates) => {
            for candidate in candidates.as_slice() {
                reply.say("\n  whole: ", candidate);
            }
        }
        Err(_) => reply.fail(),
    }
}

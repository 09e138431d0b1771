//! Commands on whole session texts.

use sdp_formats::{
    Bandwidth, FaultyLine, MediaAttribute, MediaLine, Sdp, SdpError, Session, SessionAttribute,
    SsrcInfo, faulty_line, sdp_parser, session_parser,
};
use std::alloc::Global;
use words_and_replies::ReplyText;

/// `text NAME`: what a session text has: session attributes, attributes and sources of each section, lines of a form
/// that isn't known, candidates, bundled sections, what its data channels have, and bytes that are left.
pub(crate) fn put_text(alloc: Global, text: &str, reply: &mut ReplyText) {
    match sdp_parser(alloc, text) {
        Ok((sdp, rest)) => {
            put_counts(&sdp.session, rest.len(), reply);
            put_parts(alloc, &sdp, reply);
        }
        Err(error) => put_refusal(error, reply),
    }
}

/// Writes why a text isn't read.
pub(crate) fn put_refusal(error: SdpError, reply: &mut ReplyText) {
    match error {
        SdpError::Memory => reply.fail(),
        _ => reply.put("no session text"),
    }
}

fn put_counts(session: &Session, left: usize, reply: &mut ReplyText) {
    let attributes = session.attrs.as_slice();
    let mut unused = 0usize;
    for attribute in attributes {
        if matches!(attribute, SessionAttribute::Unused(_)) {
            unused = unused.saturating_add(1);
        }
    }
    reply.say("session ", &session.id);
    reply.say(", ", &attributes.len());
    reply.say(" attributes, ", &unused);
    reply.say(" unused, ", &left);
    reply.put(" bytes left");
}

/// What is in the text besides, section by section and as a whole.
fn put_parts(alloc: Global, sdp: &Sdp, reply: &mut ReplyText) {
    for section in sdp.media_lines.as_slice() {
        put_section(section, reply);
        put_sources(alloc, section, reply);
    }
    put_whole(alloc, sdp, reply);
}

fn put_section(section: &MediaLine, reply: &mut ReplyText) {
    let attributes = section.attrs.as_slice();
    let mut unused = 0usize;
    for attribute in attributes {
        if matches!(attribute, MediaAttribute::Unused(_)) {
            unused = unused.saturating_add(1);
        }
    }
    reply.say("\n  section: ", &section.pts.as_slice().len());
    reply.say(" types, ", &attributes.len());
    reply.say(" attributes, ", &unused);
    reply.put(" unused");
}

fn put_sources(alloc: Global, section: &MediaLine, reply: &mut ReplyText) {
    match section.ssrc_info(alloc) {
        Ok(sources) => {
            for source in sources.as_slice() {
                put_source(source, reply);
            }
        }
        Err(_) => reply.fail(),
    }
}

fn put_source(source: &SsrcInfo, reply: &mut ReplyText) {
    reply.say("\n    source ", &source.ssrc);
    reply.say_some(" repairs ", &source.repairs);
    reply.say_some(" of ", &source.cname);
    reply.say_some(" in ", &source.stream_id);
    reply.say_some(" track ", &source.track_id);
}

/// What the text says as a whole.
fn put_whole(alloc: Global, sdp: &Sdp, reply: &mut ReplyText) {
    match sdp.ice_candidates(alloc) {
        Ok(candidates) => reply.say("\n  whole: ", &candidates.len()),
        Err(_) => reply.fail(),
    }
    let bundled = match sdp.bundle_mids() {
        Some(mids) => mids.len(),
        None => 0,
    };
    reply.say(" candidates, ", &bundled);
    reply.put(" bundled, sctp-init ");
    reply.put(match sdp.sctp_init() {
        Some(init) => init.as_str(),
        None => "none",
    });
    match sdp.assert_consistency(alloc) {
        Ok(()) => {}
        Err(SdpError::Memory) => reply.fail(),
        Err(_) => reply.put(", parts apart"),
    }
}

/// `prefixes NAME`: how many prefixes of a text, by bytes, are session texts, and how many not.
pub(crate) fn put_prefixes(alloc: Global, text: &str, reply: &mut ReplyText) {
    let (mut read, mut unread) = (0usize, 0usize);
    for end in 0..text.len().saturating_add(1) {
        let Some(prefix) = text.get(..end) else {
            continue;
        };
        match sdp_parser(alloc, prefix) {
            Ok(_) => read = read.saturating_add(1),
            Err(SdpError::Memory) => return reply.fail(),
            Err(_) => unread = unread.saturating_add(1),
        }
    }
    reply.say("", &read);
    reply.say(" prefixes are session texts, ", &unread);
    reply.put(" are none");
}

/// `faulty NAME`: the line at which a session text can't be read on, and what is wrong there.
pub(crate) fn put_faulty(alloc: Global, text: &str, reply: &mut ReplyText) {
    match faulty_line(alloc, text) {
        Ok(Some(line)) => put_line(&line, reply),
        Ok(None) => reply.put("read to its end"),
        Err(_) => reply.fail(),
    }
}

fn put_line(line: &FaultyLine<'_>, reply: &mut ReplyText) {
    reply.say("line ", &line.number);
    reply.say(": ", &line.fault);
    if !line.text.is_empty() {
        reply.put(": ");
        reply.put(line.text);
    }
}

/// `session NAME`: what is before the first section: number, bandwidth, attributes, and bytes after it.
pub(crate) fn put_session(alloc: Global, text: &str, reply: &mut ReplyText) {
    match session_parser(alloc, text) {
        Ok((session, rest)) => put_header(&session, rest.len(), reply),
        Err(error) => put_refusal(error, reply),
    }
}

fn put_header(session: &Session, left: usize, reply: &mut ReplyText) {
    reply.say("session ", &session.id);
    if let Some(Bandwidth { typ, val }) = &session.bw {
        reply.say(", bandwidth ", typ);
        reply.say(":", val);
    }
    reply.say(", ", &session.attrs.as_slice().len());
    reply.say(" attributes, ", &left);
    reply.put(" bytes left");
}

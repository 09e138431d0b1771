//! Commands on the session texts in files.

use crate::attributes::{put_attributes, put_directed};
use crate::exchanged::{put_answer, put_offer};
use crate::listed::put_listed;
use crate::printed::put_printed;
use crate::said::put_said;
use crate::texts::{put_faulty, put_prefixes, put_refusal, put_session, put_text};
use sdp_formats::{Direction, Parse, Sdp};
use std::alloc::Global;
use std::fs;
use words_and_replies::ReplyText;

/// `COMMAND NAME ..`: the name, and what a command on the session text in the file of that name gives.
pub(crate) fn put_file(
    rt: &HostRuntime,
    command: &str,
    (name, word): (&str, &str),
    reply: &mut ReplyText,
) {
    match fs::read_to_string(rt, name) {
        Ok(text) => {
            reply.put(name);
            reply.put(": ");
            put_command(rt.alloc(), command, word, text.as_str(), reply);
        }
        Err(_) => reply.fault(),
    }
}

/// Writes what a command on a session text gives.
fn put_command(alloc: Global, command: &str, word: &str, text: &str, reply: &mut ReplyText) {
    match command {
        "text" => put_text(alloc, text, reply),
        "prefixes" => put_prefixes(alloc, text, reply),
        "session" => put_session(alloc, text, reply),
        "faulty" => put_faulty(alloc, text, reply),
        "printed" => put_printed(alloc, text, reply),
        "offer" => put_offer(alloc, text, reply),
        "answer" => put_answer(alloc, text, reply),
        _ => match Sdp::parse(alloc, text) {
            Ok(sdp) => put_sections(alloc, command, word, sdp, reply),
            Err(error) => put_refusal(error, reply),
        },
    }
}

/// How many sections a text has, and what a command on what it says gives.
fn put_sections(alloc: Global, command: &str, word: &str, sdp: Sdp, reply: &mut ReplyText) {
    reply.say("", &sdp.media_lines.as_slice().len());
    reply.put(" sections");
    match command {
        "attributes" => put_attributes(alloc, &sdp, reply),
        "listed" => put_listed(alloc, &sdp, reply),
        "says" => put_said(alloc, &sdp, reply),
        _ => put_directed(alloc, sdp, Direction::from(word), reply),
    }
}

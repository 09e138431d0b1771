//! The attributes of sessions and sections, and directions that are changed.

use sdp_formats::{Direction, MediaAttribute, MediaLine, Sdp, Session, SessionAttribute};
use std::alloc::{AllocError, Global};
use words_and_replies::ReplyText;

/// `attributes NAME`: each attribute of the session and of the sections as it is printed, with `unused` in front if
/// it is of no known kind, and a section's line `m=` in front of its attributes.
pub(crate) fn put_attributes(alloc: Global, sdp: &Sdp, reply: &mut ReplyText) {
    put_session(alloc, &sdp.session, reply);
    for section in sdp.media_lines.as_slice() {
        put_head(section.to_string(alloc), reply);
        put_section(alloc, section, reply);
    }
}

fn put_session(alloc: Global, session: &Session, reply: &mut ReplyText) {
    for attribute in session.attrs.as_slice() {
        let is_unused = matches!(attribute, SessionAttribute::Unused(_));
        put_line(indent(is_unused), attribute.to_string(alloc), reply);
    }
}

/// The first line of a section.
fn put_head(section: Result<String, AllocError>, reply: &mut ReplyText) {
    match section {
        Ok(section) => reply.say_some("\n  ", &section.as_str().lines().next()),
        Err(_) => reply.fail(),
    }
}

fn put_section(alloc: Global, section: &MediaLine, reply: &mut ReplyText) {
    for attribute in section.attrs.as_slice() {
        let is_unused = matches!(attribute, MediaAttribute::Unused(_));
        put_line(indent(is_unused), attribute.to_string(alloc), reply);
    }
}

/// What is in front of an attribute, of a known kind or not.
fn indent(is_unused: bool) -> &'static str {
    if is_unused { "\n    unused " } else { "\n    " }
}

/// Writes an attribute without its line end after a text, or a dash for one of nothing.
fn put_line(before: &str, line: Result<String, AllocError>, reply: &mut ReplyText) {
    reply.put(before);
    match line {
        Ok(line) => reply.put_or_dash(without_end(line.as_str())),
        Err(_) => reply.fail(),
    }
}

fn without_end(line: &str) -> &str {
    match line.strip_suffix("\r\n") {
        Some(line) => line,
        None => line,
    }
}

/// `directed NAME DIRECTION`: the directions of the sections, and the lines that give them, once each section that has
/// such a line was given this direction.
pub(crate) fn put_directed(alloc: Global, sdp: Sdp, direction: Direction, reply: &mut ReplyText) {
    for section in sdp.media_lines.into_vec().iter_mut() {
        turn(alloc, section, direction);
        put_direction(alloc, section, reply);
    }
}

/// Gives a section another direction, if it gives one.
fn turn(alloc: Global, section: &mut MediaLine, direction: Direction) {
    if section.has_direction() {
        section.set_direction(alloc, direction);
    }
}

fn put_direction(alloc: Global, section: &MediaLine, reply: &mut ReplyText) {
    reply.say("\n  section: ", &section.direction());
    for attribute in section.attrs.as_slice() {
        if attribute.is_direction() {
            put_line(" ", attribute.to_string(alloc), reply);
        }
    }
}

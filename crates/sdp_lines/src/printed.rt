//! Session texts as they are printed, read again and copied.

use crate::texts::put_refusal;
use sdp_formats::{Parse, Sdp, SdpError, sdp_parser};
use std::alloc::Global;
use words_and_replies::ReplyText;

/// `printed NAME`: how many lines are printed unchanged, whether the printed text is read
/// completely and prints the same, and whether reading the text again and copying it give the same
/// value.
pub(crate) fn put_printed(alloc: Global, text: &str, reply: &mut ReplyText) {
    match sdp_parser(alloc, text) {
        Ok((sdp, _)) => {
            put_kept(alloc, text, &sdp, reply);
            put_again(alloc, text, &sdp, reply);
        }
        Err(error) => put_refusal(error, reply),
    }
}

/// How many lines are printed as they stood, and whether the printed text is read whole, and printed as it is.
fn put_kept(alloc: Global, text: &str, sdp: &Sdp, reply: &mut ReplyText) {
    match sdp.to_sdp_string(alloc) {
        Ok(printed) => {
            let printed = printed.as_str();
            reply.say("", &kept_lines(text, printed));
            reply.say(" of ", &printed.lines().count());
            reply.put(" lines as they stood, read again ");
            put_likeness(alloc, printed, reply);
        }
        Err(_) => reply.fail(),
    }
}

/// Lines of the printed text that are lines of the text that was read.
fn kept_lines(text: &str, printed: &str) -> usize {
    let mut kept = 0usize;
    for line in printed.lines() {
        if has_line(text, line) {
            kept = kept.saturating_add(1);
        }
    }
    kept
}

/// Whether a text has such a line.
fn has_line(text: &str, line: &str) -> bool {
    for other in text.lines() {
        if other == line {
            return true;
        }
    }
    false
}

/// Whether a printed text is read whole, and printed as it is. One of a section that isn't printable may be none.
fn put_likeness(alloc: Global, printed: &str, reply: &mut ReplyText) {
    match is_read_alike(alloc, printed) {
        Ok(true) => reply.put("alike"),
        Err(SdpError::Memory) => reply.fail(),
        _ => reply.put("otherwise"),
    }
}

fn is_read_alike(alloc: Global, printed: &str) -> Result<bool, SdpError> {
    let (sdp, rest) = sdp_parser(alloc, printed)?;
    Ok(rest.is_empty() && sdp.to_sdp_string(alloc)?.as_str() == printed)
}

/// Whether the text is read by itself as the same value, of which a copy is the same.
fn put_again(alloc: Global, text: &str, sdp: &Sdp, reply: &mut ReplyText) {
    match Sdp::parse(alloc, text) {
        Ok(again) => reply.say(", the same ", &(again == *sdp)),
        Err(error) => put_refusal(error, reply),
    }
    match sdp.clone(alloc) {
        Ok(copy) => reply.say(", a copy the same ", &(copy == *sdp)),
        Err(_) => reply.fail(),
    }
}

//! What came of a line, in words.

ghost use Rattle.std.specs.Prelude.{◌≡◌, OnErr, OnOk};
ghost use Rattle.std.specs.Str.Lines.{lines};
ghost use Rattle.rtp_media_program.specs.Answered.{NotesFirst};
ghost use Rattle.rtp_media_program.specs.ExplainedLines.{text_of};
ghost use Rattle.rtp_media_program.specs.Noted.{noted_all};

use crate::forms::FORMS;
use crate::known::Known;
use crate::lines::text_of;
use crate::reasons::reason_for;
use std::alloc::{AllocError, Global};
use words_and_replies::ReplyText;

/// What came of a line, in words, each line of it with its line feed: the line with its number, the replies to it and
/// why where they say no, and what became before of an end that it makes anew. Notes the replies. After `help` are
/// the forms of all lines.
///
/// # Errors
/// If memory runs out, or what follows a reply `text` isn't hexadecimal digits. A front of the replies is
/// noted then, perhaps none or all.
pub fn explain(
    alloc: Global,
    known: &mut Known,
    number: u64,
    line: &[u8],
    replies: &[u8],
) -> Result<String, AllocError>
    ensures noted { OnOk result (known.new
        ≡ noted_all known.old (text_of line.now) (lines (text_of replies.now))) }
    ensures stopped { OnErr result (NotesFirst known.old known.new (text_of line.now)
        (lines (text_of replies.now))) }
{
    let mut said = ReplyText::new(alloc);
    let text = text_of(line);
    said.say("", &number);
    put_line(" ", text, &mut said);
    if text == "help" {
        put_lines("  ", FORMS, &mut said);
    }
    for reply in text_of(replies).lines() {
        put_reply(alloc, reply, &mut said);
        put_about(known, number, line, reply, &mut said);
        known.note(alloc, text, reply)?;
    }
    said.finish()
}

/// Writes a reply, and the text of an offer or an answer line by line.
fn put_reply(alloc: Global, reply: &str, said: &mut ReplyText) {
    let Some(digits) = reply.strip_prefix("text ") else {
        return put_line("  ", reply, said);
    };
    put_line("  ", "text", said);
    match hex::decode(alloc, digits) {
        Ok(text) => put_lines("    ", text_of(&text), said),
        Err(_) => said.fail(),
    }
}

/// Writes why a reply is negative, if it is, and what became of an end that the line replaces.
fn put_about(known: &Known, number: u64, line: &[u8], reply: &str, said: &mut ReplyText) {
    if let Some(reason) = reason_for(known, line, reply) {
        said.say("  line ", &number);
        said.say(": ", &reason);
        said.put("\n");
    }
    said.say_some("", &known.replaced(text_of(line), reply));
}

/// Writes the lines of a text, each after some blanks.
fn put_lines(blanks: &str, text: &str, said: &mut ReplyText) {
    for line in text.lines() {
        put_line(blanks, line, said);
    }
}

fn put_line(blanks: &str, line: &str, said: &mut ReplyText) {
    said.put(blanks);
    said.put(line);
    said.put("\n");
}

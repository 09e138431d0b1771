//! Texts in replies.

use crate::call::CallError;
use words_and_replies::ReplyText;

/// The lines of a text, each indented by two blanks.
pub(crate) fn put_text(text: &str, reply: &mut ReplyText) {
    for line in text.lines() {
        reply.put("\n  ");
        reply.put(line);
    }
}

/// The lines of a text, or why there is none.
pub(crate) fn put_result(text: Result<String, CallError>, reply: &mut ReplyText) {
    match text {
        Ok(text) => put_text(text.as_str(), reply),
        Err(error) => reply.say("\n  refused: ", &error),
    }
}

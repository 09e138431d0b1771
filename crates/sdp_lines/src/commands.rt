//! The commands.

use crate::files::put_file;
use crate::rows::{Rows, put_rows};
use crate::single_rows::{put_equality, put_feedback, put_score};
use crate::values::{put_candidate, put_fingerprint, put_format, put_parameters, put_setup};
use std::alloc::{AllocError, Global};
use words_and_replies::{ReplyText, parted};

/// What a line gives, by the rows that those before it left.
pub(crate) fn answer(rt: &HostRuntime, rows: &mut Rows, line: &str) -> Result<String, AllocError> {
    let mut reply = ReplyText::new(rt.alloc());
    let (command, rest) = parted(line);
    match command {
        "" | "#" => reply.put(line),
        "text"
        | "prefixes"
        | "session"
        | "faulty"
        | "printed"
        | "offer"
        | "answer"
        | "attributes"
        | "directed"
        | "listed"
        | "says" => put_file(rt, command, parted(rest), &mut reply),
        "candidate" => put_candidate(rt.alloc(), rest, &mut reply),
        "fingerprint" => put_fingerprint(rt.alloc(), rest, &mut reply),
        "format" => put_format(rt.alloc(), rest, &mut reply),
        "parameters" => put_parameters(rt.alloc(), rest, &mut reply),
        "setup" => put_setup(parted(rest), &mut reply),
        _ => {
            let words: Vec<&str> = rest.split_whitespace().collect(rt.alloc())?;
            put_of_rows(rt.alloc(), rows, command, words.as_slice(), &mut reply);
        }
    }
    reply.finish()
}

/// Writes what a command on rows gives, or the word `fault` if it isn't understood.
fn put_of_rows(
    alloc: Global,
    rows: &mut Rows,
    command: &str,
    words: &[&str],
    reply: &mut ReplyText,
) {
    let understood = match command {
        "score" => put_score(words, reply),
        "feedback" => put_feedback(words, reply),
        "equal" => put_equality(words, reply),
        _ => put_rows(alloc, rows, command, words, reply),
    };
    if understood.is_none() {
        reply.fault();
    }
}

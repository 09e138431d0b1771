//! Commands on the rows of two ends.

use crate::configs::{add_video, enable, put_distances};
use crate::rounds::{put_own_rows, put_round};
use crate::words::{row_of, spec_of, type_of};
use sdp_formats::{CodecConfig, Direction};
use std::alloc::{AllocError, Global};
use words_and_replies::ReplyText;

/// Whether there was memory for a change of rows; none if the line isn't understood.
pub(crate) type Change = Option<Result<(), AllocError>>;

/// The rows that a round is run on: those of an end, and those of the other end.
#[derive(Drop)]
pub(crate) struct Rows {
    own: CodecConfig,
    remote: CodecConfig,
}

impl Rows {
    /// No rows at either end.
    pub(crate) fn new(alloc: Global) -> Self {
        Rows {
            own: CodecConfig::empty(alloc),
            remote: CodecConfig::empty(alloc),
        }
    }
}

/// Writes what a command gives with the words after it; none if the line isn't understood.
pub(crate) fn put_rows(
    alloc: Global,
    rows: &mut Rows,
    command: &str,
    words: &[&str],
    reply: &mut ReplyText,
) -> Option<()> {
    match command {
        "distances" => put_distances(alloc, &mut rows.own, words, reply),
        "find" => put_found(&rows.own, words, reply),
        "rows" => Some(put_own_rows(alloc, rows.own.params(), reply)),
        "round" => {
            let dir = Direction::from(*words.first()?);
            Some(put_round(alloc, &mut rows.own, rows.remote.params(), dir, reply))
        }
        _ => Some(put_change(change(alloc, rows, command, words)?, reply)),
    }
}

/// Writes that a change was made, if there was memory for it.
fn put_change(change: Result<(), AllocError>, reply: &mut ReplyText) {
    match change {
        Ok(()) => reply.put("ok"),
        Err(_) => reply.fail(),
    }
}

/// Rows put after the others or in place of some, or none left.
fn change(alloc: Global, rows: &mut Rows, command: &str, words: &[&str]) -> Change {
    match command {
        "own" | "locked" | "remote" => return push(rows, command, words),
        "enable" | "disable" => return enable(&mut rows.own, command == "enable", words),
        "add" => return add(&mut rows.own, words),
        "video" => return add_video(&mut rows.own, words),
        "defaults" => match CodecConfig::new_with_defaults(alloc) {
            Ok(config) => rows.own = config,
            Err(fault) => return Some(Err(fault)),
        },
        "fresh" => *rows = Rows::new(alloc),
        "clear" => rows.own.clear(),
        "other" => rows.remote.clear(),
        _ => return None,
    }
    Some(Ok(()))
}

/// `own ROW`, `locked ROW` and `remote ROW`: a row after the own ones, locked or not, or after the other end's.
fn push(rows: &mut Rows, command: &str, words: &[&str]) -> Change {
    let mut row = row_of(words)?;
    if command == "locked" {
        row.lock();
    }
    Some(if command == "remote" {
        rows.remote.push(row)
    } else {
        rows.own.push(row)
    })
}

/// `add TYPE SPEC`: a new row of a codec after the others.
fn add(config: &mut CodecConfig, words: &[&str]) -> Change {
    let [pt, spec @ ..] = words else {
        return None;
    };
    let pt = type_of(pt)?;
    let spec = spec_of(spec)?;
    Some(config.add_config(
        pt,
        None,
        spec.codec,
        spec.clock_rate,
        spec.channels,
        spec.format,
    ))
}

/// `find TYPE`: the codec of the first own row of a type.
fn put_found(config: &CodecConfig, words: &[&str], reply: &mut ReplyText) -> Option<()> {
    let pt = type_of(words.first()?)?;
    match config.find(|row| row.pt() == pt) {
        Some(row) => reply.say("", &row.spec().codec),
        None => reply.put("none"),
    }
    Some(())
}

//! Answers commands about SDP in files, single values, and rows, rounds and configs, one line of
//! standard input at a time. Its transcript covers SDP of browsers and in the style of other
//! programs, hand-written SDP with every kind of line and every number at its limits, rows, and the
//! results of rounds. The expected answers were worked out independently of the project.
#![tactic(auto)]

mod attributes;
mod commands;
mod configs;
mod exchanged;
mod files;
mod listed;
mod printed;
mod rounds;
mod rows;
mod said;
mod single_rows;
mod texts;
mod values;
mod words;

use commands::answer;
use rows::Rows;
use std::io;

/// Answers each line by a line or, for a session text, by several: a comment by itself, a command by what it gives, and
/// a line that isn't understood, or whose file can't be read, by the word `fault`.
fn main(rt: HostRuntime) -> io::Result<()> {
    let mut rows = Rows::new(rt.alloc());
    let text = io::read_to_string(rt.alloc(), rt.reader())?;
    for line in text.as_str().lines() {
        let reply = answer(&rt, &mut rows, line)?;
        println!(rt; "{reply}")?;
    }
    Ok(())
}

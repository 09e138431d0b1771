//! Answers questions about headers, their extensions and padding, and about numbers, windows, clock
//! rates and times, one line of standard input at a time. Its transcript compares the results with
//! data made by other programs.
#![tactic(auto)]

mod commands;
mod headers;
mod numbers;
mod times;

use commands::{Kept, answer};
use std::io;
use words_and_replies::CommandLine;

/// Answers each line by a line: a comment by itself, a command by what it gives, and another line, or a value that is
/// refused, by the word `fault` and the reason.
fn main(rt: HostRuntime) -> io::Result<()> {
    let mut kept = Kept::new();
    let text = io::read_to_string(rt.alloc(), rt.reader())?;
    for whole in text.as_str().lines() {
        let mut line = CommandLine::new(rt.alloc(), whole);
        answer(&mut line, &mut kept);
        let shown = line.answer();
        println!(rt; "{shown}")?;
    }
    Ok(())
}

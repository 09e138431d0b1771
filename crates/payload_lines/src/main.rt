//! Packs samples and reads packets of each codec, and answers questions about fields inside
//! payloads and about units, headers, profiles and levels of H.264, H.265 and H.266, one line of
//! standard input at a time. Its transcript compares the results with data made by other programs.
#![tactic(auto)]

mod boxed;
mod commands;
mod events;
mod formats;
mod info;
mod profiles;
mod redundancy;
mod samples;
mod units;
mod vp8;

use commands::{Kept, answer};
use std::io;
use words_and_replies::CommandLine;

/// Answers each line by a line: a comment by itself, a command by what it gives, and another line, or what is refused,
/// by the word `fault` and the reason.
fn main(rt: HostRuntime) -> io::Result<()> {
    let mut kept = Kept::new(rt.alloc())?;
    let text = io::read_to_string(rt.alloc(), rt.reader())?;
    for whole in text.as_str().lines() {
        let mut line = CommandLine::new(rt.alloc(), whole);
        answer(&mut line, &mut kept);
        let shown = line.answer();
        println!(rt; "{shown}")?;
    }
    Ok(())
}

//! Makes calls that no line of a program makes, prints the word `memory` when one is refused for
//! lack of memory, repeats it, and prints the result. If memory is ample, no such word is printed;
//! `tests/refused_allocations.py` makes each allocation fail in turn, and compares all other lines. With
//! the argument `streams` it runs lines whose reads and writes fail.
#![tactic(auto)]

mod asking;
mod ends;
mod failing;
mod hearing;
mod rows;
mod runs;
mod texts;

use std::env;
use std::process::ExitCode;

/// Status 1 if a call is refused for another reason, or again.
fn main(rt: HostRuntime) -> ExitCode {
    let done = if wants_streams(&rt) {
        runs::print_runs(&rt)
    } else {
        print_calls(&rt)
    };
    match done {
        Some(()) => ExitCode::from(0),
        None => ExitCode::from(1),
    }
}

/// Whether there is an argument, which is taken for `streams`.
fn wants_streams(rt: &HostRuntime) -> bool {
    match env::args(rt) {
        Ok(words) => words.count() > 1,
        Err(_) => false,
    }
}

fn print_calls(rt: &HostRuntime) -> Option<()> {
    texts::print_offer(rt)?;
    rows::print_rounds(rt)?;
    rows::print_json(rt)?;
    hearing::print_heard(rt)?;
    ends::print_agreement(rt)
}

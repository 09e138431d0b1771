//! Code to copy, a module for each piece, whose first lines name the crates that it uses. Standard input has parts with
//! an empty line between, each after a line `== NAME`; no line of a part begins so. What comes of a part is printed
//! after the same line.
//!
//! - `recorder`: datagrams in hexadecimal, a line each, of which those of SSRC 44 and payload type 96 are VP8, into
//!   frames (`recorder`, `recording`)
//! - `lossy link`: nothing; frames over a link that loses packets (`lossy_link`)
//! - `captures`: captures of browsers in data/, a line each, `FILE CODEC TYPE [REDTYPE]`, into units (`captures`)
//! - `offer`: an offer, into its sections with their rows and candidates (`offer`)
//! - `browser`: a browser's offer of audio and data, which an end answers (`browser`)
#![tactic(auto)]

mod browser;
mod capture;
mod captured_stream;
mod captures;
mod lossy_link;
mod offer;
mod recorder;
mod recording;

use anyhow::bail;
use std::io;

fn main(rt: HostRuntime) -> anyhow::Result<()> {
    let text = io::read_to_string(rt.alloc(), rt.reader())?;
    for part in text.as_str().split("\n== ") {
        run(&rt, part.strip_prefix("== ").unwrap_or(part))?;
    }
    Ok(())
}

/// Runs the example whose name is the first line, on the lines after it.
fn run(rt: &HostRuntime, part: &str) -> anyhow::Result<()> {
    let (name, lines) = part.split_once('\n').unwrap_or((part, ""));
    println!(*rt; "== {name}")?;
    match name {
        "recorder" => recording::record(rt, lines),
        "lossy link" => lossy_link::lossy_link(rt),
        "captures" => captures::report(rt, lines),
        "offer" => offer::print_offer(rt, lines),
        "browser" => browser::print_answer(rt, lines),
        _ => bail!("no example of this name"),
    }
}

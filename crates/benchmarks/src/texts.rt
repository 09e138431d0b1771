//! Session texts read and printed.

use crate::measured::{Round, measure};
use crate::tally::Tally;
use sdp_formats::{Sdp, sdp_parser};
use std::alloc::Global;
use std::fmt::Display;
use std::io;

/// How often each thing is done.
const ROUNDS: u32 = 500;

/// A session text that is read.
#[derive(Drop)]
struct Reading<'a> {
    text: &'a str,
}

/// Counts sections, and the bytes of the text.
impl Round for Reading<'_> {
    ghost use Rattle.benchmarks.specs.Texts.{CountsSections};

    ghost counts = { CountsSections };

    fn round(&mut self, alloc: Global, _number: u32, tally: &mut Tally) {
        if let Ok((sdp, _)) = sdp_parser(alloc, self.text) {
            tally.add(sdp.media_lines.as_slice().len(), self.text.len());
        }
    }
}

/// A session text that is printed.
#[derive(Drop)]
struct Printing<'a> {
    sdp: &'a Sdp,
}

/// Counts texts, and their bytes.
impl Round for Printing<'_> {
    ghost use Rattle.benchmarks.specs.Texts.{CountsPrinted};

    ghost counts = { CountsPrinted ⟦<Sdp as Display>⟧.output };

    fn round(&mut self, alloc: Global, _number: u32, tally: &mut Tally) {
        if let Ok(text) = self.sdp.to_sdp_string(alloc) {
            tally.add(1, text.len());
        }
    }
}

/// The session text of standard input, read and printed.
pub(crate) fn measure_all(rt: &HostRuntime) -> io::Result<()> {
    let text = io::read_to_string(rt.alloc(), rt.reader())?;
    let text = text.as_str();
    match sdp_parser(rt.alloc(), text) {
        Ok((sdp, _)) => both_ways(rt, text, &sdp),
        Err(_) => Err(io::Error::other("standard input is no session text")),
    }
}

/// A session text read, and what was read of it printed.
fn both_ways(rt: &HostRuntime, text: &str, sdp: &Sdp) -> io::Result<()> {
    let read = measure(rt, "text", "read", &mut Reading { text }, ROUNDS)?;
    println!(*rt; "sections: {}\nread: {} bytes", read.packets, read.bytes)?;
    let printed = measure(rt, "text", "printed", &mut Printing { sdp }, ROUNDS)?;
    println!(*rt; "printed: {} bytes", printed.bytes)
}

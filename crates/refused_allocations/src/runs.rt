//! Runs of a hundred lines whose reads or writes fail.

use crate::failing::{Endless, Sink, Source};
use rtp_media::{RunFault, Status, run};
use std::alloc::{AllocError, Global};

/// A place that no run comes to.
const NEVER: usize = usize::MAX;

/// A hundred lines: two ends and their streams, then samples and polls.
fn lines(alloc: Global) -> Result<Vec<u8>, AllocError> {
    let mut text = Vec::new(alloc);
    text.extend_from_slice(
        b"fixed a\nfixed b\nsend a 0 44 111 0 2 1400 - -\nopen b 0 44 111 1023\n",
    )?;
    for _ in 0..32usize {
        text.extend_from_slice(
            b"sample a 0 960 010203\nreceive b 806f0000000003c00000002c01\npoll b 0\n",
        )?;
    }
    Ok(text)
}

/// What a run over lines comes to, and what went out.
fn ran(
    alloc: Global,
    text: &[u8],
    most_read: usize,
    fails_to_read: usize,
    most_written: usize,
    fails_to_write: usize,
) -> (Result<Status, RunFault>, Vec<u8>) {
    let mut source = Source {
        rest: text,
        most: most_read,
        fails_in: fails_to_read,
    };
    let mut sink = Sink {
        taken: Vec::new(alloc),
        most: most_written,
        fails_in: fails_to_write,
    };
    let result = run(alloc, &mut source, &mut sink);
    (result, sink.taken)
}

/// Prints how each kind of run went; none if one went otherwise than it must.
pub(crate) fn print_runs(rt: &HostRuntime) -> Option<()> {
    let alloc = rt.alloc();
    let text = lines(alloc).ok()?;
    let (result, whole) = ran(alloc, &text, NEVER, NEVER, NEVER, NEVER);
    let whole_is_right = result == Ok(Status::Success) && whole.ends_with(b"\n");
    print_whether(rt, "the whole run", whole_is_right)?;
    let short = ran(alloc, &text, NEVER, NEVER, 1, NEVER);
    let is_same = short.0 == Ok(Status::Success) && short.1.as_slice() == whole.as_slice();
    print_whether(rt, "a byte a write", is_same)?;
    print_reads(rt, &text, &whole)?;
    print_writes(rt, &text, &whole)?;
    print_whether(rt, "one byte without end", ends_by_reads(alloc, b'a'))?;
    print_whether(rt, "blank lines without end", ends_by_reads(alloc, b'\n'))
}

fn print_whether(rt: &HostRuntime, name: &str, holds: bool) -> Option<()> {
    let word = if holds { "ok" } else { "wrong" };
    let _ = println!(*rt; "{name}: {word}");
    if holds { Some(()) } else { None }
}

/// Makes each read fail in turn, at 16 bytes a read, until a run meets no failing read.
fn print_reads(rt: &HostRuntime, text: &[u8], whole: &[u8]) -> Option<()> {
    let mut faults: usize = 0;
    for place in 0..=text.len() {
        let (result, out) = ran(rt.alloc(), text, 16, place, NEVER, NEVER);
        match result {
            Err(RunFault::Read) if whole.starts_with(&out) => faults = faults.saturating_add(1),
            Ok(Status::Success) if out.as_slice() == whole => {
                let _ = println!(*rt; "{faults} reads that fail");
                return print_whether(rt, "reads that fail", faults > 100);
            }
            _ => return print_whether(rt, "reads that fail", false),
        }
    }
    None
}

/// Each write fails in turn, of at most 16 bytes.
fn print_writes(rt: &HostRuntime, text: &[u8], whole: &[u8]) -> Option<()> {
    let mut faults: usize = 0;
    for place in 0..=whole.len() {
        let (result, out) = ran(rt.alloc(), text, NEVER, NEVER, 16, place);
        match result {
            Err(RunFault::Write) if whole.starts_with(&out) => faults = faults.saturating_add(1),
            Ok(Status::Success) if out.as_slice() == whole => {
                let _ = println!(*rt; "{faults} writes that fail");
                return print_whether(rt, "writes that fail", faults > 100);
            }
            _ => return print_whether(rt, "writes that fail", false),
        }
    }
    None
}

/// Whether an input of one byte a read, without end, stops at the most reads.
fn ends_by_reads(alloc: Global, byte: u8) -> bool {
    let mut source = Endless { byte };
    let mut sink = Sink {
        taken: Vec::new(alloc),
        most: NEVER,
        fails_in: NEVER,
    };
    let result = run(alloc, &mut source, &mut sink);
    result == Err(RunFault::Read) && sink.taken.len() <= 16
}

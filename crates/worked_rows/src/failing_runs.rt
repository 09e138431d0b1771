//! Runs of lines whose reader or writer fails, or whose input takes more reads than it may, and what is to come of
//! each.

use rtp_media_program::{Command, Reply, Respond, RunFault, Status, run_within};
use std::alloc::{AllocError, Global};
use std::io;
use std::io::{ErrorKind, Read, Write};

/// More reads than any run here makes.
const MANY: usize = 1_000;

/// Replies `ok` to each command.
#[derive(Drop)]
struct Agreeing;

impl Respond for Agreeing {
    ghost gives = { λ _ _ _ _. Unit {0} };

    fn respond(&mut self, alloc: Global, _command: Command) -> Result<Vec<Reply>, AllocError> {
        Ok(vec![in alloc; Reply::Done]?)
    }
}

/// Gives its bytes in pieces of 3, and then ends, or fails.
#[derive(Drop)]
struct Source<'a> {
    rest: &'a [u8],
    fails: bool,
}

impl Read for Source<'_> {
    fn read(&mut self, buf: &mut [u8]) -> io::Result<usize> {
        let count = buf.len().min(self.rest.len()).min(3);
        if count == 0 && self.fails {
            return Err(io::Error::from(ErrorKind::ConnectionReset));
        }
        buf[..count].copy_from_slice(&self.rest[..count]);
        self.rest = &self.rest[count..];
        Ok(count)
    }
}

/// Takes up to 3 bytes a write, and fails, or takes none, once it holds `room` bytes.
#[derive(Drop)]
struct Sink {
    taken: Vec<u8>,
    room: usize,
    fails: bool,
}

impl Write for Sink {
    fn write(&mut self, buf: &[u8]) -> io::Result<usize> {
        let left = self.room.saturating_sub(self.taken.len());
        if left == 0 && self.fails {
            return Err(io::Error::from(ErrorKind::BrokenPipe));
        }
        let count = buf.len().min(left).min(3);
        self.taken.extend_from_slice(&buf[..count])?;
        Ok(count)
    }

    fn flush(&mut self) -> io::Result<()> {
        Ok(())
    }
}

/// Lines, how often they are read and whether reads fail after them, how much is written and whether writes fail then,
/// and what is to come of it.
struct Run {
    lines: &'static [u8],
    reads: usize,
    fails_to_read: bool,
    room: usize,
    fails_to_write: bool,
    result: Result<Status, RunFault>,
    written: &'static [u8],
}

/// A failing read, a failing write, or a write that takes nothing ends a run; what was written
/// before stays.
static FAILING: [Run; 3] = [
    Run {
        lines: b"fixed a\nfixed b",
        reads: MANY,
        fails_to_read: true,
        room: usize::MAX,
        fails_to_write: false,
        result: Err(RunFault::Read),
        written: b"ok\n",
    },
    Run {
        lines: b"fixed a\nfixed b\n",
        reads: MANY,
        fails_to_read: false,
        room: 5,
        fails_to_write: true,
        result: Err(RunFault::Write),
        written: b"ok\nok",
    },
    Run {
        lines: b"fixed a\nfixed b\n",
        reads: MANY,
        fails_to_read: false,
        room: 5,
        fails_to_write: false,
        result: Err(RunFault::Write),
        written: b"ok\nok",
    },
];

/// An input that takes more reads than it may ends a run as a read that fails does, and not one that takes just these.
static READS: [Run; 2] = [
    Run {
        lines: b"fixed a\n",
        reads: 4,
        fails_to_read: false,
        room: usize::MAX,
        fails_to_write: false,
        result: Ok(Status::Success),
        written: b"ok\n",
    },
    Run {
        lines: b"fixed a\n",
        reads: 3,
        fails_to_read: false,
        room: usize::MAX,
        fails_to_write: false,
        result: Err(RunFault::Read),
        written: b"ok\n",
    },
];

/// Whether what is to come of each run comes of it.
fn all_go_so(alloc: Global, runs: &[Run]) -> bool {
    for run in runs {
        let mut source = Source {
            rest: run.lines,
            fails: run.fails_to_read,
        };
        let mut sink = Sink {
            taken: Vec::new(alloc),
            room: run.room,
            fails: run.fails_to_write,
        };
        let result = run_within(alloc, run.reads, &mut source, &mut sink, &mut Agreeing);
        if result != run.result || sink.taken.as_slice() != run.written {
            return false;
        }
    }
    true
}

/// Prints whether what is to come of the runs comes of them, and returns it.
pub(crate) fn print_runs(rt: &HostRuntime) -> bool {
    let fail = all_go_so(rt.alloc(), &FAILING);
    let _ = println!(*rt; "reads and writes that fail: {}", word_of(fail));
    let read = all_go_so(rt.alloc(), &READS);
    let _ = println!(*rt; "an input that takes more reads: {}", word_of(read));
    fail && read
}

fn word_of(is_right: bool) -> &'static str {
    if is_right { "ok" } else { "wrong" }
}

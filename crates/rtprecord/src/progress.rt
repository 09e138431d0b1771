//! How far reading is, told on a terminal.

use crate::recorder::Recorder;
use std::io;
use std::io::IsTerminal;

/// How far reading is.
#[derive(Clone, Copy)]
pub(crate) struct Progress {
    /// Whether there is somebody to tell.
    is_told: bool,
    bytes: u64,
}

impl Progress {
    /// The start of a file.
    pub(crate) fn new(rt: &HostRuntime) -> Progress {
        Progress {
            is_told: rt.stderr().is_terminal(),
            bytes: 0,
        }
    }

    /// Tells how many bytes are read, these with them, and what they held.
    pub(crate) fn tell(
        &mut self,
        rt: &HostRuntime,
        bytes: usize,
        recorder: &Recorder,
    ) -> io::Result<()> {
        self.bytes = self.bytes.saturating_add(bytes as u64);
        if !self.is_told {
            return Ok(());
        }
        let (megabytes, datagrams) = (self.bytes / 1_000_000, recorder.datagrams);
        let streams = recorder.streams.len();
        eprint!(*rt; "\r{megabytes} MB, {datagrams} datagrams, {streams} streams")
    }

    /// Ends the line.
    pub(crate) fn end(&self, rt: &HostRuntime) -> io::Result<()> {
        if !self.is_told {
            return Ok(());
        }
        eprintln!(*rt; "")
    }
}

//! Readers and writers that fail.

use std::io;
use std::io::{ErrorKind, Read, Write};

/// Gives its bytes, at most so many a read, and fails at the read of a place, counted from 0.
#[derive(Drop)]
pub(crate) struct Source<'a> {
    pub(crate) rest: &'a [u8],
    pub(crate) most: usize,
    pub(crate) fails_in: usize,
}

impl Read for Source<'_> {
    fn read(&mut self, buf: &mut [u8]) -> io::Result<usize> {
        if self.fails_in == 0 {
            return Err(io::Error::from(ErrorKind::ConnectionReset));
        }
        self.fails_in -= 1;
        let count = buf.len().min(self.rest.len()).min(self.most);
        buf[..count].copy_from_slice(&self.rest[..count]);
        self.rest = &self.rest[count..];
        Ok(count)
    }
}

/// Gives one byte a read, without end.
#[derive(Drop)]
pub(crate) struct Endless {
    pub(crate) byte: u8,
}

impl Read for Endless {
    fn read(&mut self, buf: &mut [u8]) -> io::Result<usize> {
        if buf.is_empty() {
            return Ok(0);
        }
        buf[0] = self.byte;
        Ok(1)
    }
}

/// Takes bytes, at most so many a write, and fails at the write of a place, counted from 0.
#[derive(Drop)]
pub(crate) struct Sink {
    pub(crate) taken: Vec<u8>,
    pub(crate) most: usize,
    pub(crate) fails_in: usize,
}

impl Write for Sink {
    fn write(&mut self, buf: &[u8]) -> io::Result<usize> {
        if self.fails_in == 0 {
            return Err(io::Error::from(ErrorKind::BrokenPipe));
        }
        self.fails_in -= 1;
        let count = buf.len().min(self.most);
        self.taken.extend_from_slice(&buf[..count])?;
        Ok(count)
    }

    fn flush(&mut self) -> io::Result<()> {
        Ok(())
    }
}

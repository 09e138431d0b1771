//! The units of a stream, put away in a file until the stream ends.

use std::alloc::{AllocError, Global};
use std::fs::{File, OpenOptions};
use std::io::{BufReader, ErrorKind, Read, Write};
use std::{fs, io};

// How many bytes of units wait in memory for the file.
const MOST_WAITING: usize = 65536;

// How many bytes are in front of each unit: its time, whether it is a key frame, its length.
const FRONT: usize = 9;

/// A unit of a stream.
#[derive(Drop)]
pub(crate) struct Unit {
    pub(crate) time: u32,
    /// Whether it can be decoded alone.
    pub(crate) is_key: bool,
    pub(crate) bytes: Vec<u8>,
}

/// The units of a stream.
#[derive(Drop)]
pub(crate) struct Units {
    alloc: Global,
    /// Whether they are kept, or only counted.
    is_kept: bool,
    /// How many they are.
    pub(crate) count: u64,
    /// The times of the first and of the last.
    pub(crate) first: Option<u32>,
    pub(crate) last: u32,
    /// The file that has the first of them, and how many it has.
    file: Option<String>,
    in_file: u64,
    /// The others, each after what is in front of it.
    waiting: Vec<u8>,
    /// Why they couldn't be put away.
    fault: Option<io::Error>,
}

/// The files of units, in a folder that other runs may have theirs in.
#[derive(Drop)]
pub(crate) struct UnitFiles {
    folder: String,
    /// The number of the next name that is tried.
    next: u64,
}

/// The units that are left to read.
#[derive(Drop)]
pub(crate) struct UnitReader<'a> {
    alloc: Global,
    file: Option<BufReader<File>>,
    in_file: u64,
    waiting: &'a [u8],
    left: u64,
}

impl UnitFiles {
    /// No files of a folder yet.
    pub(crate) fn new(folder: String) -> UnitFiles {
        UnitFiles { folder, next: 0 }
    }

    /// A new file, and its name, which nothing had before.
    fn create(&mut self, rt: &HostRuntime) -> io::Result<(String, File)> {
        let (mut options, folder) = (OpenOptions::new(), self.folder.as_str());
        let options = options.write(true).create_new(true);
        for number in self.next..u64::MAX {
            self.next = number + 1;
            let name = format!(in rt.alloc(); "{folder}/rtprecord.{number}.units.part")?;
            match options.open(rt, name.as_str()) {
                Ok(file) => return Ok((name, file)),
                Err(fault) if fault.kind() == ErrorKind::AlreadyExists => {}
                Err(fault) => return Err(fault),
            }
        }
        Err(ErrorKind::AlreadyExists.into())
    }
}

impl Units {
    /// No units.
    pub(crate) fn new(alloc: Global, is_kept: bool) -> Units {
        Units {
            alloc,
            is_kept,
            count: 0,
            first: None,
            last: 0,
            file: None,
            in_file: 0,
            waiting: Vec::new(alloc),
            fault: None,
        }
    }

    /// Adds a unit.
    pub(crate) fn push(&mut self, time: u32, is_key: bool, bytes: &[u8]) -> Result<(), AllocError> {
        if self.is_kept {
            let len = u32::try_from(bytes.len()).unwrap_or(u32::MAX);
            self.waiting.reserve(bytes.len().saturating_add(FRONT))?;
            self.waiting.extend_from_slice(&time.to_le_bytes())?;
            self.waiting.push(u8::from(is_key))?;
            self.waiting.extend_from_slice(&len.to_le_bytes())?;
            self.waiting.extend_from_slice(bytes)?;
        }
        if self.first.is_none() {
            self.first = Some(time);
        }
        self.last = time;
        self.count = self.count.saturating_add(1);
        Ok(())
    }

    /// Whether enough waits to be put away.
    pub(crate) fn are_many(&self) -> bool {
        self.waiting.len() >= MOST_WAITING
    }

    /// Puts the units that wait into the file, at first into a new one. If that can't be done, no more are kept.
    pub(crate) fn put_away(&mut self, rt: &HostRuntime, files: &mut UnitFiles) {
        let written = self.write_waiting(rt, files);
        self.waiting = Vec::new(self.alloc);
        self.in_file = self.count;
        if let Err(fault) = written {
            self.fault = Some(fault);
            self.is_kept = false;
            self.remove(rt);
        }
    }

    /// Writes the units that wait to the end of the file, or into a new one.
    fn write_waiting(&mut self, rt: &HostRuntime, files: &mut UnitFiles) -> io::Result<()> {
        let mut file = match &self.file {
            Some(name) => OpenOptions::new().append(true).open(rt, name.as_str())?,
            None => {
                let (name, file) = files.create(rt)?;
                self.file = Some(name);
                file
            }
        };
        file.write_all(&self.waiting)?;
        file.flush()
    }

    /// Why they couldn't be put away.
    pub(crate) fn fault(&self) -> Option<&io::Error> {
        self.fault.as_ref()
    }

    /// Removes the file.
    pub(crate) fn remove(&mut self, rt: &HostRuntime) {
        if let Some(name) = self.file.take() {
            let _ = fs::remove_file(rt, name.as_str());
        }
    }

    /// Reads them from the first on.
    pub(crate) fn reader(&self, rt: &HostRuntime) -> io::Result<UnitReader<'_>> {
        let file = match &self.file {
            Some(name) => Some(BufReader::new(self.alloc, fs::open(rt, name.as_str())?)?),
            None => None,
        };
        Ok(UnitReader {
            alloc: self.alloc,
            file,
            in_file: self.in_file,
            waiting: self.waiting.as_slice(),
            left: self.count,
        })
    }
}

/// The unit of what is in front of it, whose bytes aren't read yet, and how many these are.
fn begun(alloc: Global, front: &[u8; 9]) -> (Unit, usize) {
    let time = u32::from_le_bytes([front[0], front[1], front[2], front[3]]);
    let len = u32::from_le_bytes([front[5], front[6], front[7], front[8]]);
    let unit = Unit {
        time,
        is_key: front[4] != 0,
        bytes: Vec::new(alloc),
    };
    (unit, len as usize)
}

impl UnitReader<'_> {
    /// The next unit of the file.
    fn next_in_file(&mut self) -> io::Result<Option<Unit>> {
        let Some(file) = &mut self.file else {
            return Ok(None);
        };
        let mut front = [0u8; 9];
        file.read_exact(&mut front)?;
        let (mut unit, len) = begun(self.alloc, &front);
        unit.bytes = vec![in self.alloc; 0u8; len]?;
        file.read_exact(&mut unit.bytes)?;
        Ok(Some(unit))
    }

    /// The next unit that isn't in the file.
    fn next_waiting(&mut self) -> Result<Option<Unit>, AllocError> {
        let mut front = [0u8; 9];
        let Some(bytes) = self.waiting.get(..FRONT) else {
            return Ok(None);
        };
        for (place, byte) in bytes.iter().enumerate() {
            if place < FRONT {
                front[place] = *byte;
            }
        }
        let (mut unit, len) = begun(self.alloc, &front);
        let end = len.saturating_add(FRONT);
        unit.bytes = Vec::from_slice(self.alloc, self.waiting.get(FRONT..end).unwrap_or(&[]))?;
        self.waiting = self.waiting.get(end..).unwrap_or(&[]);
        Ok(Some(unit))
    }

    /// The next unit; None after the last.
    pub(crate) fn next(&mut self) -> io::Result<Option<Unit>> {
        if self.left == 0 {
            return Ok(None);
        }
        self.left -= 1;
        if self.in_file > 0 {
            self.in_file -= 1;
            return self.next_in_file();
        }
        Ok(self.next_waiting()?)
    }
}

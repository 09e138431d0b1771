//! Files written piece by piece under a temporary name, which get their own when they are whole.

use anyhow::bail;
use sha2::{Digest, Sha256};
use std::alloc::Global;
use std::fs::{File, OpenOptions};
use std::io::{ErrorKind, Write};
use std::os::unix::fs::MetadataExt;
use std::{fs, io};

// How many bytes wait for a write.
const MOST_WAITING: usize = 65536;

/// A file that is being written.
#[derive(Drop)]
pub(crate) struct Output {
    alloc: Global,
    /// Its name until it is whole.
    part: String,
    file: File,
    /// What its sum is made with, if that is asked for.
    hasher: Option<Sha256>,
    len: u64,
    /// What the file doesn't have yet.
    pub(crate) waiting: Vec<u8>,
}

/// What a whole file has: how many bytes, and their SHA-256 in hexadecimal if it was asked for.
#[derive(Drop)]
pub(crate) struct Written {
    pub(crate) len: u64,
    pub(crate) sum: Option<String>,
}

/// How files are written: what may be replaced, and whether sums are asked for.
#[derive(Clone, Copy)]
pub(crate) struct FileOptions<'a> {
    /// Whether files that exist are replaced.
    pub(crate) is_forced: bool,
    /// Whether a file's SHA-256 is told.
    pub(crate) has_sum: bool,
    /// The names of what is read, which is never replaced.
    pub(crate) inputs: &'a [&'a str],
}

impl FileOptions<'_> {
    /// Whether a file is one of those that are read, by its device and number.
    fn is_input(&self, rt: &HostRuntime, place: (u64, u64)) -> bool {
        self.inputs.iter().any(|name| match fs::metadata(rt, *name) {
            Ok(input) => (input.dev(), input.ino()) == place,
            Err(_) => false,
        })
    }

    /// Sees to it that a file of this name may be written.
    pub(crate) fn allow(&self, rt: &HostRuntime, name: &str) -> anyhow::Result<()> {
        let Ok(taken) = fs::symlink_metadata(rt, name) else {
            return Ok(());
        };
        if !self.is_forced {
            bail!("it exists, and --force isn't given")
        }
        if !taken.is_file() {
            bail!("it exists, and is no regular file")
        }
        if self.is_input(rt, (taken.dev(), taken.ino())) {
            bail!("it is one of the files that are read")
        }
        Ok(())
    }
}

/// A new file under a temporary name beside its own, which nothing had before, and that name.
fn create_part(rt: &HostRuntime, name: &str) -> io::Result<(String, File)> {
    let mut options = OpenOptions::new();
    let options = options.write(true).create_new(true);
    for number in 0..u64::MAX {
        let part = format!(in rt.alloc(); "{name}.{number}.part")?;
        match options.open(rt, part.as_str()) {
            Ok(file) => return Ok((part, file)),
            Err(fault) if fault.kind() == ErrorKind::AlreadyExists => {}
            Err(fault) => return Err(fault),
        }
    }
    Err(ErrorKind::AlreadyExists.into())
}

/// Gives a whole file its name. Unless that is forced, nothing is replaced, be it made in the meantime.
fn give_name(rt: &HostRuntime, part: &str, name: &str, is_forced: bool) -> io::Result<()> {
    if is_forced {
        return fs::rename(rt, part, name);
    }
    match fs::hard_link(rt, part, name) {
        Ok(()) => fs::remove_file(rt, part),
        Err(fault) if fault.kind() == ErrorKind::AlreadyExists => Err(fault),
        // Some file systems have no second names.
        Err(_) if fs::symlink_metadata(rt, name).is_err() => fs::rename(rt, part, name),
        Err(_) => Err(ErrorKind::AlreadyExists.into()),
    }
}

impl Output {
    /// A new file, which gets this name when it is whole.
    pub(crate) fn create(rt: &HostRuntime, name: &str, has_sum: bool) -> io::Result<Output> {
        let (part, file) = create_part(rt, name)?;
        Ok(Output {
            alloc: rt.alloc(),
            part,
            file,
            hasher: if has_sum { Some(Sha256::new()) } else { None },
            len: 0,
            waiting: Vec::new(rt.alloc()),
        })
    }

    /// Writes what waits.
    fn write_waiting(&mut self) -> io::Result<()> {
        self.file.write_all(&self.waiting)?;
        if let Some(hasher) = &mut self.hasher {
            hasher.update(&self.waiting);
        }
        self.len = self.len.saturating_add(self.waiting.len() as u64);
        self.waiting.clear();
        Ok(())
    }

    /// Writes what waits if that is much.
    pub(crate) fn flow(&mut self) -> io::Result<()> {
        if self.waiting.len() < MOST_WAITING {
            return Ok(());
        }
        self.write_waiting()
    }

    /// Writes the rest of the file.
    fn finish(&mut self) -> io::Result<()> {
        self.write_waiting()?;
        self.file.flush()
    }

    /// Removes the file.
    pub(crate) fn discard(&self, rt: &HostRuntime) {
        let _ = fs::remove_file(rt, self.part.as_str());
    }

    /// Ends the file and gives it its name; or removes it.
    pub(crate) fn end(
        mut self,
        rt: &HostRuntime,
        name: &str,
        is_forced: bool,
    ) -> anyhow::Result<Written> {
        if let Err(fault) = self.finish() {
            self.discard(rt);
            return Err(fault.into());
        }
        if let Err(fault) = give_name(rt, &self.part, name, is_forced) {
            self.discard(rt);
            return Err(fault.into());
        }
        let sum = match self.hasher {
            Some(hasher) => Some(hex::encode(self.alloc, hasher.finalize())?),
            None => None,
        };
        Ok(Written { len: self.len, sum })
    }
}

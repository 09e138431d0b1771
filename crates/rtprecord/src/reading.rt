//! Files read in pieces.

use crate::input::Input;
use crate::progress::Progress;
use crate::recorder::Recorder;
use std::alloc::Global;
use std::fs::File;
use std::io::Read;
use std::{fs, io};

// How many bytes are read between two looks at them, at a time, and how many wait at most for the end of a record.
const PIECE: usize = 1_048_576;

const AT_ONCE: usize = 65536;

const MOST_WAITING: usize = 16_777_216;

/// Adds the next bytes of a file to those that wait; returns whether it ends with them.
fn fill(alloc: Global, file: &mut File, waiting: &mut Vec<u8>) -> io::Result<bool> {
    let mut bytes = vec![in alloc; 0u8; AT_ONCE]?;
    for _ in 0..PIECE / AT_ONCE {
        let count = file.read(&mut bytes)?;
        if count == 0 {
            return Ok(true);
        }
        waiting.extend_from_slice(bytes.get(..count).unwrap_or(&[]))?;
    }
    Ok(false)
}

/// Reads what is left of a file; returns how many bytes that are.
fn skip(alloc: Global, file: &mut File) -> io::Result<u64> {
    let mut bytes = vec![in alloc; 0u8; AT_ONCE]?;
    let mut len = 0u64;
    for _ in 0..u64::MAX {
        let count = file.read(&mut bytes)?;
        if count == 0 {
            break;
        }
        len = len.saturating_add(count as u64);
    }
    Ok(len)
}

/// Hands the datagrams of a file to the recorder, piece by piece.
pub(crate) fn read(rt: &HostRuntime, name: &str, recorder: &mut Recorder) -> anyhow::Result<()> {
    let alloc = rt.alloc();
    let mut file = fs::open(rt, name)?;
    let mut waiting = Vec::new(alloc);
    let mut is_end = fill(alloc, &mut file, &mut waiting)?;
    let (mut input, mut done) = Input::of(alloc, &waiting)?;
    let mut progress = Progress::new(rt);
    for _ in 0..u64::MAX {
        let piece = waiting.get(done..).unwrap_or(&[]);
        let taken = input.feed(alloc, piece, is_end, recorder)?;
        waiting = Vec::from_slice(alloc, piece.get(taken..).unwrap_or(&[]))?;
        progress.tell(rt, done.saturating_add(taken), recorder)?;
        done = 0;
        recorder.put_away(rt);
        if is_end || waiting.len() >= MOST_WAITING {
            break;
        }
        is_end = fill(alloc, &mut file, &mut waiting)?;
    }
    progress.end(rt)?;
    input.leave(recorder);
    recorder.leave(waiting.len() as u64);
    recorder.leave(skip(alloc, &mut file)?);
    Ok(())
}

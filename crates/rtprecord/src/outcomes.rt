//! What comes of the files. They are written before anything is printed, so that a full or closed standard output loses
//! none.

use crate::arguments::Arguments;
use crate::files::{ending_of, write_file};
use crate::gaps::Silence;
use crate::matroska::{Matroska, write_mkv};
use crate::recorder::Recorder;
use crate::stream::Stream;
use crate::writing::{FileOptions, Written};
use std::alloc::{AllocError, Global};

/// What came of a stream's file.
#[derive(Drop)]
pub(crate) enum StreamFile {
    /// None was asked for, or there is nothing to write.
    NotAsked,
    /// None is known for the codec.
    Unknown,
    /// It has its name.
    Written(String, Written),
    /// There is none of this name, and why.
    Failed(String, String),
}

impl StreamFile {
    /// Whether there is one, or should be.
    pub(crate) fn is_named(&self) -> bool {
        matches!(self, StreamFile::Written(..) | StreamFile::Failed(..))
    }
}

/// What came of the Matroska file of all streams.
#[derive(Drop)]
pub(crate) enum MkvFile {
    /// None was asked for, or all streams are encrypted.
    NotAsked,
    /// It has its name.
    Written(String, Matroska),
    /// There is none of this name, and why.
    Failed(String, String),
}

/// What came of all files.
#[derive(Drop)]
pub(crate) struct Files {
    pub(crate) mkv: MkvFile,
    /// How many gaps of sound are filled in part.
    pub(crate) shortened: u64,
    /// Whether each is as it should be, and no stream is cut.
    pub(crate) are_whole: bool,
}

/// The name of a stream's file, without its folder: its SSRC, the port if it is meant for one alone, and its type.
fn name_of(alloc: Global, stream: &Stream, ending: &str) -> Result<String, AllocError> {
    let (ssrc, pt) = (stream.ssrc.get(), stream.row.pt);
    match stream.port {
        Some(port) => format!(in alloc; "{ssrc:08x}-{port}-{pt}.{ending}"),
        None => format!(in alloc; "{ssrc:08x}-{pt}.{ending}"),
    }
}

/// The numbers of the streams, in the order in which they are listed.
fn listed(recorder: &Recorder) -> Result<Vec<u64>, AllocError> {
    let mut numbers = Vec::new(recorder.alloc);
    for source in recorder.sources.values() {
        for (number, _) in &source.streams {
            numbers.push(*number)?;
        }
    }
    Ok(numbers)
}

/// Writes the file of a stream; returns what came of it.
fn file_of(
    rt: &HostRuntime,
    stream: &Stream,
    sets: &[Vec<u8>],
    folder: &str,
    silence: &mut Silence,
    options: FileOptions<'_>,
) -> Result<StreamFile, AllocError> {
    if stream.is_encrypted || stream.units.count == 0 {
        return Ok(StreamFile::NotAsked);
    }
    let Some(ending) = ending_of(stream.row.codec) else {
        return Ok(StreamFile::Unknown);
    };
    let name = name_of(rt.alloc(), stream, ending)?;
    let name = format!(in rt.alloc(); "{folder}/{name}")?;
    Ok(
        match write_file(rt, stream, sets, &name, silence, options) {
            Ok(written) => StreamFile::Written(name, written),
            Err(fault) => StreamFile::Failed(name, format!(in rt.alloc(); "{fault:#}")?),
        },
    )
}

/// Writes the Matroska file of all streams, if it is asked for; returns what came of it.
fn mkv_of(
    rt: &HostRuntime,
    recorder: &Recorder,
    arguments: &Arguments,
    options: FileOptions<'_>,
) -> Result<MkvFile, AllocError> {
    let Some(name) = &arguments.mkv else {
        return Ok(MkvFile::NotAsked);
    };
    if recorder.streams.values().all(|stream| stream.is_encrypted) {
        return Ok(MkvFile::NotAsked);
    }
    let own = name.clone()?;
    Ok(match write_mkv(rt, recorder, name, options) {
        Ok(file) => MkvFile::Written(own, file),
        Err(fault) => MkvFile::Failed(own, format!(in rt.alloc(); "{fault:#}")?),
    })
}

/// Writes the files of all streams, if they are asked for; returns what came of the file of all, while each stream has
/// what came of its own.
pub(crate) fn write_files(
    rt: &HostRuntime,
    recorder: &mut Recorder,
    arguments: &Arguments,
) -> Result<Files, AllocError> {
    let mut silence = Silence::of(arguments.longest_gap, arguments.most_silence);
    let mut are_whole = true;
    let inputs = arguments.inputs(rt.alloc())?;
    let options = FileOptions {
        is_forced: arguments.is_forced,
        has_sum: arguments.has_sums,
        inputs: &inputs,
    };
    for number in listed(recorder)? {
        let Some(stream) = recorder.streams.get_mut(&number) else {
            continue;
        };
        are_whole = are_whole && !stream.is_cut;
        if !arguments.is_list {
            let sets = recorder.rows.sets.before(stream);
            let folder = arguments.out.as_str();
            stream.file = file_of(rt, stream, sets, folder, &mut silence, options)?;
            are_whole = are_whole && !matches!(stream.file, StreamFile::Failed(..));
        }
    }
    let mkv = if arguments.is_list {
        MkvFile::NotAsked
    } else {
        mkv_of(rt, recorder, arguments, options)?
    };
    are_whole = are_whole && !matches!(mkv, MkvFile::Failed(..));
    Ok(Files {
        mkv,
        shortened: silence.shortened,
        are_whole,
    })
}

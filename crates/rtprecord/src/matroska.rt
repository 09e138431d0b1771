//! Streams in one Matroska file, each as far after the others as it began.

use crate::clocks::{arrived, microseconds, next_ticks, reported};
use crate::recorder::Recorder;
use crate::reports::SenderReport;
use crate::stream::Stream;
use crate::tracks::{Track, framed, track_of};
use crate::units::UnitReader;
use crate::writing::{FileOptions, Output, Written};
use anyhow::bail;
use media_files::{MkvBlock, MkvClusters, MkvTrack, push_mkv_front};
use std::alloc::{AllocError, Global};
use std::collections::BTreeMap;
use std::io;

// How many tracks a file has at most.
const MOST_TRACKS: usize = 126;

/// A unit of a track.
#[derive(Drop)]
struct Frame {
    /// When it is seen or heard, in milliseconds.
    time: u64,
    /// The latest time of its track so far: frames are written in their order of decoding.
    turn: u64,
    is_key: bool,
    bytes: Vec<u8>,
}

/// A stream that has a track, and when it began, in microseconds of a clock that all share.
#[derive(Drop)]
struct Part<'a> {
    stream: &'a Stream,
    track: Track,
    began: i64,
}

/// A track whose frames are read.
#[derive(Drop)]
struct Lane<'a> {
    stream: &'a Stream,
    number: u8,
    units: UnitReader<'a>,
    /// How many microseconds after the file it begins.
    offset: i64,
    /// The clock of the last frame: ticks from the first one on, and its timestamp.
    ticks: i64,
    before: u32,
    turn: u64,
    count: u64,
    next: Option<Frame>,
}

/// The file of streams, and the SSRCs of those that have no track.
#[derive(Drop)]
pub(crate) struct Matroska {
    pub(crate) written: Written,
    pub(crate) left_out: Vec<u32>,
}

/// Sets when the streams began: by reports of all their senders, else by arrival, else all at once.
fn set_begins(parts: &mut Vec<Part<'_>>, reports: &BTreeMap<u32, SenderReport>) {
    let are_reported = parts
        .iter()
        .all(|part| reported(part.stream, reports).is_some());
    for part in parts.iter_mut() {
        let began = if are_reported {
            reported(part.stream, reports)
        } else {
            arrived(part.stream)
        };
        part.began = began.unwrap_or(0);
    }
}

impl<'a> Lane<'a> {
    /// The track of a part, with its first frame.
    fn of(rt: &HostRuntime, part: &Part<'a>, number: u8, start: i64) -> io::Result<Lane<'a>> {
        let mut lane = Lane {
            stream: part.stream,
            number,
            units: part.stream.units.reader(rt)?,
            offset: part.began.saturating_sub(start),
            ticks: 0,
            before: part.stream.units.first.unwrap_or(0),
            turn: 0,
            count: 0,
            next: None,
        };
        lane.advance(rt.alloc())?;
        Ok(lane)
    }

    /// Reads the next frame.
    fn advance(&mut self, alloc: Global) -> io::Result<()> {
        let Some(unit) = self.units.next()? else {
            self.next = None;
            return Ok(());
        };
        let (codec, rate) = (self.stream.row.codec, self.stream.row.rate.get());
        self.ticks = next_ticks(self.ticks, self.before, unit.time);
        self.before = unit.time;
        let since = microseconds(self.ticks, rate);
        let time = u64::try_from(self.offset.saturating_add(since)).unwrap_or(0) / 1000;
        self.turn = self.turn.max(time);
        self.count = self.count.saturating_add(1);
        self.next = Some(Frame {
            time,
            turn: self.turn,
            is_key: unit.is_key,
            bytes: framed(alloc, codec, unit.bytes)?,
        });
        Ok(())
    }

    /// When it ends, in milliseconds: the last frame lasts as long as the others do on average.
    fn end(&self) -> u64 {
        let begin = u64::try_from(self.offset).unwrap_or(0) / 1000;
        let mean = self
            .turn
            .saturating_sub(begin)
            .checked_div(self.count.saturating_sub(1))
            .unwrap_or(0);
        self.turn.saturating_add(mean)
    }
}

/// The track whose frame is next: the first of those with the least turn.
fn next_lane(lanes: &[Lane<'_>]) -> Option<usize> {
    let mut found: Option<(usize, u64)> = None;
    for (place, lane) in lanes.iter().enumerate() {
        let Some(frame) = &lane.next else {
            continue;
        };
        match found {
            Some((_, turn)) if turn <= frame.turn => {}
            _ => found = Some((place, frame.turn)),
        }
    }
    let (place, _) = found?;
    Some(place)
}

/// A file that is written.
#[derive(Clone, Copy)]
struct Writing<'a> {
    rt: &'a HostRuntime,
    alloc: Global,
    parts: &'a [Part<'a>],
    /// When the first of the parts began.
    start: i64,
}

impl Writing<'_> {
    /// The tracks, each with its first frame.
    fn lanes(&self) -> io::Result<Vec<Lane<'_>>> {
        let (mut lanes, mut number) = (Vec::new(self.alloc), 1u8);
        for part in self.parts {
            lanes.push(Lane::of(self.rt, part, number, self.start)?)?;
            number = number.saturating_add(1);
        }
        Ok(lanes)
    }

    /// Writes the clusters, if they are to be written; returns how many bytes they have, and when the file ends, in
    /// milliseconds.
    fn push_clusters(&self, output: &mut Output, is_written: bool) -> anyhow::Result<(u64, u64)> {
        let mut lanes = self.lanes()?;
        let (mut clusters, mut len, mut end) = (MkvClusters::new(self.alloc), 0u64, 0u64);
        for _ in 0..u64::MAX {
            let Some(place) = next_lane(&lanes) else {
                break;
            };
            let Some(lane) = lanes.get_mut(place) else {
                break;
            };
            if let Some(frame) = &lane.next {
                let block = MkvBlock {
                    track: lane.number,
                    time: frame.time,
                    is_key: frame.is_key,
                    bytes: frame.bytes.as_slice(),
                };
                let before = output.waiting.len();
                clusters.push(self.alloc, &block, &mut output.waiting)?;
                len = len.saturating_add(output.waiting.len().saturating_sub(before) as u64);
            }
            lane.advance(self.alloc)?;
            let_go(output, is_written)?;
        }
        for lane in &lanes {
            end = end.max(lane.end());
        }
        let before = output.waiting.len();
        clusters.finish(self.alloc, &mut output.waiting)?;
        len = len.saturating_add(output.waiting.len().saturating_sub(before) as u64);
        let_go(output, is_written)?;
        Ok((len, end))
    }

    /// Writes the streams.
    fn write(&self, output: &mut Output) -> anyhow::Result<()> {
        let (len, end) = self.push_clusters(output, false)?;
        let mut tracks = Vec::new(self.alloc);
        for part in self.parts {
            tracks.push(MkvTrack {
                codec: part.track.codec,
                private: part.track.private.as_slice(),
                delay: part.track.delay,
                preroll: part.track.preroll,
                media: part.track.media,
            })?;
        }
        push_mkv_front(self.alloc, end, &tracks, len, &mut output.waiting)?;
        let _written = self.push_clusters(output, true)?;
        Ok(())
    }
}

/// Writes what waits if that is much; or forgets it if nothing is to be written.
fn let_go(output: &mut Output, is_written: bool) -> io::Result<()> {
    if is_written {
        return output.flow();
    }
    output.waiting.clear();
    Ok(())
}

/// The streams that have a track; the others are left out.
fn parts_of<'a>(
    alloc: Global,
    recorder: &'a Recorder,
    left_out: &mut Vec<u32>,
) -> Result<Vec<Part<'a>>, AllocError> {
    let mut parts = Vec::new(alloc);
    for stream in recorder.streams.values() {
        if stream.units.count == 0 || stream.is_encrypted {
            continue;
        }
        match track_of(alloc, stream, recorder.rows.sets.before(stream))? {
            Some(track) if parts.len() < MOST_TRACKS => parts.push(Part {
                stream,
                track,
                began: 0,
            })?,
            _ => left_out.push(stream.ssrc.get())?,
        }
    }
    Ok(parts)
}

/// Writes the Matroska file of all streams under this name.
pub(crate) fn write_mkv(
    rt: &HostRuntime,
    recorder: &Recorder,
    name: &str,
    options: FileOptions<'_>,
) -> anyhow::Result<Matroska> {
    let alloc = rt.alloc();
    let mut left_out = Vec::new(alloc);
    let mut parts = parts_of(alloc, recorder, &mut left_out)?;
    set_begins(&mut parts, &recorder.reports);
    let mut start = i64::MAX;
    for part in &parts {
        start = start.min(part.began);
        if let Some(fault) = part.stream.units.fault() {
            bail!("units couldn't be put away: {fault}")
        }
    }
    options.allow(rt, name)?;
    let writing = Writing {
        rt,
        alloc,
        parts: parts.as_slice(),
        start,
    };
    let mut output = Output::create(rt, name, options.has_sum)?;
    if let Err(fault) = writing.write(&mut output) {
        output.discard(rt);
        return Err(fault);
    }
    let written = output.end(rt, name, options.is_forced)?;
    Ok(Matroska { written, left_out })
}

//! Headers written and read, compared with plain copies, and numbers given to a replay window.

use crate::measured::{Round, measure};
use crate::tally::Tally;
use rtp_wire::{
    Extension, ExtensionMap, ExtensionValues, Mid, RtpHeader, SeqNo, SeqNoWindow, VideoOrientation,
};
use std::alloc::Global;
use std::io;

/// How often each thing is done.
const ROUNDS: u32 = 200_000;

/// How many bytes are copied.
const COPIED: usize = 32;

/// Header extensions with their ids and values.
#[derive(Drop)]
struct Extensions {
    map: ExtensionMap,
    values: ExtensionValues,
}

impl Extensions {
    ghost use Rattle.std.specs.Prelude.{◌≡◌};
    ghost use Rattle.benchmarks.specs.Extensions.{header_with};

    /// No extension.
    fn none() -> Self {
        Extensions {
            map: ExtensionMap::empty(),
            values: ExtensionValues::absent(),
        }
    }

    /// Four extensions, and a value for each.
    fn four() -> Self {
        let mut map = ExtensionMap::empty();
        map.set(1, Extension::AudioLevel);
        map.set(3, Extension::TransportSequenceNumber);
        map.set(4, Extension::RtpMid);
        map.set(13, Extension::VideoOrientation);
        let mut values = ExtensionValues::absent();
        values.audio_level = Some(-42);
        values.voice_activity = Some(true);
        values.transport_cc = Some(7);
        values.mid = Some(Mid::from("0"));
        values.video_orientation = Some(VideoOrientation::from(1));
        Extensions { map, values }
    }

    /// A header of this number with these extensions.
    fn header(&self, number: u16) -> RtpHeader
        ensures { result ≡ header_with self.now number }
    {
        RtpHeader {
            sequence_number: number,
            has_extension: !self.map.is_empty(),
            ext_vals: self.values,
            ..RtpHeader::default()
        }
    }
}

/// Headers that are written, with these extensions.
#[derive(Drop)]
struct Writing<'a> {
    extensions: &'a Extensions,
    buf: [u8; 64],
}

/// Counts headers, and their bytes.
impl Round for Writing<'_> {
    ghost use Rattle.benchmarks.specs.Headers.{CountsWritten};

    ghost counts = { CountsWritten };

    fn round(&mut self, _alloc: Global, number: u32, tally: &mut Tally) {
        let header = self.extensions.header((number % 65536) as u16);
        let map = &self.extensions.map;
        if header.wire_len(map) <= self.buf.len() {
            tally.add(1, header.write_to(&mut self.buf, map));
        }
    }
}

/// A header that is read.
#[derive(Drop)]
struct Reading<'a> {
    map: &'a ExtensionMap,
    buf: [u8; 64],
}

/// Counts headers, and their bytes.
impl Round for Reading<'_> {
    ghost use Rattle.benchmarks.specs.Headers.{CountsRead};

    ghost counts = { CountsRead };

    fn round(&mut self, _alloc: Global, _number: u32, tally: &mut Tally) {
        if let Some(header) = RtpHeader::parse(&self.buf, self.map) {
            tally.add(1, header.header_len);
        }
    }
}

/// The baseline: bytes that are copied.
#[derive(Drop)]
struct Copying {
    to: [u8; 64],
}

/// Counts copies, and how many of the bytes written are 255.
impl Round for Copying {
    ghost use Rattle.benchmarks.specs.Headers.{CountsCopied};

    ghost counts = { CountsCopied };

    fn round(&mut self, _alloc: Global, number: u32, tally: &mut Tally) {
        self.to[..COPIED].copy_from_slice(&[255; COPIED]);
        self.to[2] = (number % 256) as u8;
        tally.add(1, (self.to[2] / 255) as usize);
    }
}

/// A window given increasing numbers, every third one twice.
#[derive(Drop)]
struct Updating {
    window: SeqNoWindow,
}

/// Counts the numbers that it takes.
impl Round for Updating {
    ghost use Rattle.benchmarks.specs.Headers.{CountsAccepted};

    ghost counts = { CountsAccepted };

    fn round(&mut self, _alloc: Global, number: u32, tally: &mut Tally) {
        let number = SeqNo::from((number - number % 3 / 2) as u64);
        if self.window.accepts(number) {
            self.window.update(number);
            tally.add(1, 0);
        }
    }
}

/// Headers with these extensions, written, and the last of them read.
fn both_ways(rt: &HostRuntime, what: &str, extensions: &Extensions) -> io::Result<()> {
    let buf = [0; 64];
    let mut writing = Writing { extensions, buf };
    let written = measure(rt, "header", "written", &mut writing, ROUNDS)?;
    let (map, buf) = (&extensions.map, writing.buf);
    let read = measure(rt, "header", "read", &mut Reading { map, buf }, ROUNDS)?;
    let (bytes, written, read) = (written.bytes, written.packets, read.packets);
    println!(*rt; "headers {what}: {bytes} bytes\nwritten: {written}\nread: {read}")
}

/// Copies, headers without extensions and with four, and a window.
pub(crate) fn measure_all(rt: &HostRuntime) -> io::Result<()> {
    let mut copying = Copying { to: [0; 64] };
    let copied = measure(rt, "bytes", "copied", &mut copying, ROUNDS)?;
    let (greatest, copied) = (copied.bytes, copied.packets);
    println!(*rt; "copies of {COPIED} bytes: {greatest}\ncopied: {copied}")?;
    both_ways(rt, "without extensions", &Extensions::none())?;
    both_ways(rt, "with four extensions", &Extensions::four())?;
    let window = SeqNoWindow::new(SeqNo::from(0));
    let taken = measure(rt, "window", "updated", &mut Updating { window }, ROUNDS)?;
    println!(*rt; "window updates: {}", taken.packets)
}

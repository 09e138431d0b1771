//! What is known of the ends, from the lines and the replies to them.

ghost use Rattle.std.specs.Prelude.{◌≡◌, is_some, IfSome, OnErr, OnOk};
ghost use Rattle.rtp_media_program.specs.ExplainedLines.{word_at};
ghost use Rattle.rtp_media_program.specs.Noted.{end_of, has_stream, made, makes_end, none_made};
ghost use Rattle.rtp_media_program.specs.Noted.{noted, noted_end, opens_stream, unmade, with_opened};

use crate::lines::{number_at, number_or_zero_at, word_at};
use crate::stream_reasons::Stream;
use rtp_wire::{ExtensionMap, RtpHeader};
use std::alloc::{AllocError, Global};
use std::fmt;
use std::marker::Model;

/// What is known of an end, and of its streams in the order of their numbers.
pub struct KnownEnd {
    letter: &'static str,
    is_made: bool,
    streams: Vec<Stream>,
    foreign: u64,
    unreadable: u64,
}

/// Written by hand, so that crates that drop this type need no proof about its fields.
impl Drop for KnownEnd {
    fn drop(self) {
        let KnownEnd {
            letter: _letter,
            is_made: _is_made,
            streams: _streams,
            foreign: _foreign,
            unreadable: _unreadable,
        } = self;
    }
}

impl Model for KnownEnd {
    ghost use Rattle.rtp_media_program.specs.Noted.{KnownEnd as Noted};

    ghost Value = { Noted };

    ghost view = { λ e. record { is_made = e.is_made; streams = e.streams.items } };
}

/// What became of the streams, sending ones first, if the end was made.
impl fmt::Display for KnownEnd {
    fn fmt<W: fmt::Write>(&self, f: &mut fmt::Formatter<W>) -> fmt::Result {
        if !self.is_made {
            return Ok(());
        }
        let (letter, foreign, unreadable) = (self.letter, self.foreign, self.unreadable);
        for is_sender in &[true, false] {
            for stream in &self.streams {
                if stream.is_sender == *is_sender {
                    stream.write(f, letter)?;
                }
            }
        }
        writeln!(
            f,
            "  end {letter}: {foreign} foreign, {unreadable} unreadable"
        )
    }
}

impl KnownEnd {
    /// Nothing was made yet.
    fn new(alloc: Global, letter: &'static str) -> KnownEnd
        ensures { result ≡ unmade }
    {
        KnownEnd {
            letter,
            is_made: false,
            streams: Vec::new(alloc),
            foreign: 0,
            unreadable: 0,
        }
    }

    /// Whether it was made.
    pub fn is_made(&self) -> bool
        ensures { result ≡ self.now.is_made }
    {
        self.is_made
    }

    /// Whether a stream of this number was opened, which sends, or receives if `is_sender` doesn't hold.
    pub fn has_stream(&self, number: u64, is_sender: bool) -> bool
        ensures { result ≡ has_stream self.now number is_sender }
    {
        match self.streams.get(number as usize) {
            Some(found) => found.is_sender == is_sender,
            None => false,
        }
    }

    /// Notes a reply to a line about this end.
    fn note(&mut self, alloc: Global, line: &str, reply: &str) -> Result<(), AllocError>
        ensures noted { OnOk result (self.new ≡ noted_end self.old line.now reply.now) }
        ensures unchanged { OnErr result (self.new ≡ self.old) }
    {
        if makes_end(line, reply) {
            self.begin();
            return Ok(());
        }
        if opens_stream(reply) {
            return self.open(alloc, line, reply);
        }
        self.count(alloc, line, reply)
    }

    /// The line opened a stream.
    fn open(&mut self, alloc: Global, line: &str, reply: &str) -> Result<(), AllocError>
        ensures opened { OnOk result (self.new ≡ with_opened self.old line.now reply.now) }
        ensures unchanged { OnErr result (self.new ≡ self.old) }
    {
        let stream = Stream::new(alloc, number_or_zero_at(reply, 1), line);
        self.streams.push(stream)?;
        Ok(())
    }

    /// Counts what was said of the line.
    fn count(&mut self, alloc: Global, line: &str, reply: &str) -> Result<(), AllocError>
        ensures { self.new ≡ self.old }
    {
        match word_at(reply, 0) {
            "foreign" => self.foreign = self.foreign.saturating_add(1),
            "unreadable" => self.unreadable = self.unreadable.saturating_add(1),
            _ => return self.count_at_stream(alloc, line, reply),
        }
        Ok(())
    }

    /// The end is made, anew or for the first time.
    fn begin(&mut self)
        ensures { self.new ≡ made }
    {
        self.is_made = true;
        self.streams.clear();
        self.foreign = 0;
        self.unreadable = 0;
    }

    /// Counts what was said of a sample, a datagram or a poll, at the stream that the reply or the line names, or that
    /// the datagram is for.
    fn count_at_stream(&mut self, alloc: Global, line: &str, reply: &str) -> Result<(), AllocError>
        ensures { self.new ≡ self.old }
    {
        let word = word_at(reply, 0);
        let number = if word == "taken" || word == "came" {
            number_at(reply, 1)
        } else if word_at(line, 0) == "receive" {
            self.receiver_of(source_in(alloc, word_at(line, 2)))
        } else if word_at(line, 0) == "forward" && word != "datagram" {
            self.receiver_of(source_in(alloc, word_at(line, 4)))
        } else {
            number_at(line, 2)
        };
        let Some(number) = number else {
            return Ok(());
        };
        match self.streams.get_mut(number as usize) {
            Some(stream) => stream.count(reply),
            None => Ok(()),
        }
    }

    /// The receiving stream of a datagram, by its SSRC and type, or else by its SSRC.
    fn receiver_of(&self, source: Option<(u64, u64)>) -> Option<u64> {
        let (ssrc, pt) = source?;
        let mut found = None;
        for stream in &self.streams {
            if !stream.is_sender && stream.ssrc == ssrc && (found.is_none() || stream.pt == pt) {
                found = Some(stream.number);
            }
        }
        found
    }
}

/// Whether a line made an end.
fn makes_end(line: &str, reply: &str) -> bool
    ensures { result ≡ makes_end line.now reply.now }
{
    (line.starts_with("fixed ") || line.starts_with("end ")) && reply == "ok"
}

/// Whether the line opened a stream.
fn opens_stream(reply: &str) -> bool
    ensures { result ≡ opens_stream reply.now }
{
    let word = word_at(reply, 0);
    word == "sender" || word == "receiver"
}

/// The SSRC and the type of a datagram in hexadecimal digits.
fn source_in(alloc: Global, digits: &str) -> Option<(u64, u64)> {
    let Ok(datagram) = hex::decode(alloc, digits) else {
        return None;
    };
    let Some(header) = RtpHeader::parse(&datagram, &ExtensionMap::empty()) else {
        return None;
    };
    Some((
        u64::from(header.ssrc.get()),
        u64::from(header.payload_type.get()),
    ))
}

/// What is known of both ends.
#[derive(Drop)]
pub struct Known {
    a: KnownEnd,
    b: KnownEnd,
}

impl Model for Known {
    ghost use Rattle.rtp_media_program.specs.Noted.{Known as Noted};

    ghost Value = { Noted };

    ghost view = { λ k. record { a = k.a; b = k.b } };
}

/// What became of the streams of both ends.
impl fmt::Display for Known {
    fn fmt<W: fmt::Write>(&self, f: &mut fmt::Formatter<W>) -> fmt::Result {
        write!(f, "{}{}", self.a, self.b)
    }
}

impl Known {
    /// Nothing was made yet.
    pub fn new(alloc: Global) -> Known
        ensures { result ≡ none_made }
    {
        Known {
            a: KnownEnd::new(alloc, "a"),
            b: KnownEnd::new(alloc, "b"),
        }
    }

    /// The end of a letter, `a` or `b`.
    pub fn end(&self, letter: &str) -> &KnownEnd
        ensures { result.now ≡ end_of self.now letter.now }
    {
        if letter == "a" { &self.a } else { &self.b }
    }

    /// What is known of an end that a line makes anew, from before the line.
    pub fn replaced(&self, line: &str, reply: &str) -> Option<&KnownEnd>
        ensures some { is_some result ≡ makes_end line.now reply.now }
        ensures end { IfSome result (λ e. e.now ≡ end_of self.now (word_at line.now 1)) }
    {
        if makes_end(line, reply) {
            return Some(self.end(word_at(line, 1)));
        }
        None
    }

    /// Notes a reply to a line: at `b` if it isn't about `a`, since a run is received there.
    ///
    /// # Errors
    /// If memory runs out, and then it notes no stream that the line opens.
    pub fn note(&mut self, alloc: Global, line: &str, reply: &str) -> Result<(), AllocError>
        ensures noted { OnOk result (self.new ≡ noted self.old line.now reply.now) }
        ensures unchanged { OnErr result (self.new ≡ self.old) }
    {
        if word_at(line, 1) == "a" {
            self.a.note(alloc, line, reply)
        } else {
            self.b.note(alloc, line, reply)
        }
    }
}

//! The sources and streams of a recorder by their keys, and what makes room for new ones.

use crate::passed::count;
use crate::recorder::Recorder;
use crate::row::Row;
use crate::source::Source;
use crate::stream::{Stream, StreamKind};
use rtp_wire::Ssrc;
use std::alloc::{AllocError, Global};
use std::collections::{BTreeMap, VecDeque};

/// Numbers that keys have, in the order in which they came.
#[derive(Drop)]
pub(crate) struct Index {
    numbers: BTreeMap<u64, u64>,
    /// The numbers of what had fewer than two packets when it was last looked at, rising.
    lone: VecDeque<u64>,
    next: u64,
}

/// The key of a source: its SSRC, and the port that its packets go to.
fn source_key(ssrc: Ssrc, port: Option<u16>) -> u64 {
    let port = match port {
        Some(port) => port as u64 + 1,
        None => 0,
    };
    ssrc.get() as u64 * 131_072 + port
}

/// The key of a stream: its source, and its payload type.
fn stream_key(source: u64, pt: u8) -> u64 {
    source.saturating_mul(256).saturating_add(pt as u64)
}

impl Index {
    /// No keys.
    pub(crate) fn new(alloc: Global) -> Index {
        Index {
            numbers: BTreeMap::new(alloc),
            lone: VecDeque::new(alloc),
            next: 0,
        }
    }

    /// The number of a key.
    fn number(&self, key: u64) -> Option<u64> {
        self.numbers.get(&key).copied()
    }

    /// A number for a new key.
    fn add(&mut self, key: u64) -> Result<u64, AllocError> {
        let number = self.next;
        self.lone.push_back(number)?;
        self.numbers.insert(key, number)?;
        self.next = number.saturating_add(1);
        Ok(number)
    }

    /// Forgets a key.
    fn remove(&mut self, key: u64) {
        let _ = self.numbers.remove(&key);
    }
}

impl Recorder {
    /// The number of the source of an SSRC, if there is one.
    pub(crate) fn known_source(&self, ssrc: Ssrc, port: Option<u16>) -> Option<u64> {
        self.source_index.number(source_key(ssrc, port))
    }

    /// The number of the source of an SSRC, which is made if there is none; None if there are too many.
    pub(crate) fn source_place(
        &mut self,
        ssrc: Ssrc,
        port: Option<u16>,
    ) -> Result<Option<u64>, AllocError> {
        let key = source_key(ssrc, port);
        if let Some(number) = self.source_index.number(key) {
            return Ok(Some(number));
        }
        if self.sources.len() >= self.limits.most_streams {
            self.drop_lone_source();
        }
        if self.sources.len() >= self.limits.most_streams {
            return Ok(None);
        }
        let number = self.source_index.add(key)?;
        self.sources
            .insert(number, Source::new(self.alloc, ssrc, port))?;
        Ok(Some(number))
    }

    /// The first source of fewer than two packets.
    fn lone_source(&mut self) -> Option<u64> {
        for _ in 0..self.source_index.lone.len() {
            let number = self.source_index.lone.front().copied()?;
            if let Some(source) = self.sources.get(&number) {
                if source.taken < 2 {
                    return Some(number);
                }
            }
            let _ = self.source_index.lone.pop_front();
        }
        None
    }

    /// The first stream of fewer than two packets.
    fn lone_stream(&mut self) -> Option<u64> {
        for _ in 0..self.stream_index.lone.len() {
            let number = self.stream_index.lone.front().copied()?;
            if let Some(stream) = self.streams.get(&number) {
                if stream.datagrams < 2 {
                    return Some(number);
                }
            }
            let _ = self.stream_index.lone.pop_front();
        }
        None
    }

    /// Drops the first source of fewer than two packets, and its streams, so that there is room for another.
    fn drop_lone_source(&mut self) {
        let Some(number) = self.lone_source() else {
            return;
        };
        let Some(source) = self.sources.remove(&number) else {
            return;
        };
        self.source_index
            .remove(source_key(source.ssrc, source.port));
        for pt in 0..128u8 {
            if source.has_type(pt) {
                self.typed.remove(source.port, pt, number);
            }
        }
        for (stream, pt) in &source.streams {
            let _ = self.streams.remove(stream);
            self.stream_index.remove(stream_key(number, *pt));
        }
        let _ = self.lone_stream();
        count(&mut self.passed.too_many);
    }

    /// Drops the first stream of fewer than two packets, so that there is room for another.
    fn drop_lone_stream(&mut self) {
        let Some(number) = self.lone_stream() else {
            return;
        };
        let Some(stream) = self.streams.remove(&number) else {
            return;
        };
        self.stream_index
            .remove(stream_key(stream.source, stream.row.pt));
        if let Some(source) = self.sources.get_mut(&stream.source) {
            source.streams.retain(|one| one.0 != number);
        }
        count(&mut self.passed.too_many);
    }

    /// The number of the stream of a source and a row, which is made if there is none; None if there are too many, or
    /// its codec has no payload format.
    pub(crate) fn stream_place(
        &mut self,
        source: u64,
        row: Row,
    ) -> Result<Option<u64>, AllocError> {
        let pt = row.pt;
        let key = stream_key(source, pt);
        if let Some(number) = self.stream_index.number(key) {
            return Ok(Some(number));
        }
        if self.streams.len() >= self.limits.most_streams {
            self.drop_lone_stream();
        }
        if self.streams.len() >= self.limits.most_streams {
            return Ok(None);
        }
        let Some(kept) = self.sources.get_mut(&source) else {
            return Ok(None);
        };
        let kind = StreamKind {
            source,
            ssrc: kept.ssrc,
            port: kept.port,
            row,
        };
        let Some(stream) = Stream::new(self.alloc, kind, self.limits) else {
            return Ok(None);
        };
        let number = self.stream_index.add(key)?;
        kept.streams.push((number, pt))?;
        self.streams.insert(number, stream)?;
        Ok(Some(number))
    }
}

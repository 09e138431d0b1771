//! Parameter sets that session texts say (RFC 6184 8.1, RFC 7798 7.1, RFC 9328 7.2).

use crate::row::Row;
use crate::sections::Part;
use crate::sets::is_set;
use crate::stream::Stream;
use h26x_payload::Codec;
use media_files::listed_units;
use std::alloc::{AllocError, Global};
use std::io;
use thiserror::Error;

// How many bytes the text of a list has at most.
const MOST_TEXT: usize = 65536;

/// Why parameter sets are passed over.
#[derive(Clone, Copy, Debug, Drop, Error)]
pub(crate) enum SetsFault {
    #[error("a list has more than 65536 bytes")]
    TooLong,
    #[error("a list isn't base64")]
    NotBase64,
    #[error("a unit is no parameter set")]
    NoSet,
}

/// A line with the parameters of a payload type, and its number in the text.
#[derive(Clone, Copy)]
struct Format<'a> {
    number: usize,
    parameters: &'a str,
}

/// The parameter sets of all texts.
#[derive(Drop)]
pub(crate) struct SessionSets {
    /// Those of each type, in the order of the text.
    all: Vec<Vec<Vec<u8>>>,
}

/// The type and the parameters of a line `a=fmtp` (RFC 8866 6.15).
fn parameters_of(line: &str) -> Option<(u8, &str)> {
    let (pt, parameters) = line.strip_prefix("a=fmtp:")?.split_once(' ')?;
    Some((pt.parse::<u8>().ok()?, parameters))
}

/// The last line with parameters of each type.
fn formats_of<'a>(section: &Part<'a>) -> [Option<Format<'a>>; 128] {
    let mut formats = [None; 128];
    for (before, line) in section.lines.iter().enumerate() {
        if let Some((pt, parameters)) = parameters_of(*line) {
            let number = section.number.saturating_add(before);
            if pt < 128 {
                formats[pt as usize] = Some(Format { number, parameters });
            }
        }
    }
    formats
}

/// The value of a parameter.
fn value_of<'a>(parameters: &'a str, name: &str) -> Option<&'a str> {
    for parameter in parameters.split(';') {
        if let Some((key, value)) = parameter.split_once('=') {
            if key.trim().eq_ignore_ascii_case(name) {
                return Some(value.trim());
            }
        }
    }
    None
}

/// The parameters of a codec that have parameter sets, in the order of a stream.
fn names_of(codec: Codec) -> &'static [&'static str] {
    match codec {
        Codec::H264 => &["sprop-parameter-sets"],
        Codec::H265 | Codec::H266 => &["sprop-vps", "sprop-sps", "sprop-pps"],
        _ => &[],
    }
}

/// The parameter sets of a codec's parameters; or why they can't be read.
fn sets_in(
    alloc: Global,
    codec: Codec,
    parameters: &str,
) -> Result<Result<Vec<Vec<u8>>, SetsFault>, AllocError> {
    let mut sets = Vec::new(alloc);
    for name in names_of(codec) {
        let Some(text) = value_of(parameters, *name) else {
            continue;
        };
        if text.len() > MOST_TEXT {
            return Ok(Err(SetsFault::TooLong));
        }
        let Some(units) = listed_units(alloc, text)? else {
            return Ok(Err(SetsFault::NotBase64));
        };
        for unit in units {
            if !is_set(codec, &unit) {
                return Ok(Err(SetsFault::NoSet));
            }
            sets.push(unit)?;
        }
    }
    Ok(Ok(sets))
}

impl SessionSets {
    /// No parameter sets.
    pub(crate) fn new(alloc: Global) -> SessionSets {
        SessionSets {
            all: Vec::new(alloc),
        }
    }

    /// The parameter sets of a stream whose units begin without.
    pub(crate) fn before(&self, stream: &Stream) -> &[Vec<u8>] {
        let Some(place) = stream.row.sets else {
            return &[];
        };
        if !stream.heads.begin_without_sets(stream.row.codec) {
            return &[];
        }
        match self.all.get(place) {
            Some(sets) => sets.as_slice(),
            None => &[],
        }
    }

    /// Takes the parameter sets of a section for its rows, which are those from a place on, and tells those that can't
    /// be read.
    pub(crate) fn take(
        &mut self,
        rt: &HostRuntime,
        name: &str,
        section: &Part<'_>,
        rows: &mut Vec<Row>,
        from: usize,
    ) -> io::Result<()> {
        let mut formats = formats_of(section);
        for row in rows.iter_mut().skip(from) {
            let Some(one) = formats.get_mut(row.pt as usize) else {
                continue;
            };
            let Some(format) = one.take() else {
                continue;
            };
            match sets_in(rt.alloc(), row.codec, format.parameters)? {
                Ok(sets) if sets.is_empty() => {}
                Ok(sets) => {
                    row.sets = Some(self.all.len());
                    self.all.push(sets)?;
                }
                Err(why) => {
                    let number = format.number;
                    eprintln!(*rt;
                        "rtprecord: {name}: line {number}: its parameter sets are passed over, as {why}"
                    )?;
                }
            }
        }
        Ok(())
    }
}

//! The lines `o=` and `b=` (RFC 8866 5.2 and 5.8).

use crate::originator::origin;
use sdp_formats_grammar::{Lined, Refusal, Stepped, behind, line_of, split, text_of};
use sdp_formats_values::Bandwidth;
use std::alloc::Global;

/// The line `o=`: the session's number.
pub struct OriginLine;

impl Lined<u64> for OriginLine {
    ghost use Rattle.sdp_formats_reader.specs.Lines.{origin_line};

    ghost form = { origin_line };

    fn read(_alloc: Global, content: &str) -> Result<u64, Refusal> {
        origin(behind(content, "o=")?)
    }

    fn exact_law() {}
}

/// A line `b=`.
pub struct BandwidthLine;

impl Lined<Bandwidth> for BandwidthLine {
    ghost use Rattle.sdp_formats_reader.specs.Lines.{bandwidth_line};

    ghost form = { bandwidth_line };

    fn read(alloc: Global, content: &str) -> Result<Bandwidth, Refusal> {
        let value = behind(content, "b=")?;
        let (typ, val) = split(value, ':')?;
        Ok(Bandwidth {
            typ: text_of(alloc, typ)?,
            val: text_of(alloc, val)?,
        })
    }

    fn exact_law() {}
}

impl Stepped<Bandwidth> for BandwidthLine {
    ghost use Rattle.sdp_formats_grammar.specs.Line.{LineOf};
    ghost use Rattle.sdp_formats_reader.specs.Lines.{bandwidth_line};

    ghost says = { LineOf bandwidth_line.Says };

    fn step(alloc: Global, text: &str) -> Result<(Bandwidth, &str), Refusal> {
        line_of::<Bandwidth, BandwidthLine>(alloc, text)
    }
}

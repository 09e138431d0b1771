//! The sections of a session text, up to the first one with a fault.

ghost use Rattle.std.specs.Prelude.{IfOk};
ghost use Rattle.sdp_formats_grammar.specs.Step.{Shortens, Steps};
ghost use Rattle.sdp_formats_faults.specs.Walking.{AreSections, SectionFails};

use sdp_formats_data::{Inconsistency, MediaAttribute, MediaLine};
use sdp_formats_grammar::{Refusal, line_of, many, perhaps};
use sdp_formats_reader::{
    BandwidthLine, ConnectionLine, HeadLine, MediaAttributeLine, MediaHead, Passed,
};
use sdp_formats_values::Bandwidth;
use std::alloc::{AllocError, Global};

/// The fault of the section that the text begins with, and the text after the section.
fn section_fault(alloc: Global, text: &str) -> Result<(Option<Inconsistency>, &str), Refusal>
    ensures steps { Steps SectionFails text.now result }
    ensures shortens { Shortens text.now result }
{
    let (head, rest) = line_of::<MediaHead, HeadLine>(alloc, text)?;
    let (_, rest) = perhaps::<Passed, ConnectionLine>(alloc, rest)?;
    let (bw, rest) = perhaps::<Bandwidth, BandwidthLine>(alloc, rest)?;
    let (attrs, rest) = many::<MediaAttribute, MediaAttributeLine>(alloc, rest)?;
    let section = MediaLine {
        typ: head.typ,
        disabled: head.disabled,
        proto: head.proto,
        pts: head.pts,
        bw,
        attrs,
    };
    Ok((section.check_consistent(), rest))
}

/// Where the first section with a fault begins, and the fault.
pub(crate) fn first_faulty(
    alloc: Global,
    text: &str,
) -> Result<Option<(&str, Inconsistency)>, AllocError>
    ensures { IfOk result (AreSections text.now) }
{
    let mut left = text;
    loop {
        match section_fault(alloc, left) {
            Ok((Some(fault), _)) => return Ok(Some((left, fault))),
            Ok((None, rest)) => left = rest,
            Err(Refusal::Unfit) => return Ok(None),
            Err(Refusal::Memory) => return Err(AllocError),
        }
    }
}

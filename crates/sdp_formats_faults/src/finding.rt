//! The line at which a session text can't be read on.

ghost use Rattle.std.specs.Prelude.{◌↔◌, IsTrue, IfOk, IfSome, is_none};
ghost use Rattle.sdp_formats_faults.specs.Faults.{IsFaultyLine, IsWhole};
ghost use Rattle.sdp_formats_faults.specs.Walking.{Fails};

use crate::fault::{FaultyLine, LineFault};
use crate::header::{Walk, header};
use crate::numbered::line_at;
use crate::sections::first_faulty;
use sdp_formats_data::SdpError;
use sdp_formats_reader::sdp_parser;
use std::alloc::{AllocError, Global};

/// The line that fails in a text that isn't read.
fn failing_line(alloc: Global, text: &str) -> Result<Option<FaultyLine<'_>>, AllocError>
    ensures { IfOk result (Fails text.now) }
{
    let sections = match header(alloc, text)? {
        Walk::On(rest) => rest,
        Walk::At(rest, fault) => return Ok(Some(line_at(text, rest, fault))),
    };
    match first_faulty(alloc, sections)? {
        Some((rest, fault)) => Ok(Some(line_at(text, rest, LineFault::Section(fault)))),
        None => Ok(None),
    }
}

/// The line at which a session text can't be read on: the first that fails, if `sdp_parser` refuses the text, or else
/// the first of its rest. None if the text is read to its end (RFC 8866 5).
///
/// # Errors
///
/// `AllocError` if memory runs out.
pub fn faulty_line(alloc: Global, text: &str) -> Result<Option<FaultyLine<'_>>, AllocError>
    ensures whole { IfOk result (λ line. IsTrue (is_none line) ↔ IsWhole text.now) }
    ensures line { IfOk result (λ line. IfSome line (IsFaultyLine text.now)) }
{
    match sdp_parser(alloc, text) {
        Ok((_, "")) => Ok(None),
        Ok((_, rest)) => Ok(Some(line_at(text, rest, LineFault::Stray))),
        Err(SdpError::Memory) => Err(AllocError),
        Err(_) => failing_line(alloc, text),
    }
}

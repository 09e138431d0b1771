//! The header of a session text, up to the line that fails.

ghost use Rattle.std.specs.Prelude.{IfOk};
ghost use Rattle.sdp_formats_faults.specs.Walking.{HeadsAs, OpensAs, TakesLine};

use crate::fault::LineFault;
use sdp_formats_data::SessionAttribute;
use sdp_formats_grammar::{Lined, Refusal, line_of, many, perhaps};
use sdp_formats_reader::{
    BandwidthLine, NameLine, OriginLine, OtherLine, Passed, RepeatLine, SessionAttributeLine,
    TimesLine, VersionLine,
};
use sdp_formats_values::Bandwidth;
use std::alloc::{AllocError, Global};

/// Where reading stands.
#[derive(Drop)]
pub(crate) enum Walk<'a> {
    /// It goes on at this rest.
    On(&'a str),
    /// It fails at this rest.
    At(&'a str, LineFault),
}

/// What follows a line of a kind, if the text begins with one.
fn after_line<T: Drop, L: Lined<T>>(alloc: Global, text: &str) -> Result<Option<&str>, AllocError>
    ensures { IfOk result (TakesLine L.form.Says text.now) }
{
    match line_of::<T, L>(alloc, text) {
        Ok((_, rest)) => Ok(Some(rest)),
        Err(Refusal::Unfit) => Ok(None),
        Err(Refusal::Memory) => Err(AllocError),
    }
}

/// The lines `v=`, `o=` and `s=`.
fn opening(alloc: Global, text: &str) -> Result<Walk<'_>, AllocError>
    ensures { IfOk result (OpensAs text.now) }
{
    let Some(origin) = after_line::<Passed, VersionLine>(alloc, text)? else {
        return Ok(Walk::At(text, LineFault::Version));
    };
    let Some(name) = after_line::<u64, OriginLine>(alloc, origin)? else {
        return Ok(Walk::At(origin, LineFault::Origin));
    };
    match after_line::<Passed, NameLine>(alloc, name)? {
        Some(rest) => Ok(Walk::On(rest)),
        None => Ok(Walk::At(name, LineFault::Name)),
    }
}

/// The header and the session's attributes.
pub(crate) fn header(alloc: Global, text: &str) -> Result<Walk<'_>, AllocError>
    ensures { IfOk result (HeadsAs text.now) }
{
    let rest = match opening(alloc, text)? {
        Walk::On(rest) => rest,
        failed => return Ok(failed),
    };
    let Ok((_, rest)) = many::<Passed, OtherLine>(alloc, rest) else {
        return Err(AllocError);
    };
    let Ok((_, times)) = perhaps::<Bandwidth, BandwidthLine>(alloc, rest) else {
        return Err(AllocError);
    };
    let Some(rest) = after_line::<Passed, TimesLine>(alloc, times)? else {
        return Ok(Walk::At(times, LineFault::Times));
    };
    let Ok((_, rest)) = many::<Passed, RepeatLine>(alloc, rest) else {
        return Err(AllocError);
    };
    let Ok((_, rest)) = many::<SessionAttribute, SessionAttributeLine>(alloc, rest) else {
        return Err(AllocError);
    };
    Ok(Walk::On(rest))
}

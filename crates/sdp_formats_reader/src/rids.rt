//! Lines `a=rid` (RFC 8851 4).

ghost use Rattle.std.specs.Prelude.{◌≡◌};
ghost use Rattle.std.specs.Option.{option_copied};
ghost use Rattle.sdp_formats_grammar.specs.Form.{maybe};
ghost use Rattle.sdp_formats_grammar.specs.Refusals.{Gives};
ghost use Rattle.sdp_formats_reader.specs.Rids.{way, no_limits, of_type};
ghost use Rattle.sdp_formats_reader.specs.Rids.{later_limits, typed_limits, untyped_limits};
ghost use Rattle.sdp_formats_reader.specs.Rids.{limits_of, maybe_limits, rid};

use crate::maps::payload_type;
use crate::names::name;
use crate::restricted::restrictions;
use rtp_wire::Pt;
use sdp_formats_data::MediaAttribute;
use sdp_formats_grammar::{Listed, Refusal, halves, some, split, stripped};
use sdp_formats_values::{Pair, RestrictionId, RidDirection};
use std::alloc::Global;

// What follows the direction.
#[derive(Drop)]
struct Limits {
    pt: Listed<Pt>,
    restriction: Listed<Pair>,
}

pub(crate) fn way(word: &str) -> Result<RidDirection, Refusal>
    ensures { Gives result (way word.now) }
{
    match word {
        "send" => Ok(RidDirection::Send),
        "recv" => Ok(RidDirection::Recv),
        _ => Err(Refusal::Unfit),
    }
}

fn no_limits(alloc: Global) -> Limits
    ensures { result ≡ no_limits }
{
    Limits {
        pt: Listed::new(alloc),
        restriction: Listed::new(alloc),
    }
}

/// Restrictions after a payload type's blank: one at least.
fn later_limits(alloc: Global, text: Option<&str>) -> Result<Listed<Pair>, Refusal>
    ensures { Gives result (later_limits (option_copied text.entry)) }
{
    match text {
        Some(text) => restrictions(alloc, some(text)?),
        None => Ok(Listed::new(alloc)),
    }
}

fn of_type(alloc: Global, pt: Pt) -> Result<Listed<Pt>, Refusal>
    ensures { Gives result (of_type pt) }
{
    let mut types = Vec::new(alloc);
    types.push(pt)?;
    Ok(Listed::of(types))
}

#[tactic(auto, unfolding(crate::specs::Rids::typed_limits))]
fn typed_limits(alloc: Global, text: &str) -> Result<Limits, Refusal>
    ensures { Gives result (typed_limits text.now) }
{
    let (word, more) = halves(text, ' ');
    let pt = payload_type(word)?;
    let restriction = later_limits(alloc, more)?;
    let pt = of_type(alloc, pt)?;
    Ok(Limits { pt, restriction })
}

fn untyped_limits(alloc: Global, text: &str) -> Result<Limits, Refusal>
    ensures { Gives result (untyped_limits text.now) }
{
    if stripped(text, "p").is_some() {
        return Err(Refusal::Unfit);
    }
    let restriction = restrictions(alloc, text)?;
    Ok(Limits {
        pt: Listed::new(alloc),
        restriction,
    })
}

fn limits_of(alloc: Global, text: &str) -> Result<Limits, Refusal>
    ensures { Gives result (limits_of text.now) }
{
    match stripped(text, "pt=") {
        Some(rest) => typed_limits(alloc, rest),
        None => untyped_limits(alloc, text),
    }
}

fn maybe_limits(alloc: Global, text: Option<&str>) -> Result<Option<Limits>, Refusal>
    ensures { Gives result (maybe limits_of (option_copied text.entry)) }
{
    match text {
        Some(text) => Ok(Some(limits_of(alloc, text)?)),
        None => Ok(None),
    }
}

fn or_none(alloc: Global, limits: Option<Limits>) -> Limits
    ensures { result ≡ maybe_limits limits }
{
    match limits {
        Some(limits) => limits,
        None => no_limits(alloc),
    }
}

/// The value of an `a=rid` line (RFC 8851 4).
///
/// # Errors
///
/// `Unfit` if it is no such value, `Memory` if memory runs out.
pub fn rid(alloc: Global, value: &str) -> Result<MediaAttribute, Refusal>
    ensures { Gives result (rid.reads value.now) }
{
    let (word, rest) = split(value, ' ')?;
    let id = RestrictionId::new_active(name(alloc, word)?);
    let (word, more) = halves(rest, ' ');
    let direction = way(word)?;
    let limits = or_none(alloc, maybe_limits(alloc, more)?);
    Ok(MediaAttribute::Rid {
        id,
        direction,
        pt: limits.pt,
        restriction: limits.restriction,
    })
}

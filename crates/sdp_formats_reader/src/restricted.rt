//! Keys and values of a stream's restrictions (RFC 8851 4).

ghost use Rattle.std.specs.Prelude.{◌≡◌};
ghost use Rattle.sdp_formats_grammar.specs.Refusals.{Gives, GivesBy};
ghost use Rattle.sdp_formats_reader.specs.Pairs.{restriction_at, with_rest, ends_open, all_read, restrictions_of};

use crate::keyed::{or_empty, unblanked, word};
use sdp_formats_grammar::{Listed, Refusal, Stepped, halves, many, split};
use sdp_formats_values::Pair;
use std::alloc::Global;

// A key with its value up to a semicolon, no blanks after it.
struct RestrictionStep;

#[tactic(auto, unfolding(crate::specs::Pairs::restriction_at))]
fn restriction_at(alloc: Global, text: &str) -> Result<(Pair, &str), Refusal>
    ensures { GivesBy with_rest result (restriction_at text.now) }
{
    let (key, rest) = split(unblanked(text), '=')?;
    let key = word(alloc, key)?;
    let (value, rest) = halves(rest, ';');
    let value = word(alloc, value)?;
    Ok((Pair { key, value }, or_empty(rest)))
}

impl Stepped<Pair> for RestrictionStep {
    ghost use Rattle.sdp_formats_reader.specs.Runs.{At};
    ghost use Rattle.sdp_formats_reader.specs.Pairs.{restriction_at};

    ghost says = { At restriction_at };

    fn step(alloc: Global, text: &str) -> Result<(Pair, &str), Refusal> {
        restriction_at(alloc, text)
    }
}

fn ends_open(text: &str) -> bool
    ensures { result ≡ ends_open text.now }
{
    match text.strip_suffix(';') {
        Some(_) => true,
        None => false,
    }
}

fn all_read(pairs: Listed<Pair>, rest: &str) -> Result<Listed<Pair>, Refusal>
    ensures { Gives result (all_read (pairs, rest.now)) }
{
    if rest.is_empty() {
        return Ok(pairs);
    }
    Err(Refusal::Unfit)
}

/// The restrictions of a text: keys and values with semicolons between and none at the end; none for an empty text.
///
/// # Errors
///
/// `Unfit` if it is no such list, `Memory` if memory runs out.
#[tactic(auto, unfolding(crate::specs::Pairs::restrictions_of))]
pub fn restrictions(alloc: Global, text: &str) -> Result<Listed<Pair>, Refusal>
    ensures { Gives result (restrictions_of text.now) }
{
    if ends_open(text) {
        return Err(Refusal::Unfit);
    }
    let (pairs, rest) = many::<Pair, RestrictionStep>(alloc, text)?;
    all_read(pairs, rest)
}

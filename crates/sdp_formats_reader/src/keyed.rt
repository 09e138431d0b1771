//! Keys and values.

ghost use Rattle.std.specs.Prelude.{◌≡◌};
ghost use Rattle.std.specs.List.{list_all};
ghost use Rattle.std.specs.Option.{option_copied};
ghost use Rattle.sdp_formats_grammar.specs.Refusals.{Gives, GivesBy};
ghost use Rattle.sdp_formats_reader.specs.Pairs.{word, is_word_byte, is_blank};
ghost use Rattle.sdp_formats_reader.specs.Pairs.{behind_blank, unblanked, word_before};
ghost use Rattle.sdp_formats_reader.specs.Pairs.{padded, pair_at, pairs_of, or_empty, whole, with_rest};

use sdp_formats_grammar::{
    Listed, Refusal, Stepped, Text, copy, halves, many, some, split, stripped,
};
use sdp_formats_values::Pair;
use std::alloc::Global;

// A key with its value, blanks and tabs round them, up to a semicolon.
struct PairStep;

fn has_word_bytes(text: &str) -> bool
    ensures { result ≡ list_all is_word_byte text.now }
{
    text.as_bytes()
        .iter()
        .all(|byte| *byte != b' ' && *byte != b'\t')
}

pub(crate) fn word(alloc: Global, text: &str) -> Result<Text, Refusal>
    ensures { Gives result (word.reads text.now) }
{
    let text = some(text)?;
    if has_word_bytes(text) {
        copy(alloc, text)
    } else {
        Err(Refusal::Unfit)
    }
}

fn is_blank_alone(text: &str) -> bool
    ensures { result ≡ list_all is_blank text.now }
{
    text.as_bytes()
        .iter()
        .all(|byte| *byte == b' ' || *byte == b'\t')
}

/// The text after one blank or tab.
fn behind_blank(text: &str) -> Option<&str>
    ensures { option_copied result ≡ behind_blank text.now }
{
    match stripped(text, " ") {
        Some(rest) => Some(rest),
        None => stripped(text, "\t"),
    }
}

/// The text after the blanks and tabs that it begins with.
pub(crate) fn unblanked(text: &str) -> &str
    ensures { result.now ≡ unblanked text.now }
{
    let mut left = text;
    while let Some(rest) = behind_blank(left) {
        left = rest;
    }
    left
}

fn word_before(text: &str) -> &str
    ensures { result.now ≡ word_before text.now }
{
    let (front, _) = halves(text, ' ');
    let (word, _) = halves(front, '\t');
    word
}

/// A word with blanks and tabs alone after it.
#[tactic(auto, unfolding(crate::specs::Pairs::padded))]
fn padded(text: &str) -> Result<&str, Refusal>
    ensures { GivesBy (λ x. x.now) result (padded text.now) }
{
    let word = some(word_before(text))?;
    let tail = stripped(text, word).ok_or(Refusal::Unfit)?;
    if is_blank_alone(tail) {
        Ok(word)
    } else {
        Err(Refusal::Unfit)
    }
}

pub(crate) fn or_empty(text: Option<&str>) -> &str
    ensures { result.now ≡ or_empty (option_copied text.entry) }
{
    match text {
        Some(text) => text,
        None => "",
    }
}

#[tactic(auto, unfolding(crate::specs::Pairs::pair_at))]
fn pair_at(alloc: Global, text: &str) -> Result<(Pair, &str), Refusal>
    ensures { GivesBy with_rest result (pair_at text.now) }
{
    let (key, rest) = split(unblanked(text), '=')?;
    let key = word(alloc, key)?;
    let (value, rest) = halves(rest, ';');
    let value = padded(value)?;
    let value = copy(alloc, value)?;
    Ok((Pair { key, value }, or_empty(rest)))
}

impl Stepped<Pair> for PairStep {
    ghost use Rattle.sdp_formats_reader.specs.Runs.{At};
    ghost use Rattle.sdp_formats_reader.specs.Pairs.{pair_at};

    ghost says = { At pair_at };

    fn step(alloc: Global, text: &str) -> Result<(Pair, &str), Refusal> {
        pair_at(alloc, text)
    }
}

/// The pairs, if there are some and blanks alone are left.
fn whole(pairs: Listed<Pair>, rest: &str) -> Result<Listed<Pair>, Refusal>
    ensures { Gives result (whole (pairs, rest.now)) }
{
    if pairs.as_slice().len() == 0 {
        return Err(Refusal::Unfit);
    }
    if !is_blank_alone(rest) {
        return Err(Refusal::Unfit);
    }
    Ok(pairs)
}

/// The pairs of a text, with blanks and tabs round each `;`, and a `;` at the end or none.
///
/// # Errors
///
/// `Unfit` if it has no pair, or something else follows the last one, `Memory` if memory runs out.
pub fn pairs(alloc: Global, text: &str) -> Result<Listed<Pair>, Refusal>
    ensures { Gives result (pairs_of text.now) }
{
    let (pairs, rest) = many::<Pair, PairStep>(alloc, text)?;
    whole(pairs, rest)
}

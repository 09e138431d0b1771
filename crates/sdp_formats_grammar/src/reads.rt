//! Lists of words in a line.

ghost use Rattle.std.specs.Prelude.{List, ℕ, Option};
ghost use Rattle.sdp_formats_grammar.specs.Refusals.{Gives};
ghost use Rattle.sdp_formats_grammar.specs.Split.{parts};
ghost use Rattle.sdp_formats_grammar.specs.Form.{each};
ghost use Rattle.sdp_formats_grammar.specs.Pieces.{parts_from};
ghost use Rattle.std.specs.Option.{option_copied};
ghost use Rattle.std.specs.Prelude.{◌≡◌, ◌∷◌, ◌<◌};

use crate::listed::Listed;
use crate::refusal::Refusal;
use std::alloc::Global;

/// A form of a word: how the words of a list are read.
pub trait Reads<T: Drop> {
    /// What a word says, if it is of the form.
    ghost reads: { List ℕ → Option T };

    /// Reads the whole of a word.
    fn read(alloc: Global, text: &str) -> Result<T, Refusal>
        ensures { Gives result (reads text.now) };
}

/// The text before the first such character, and what follows it if there is one.
///
/// # Conditions
///
/// `at` is an ASCII character.
pub fn first_part(text: &str, at: char) -> (&str, Option<&str>)
    requires { at < 128 }
    ensures { parts at text.now ≡ result.0.now ∷ parts_from at (option_copied result.1) }
{
    match text.split_once(at) {
        Some((piece, rest)) => (piece, Some(rest)),
        None => (text, None),
    }
}

/// The values of the words of a text, which the sign `at` parts; each is of the form `R`.
///
/// # Conditions
///
/// `at` is an ASCII character.
///
/// # Errors
///
/// `Unfit` if a word isn't of the form, `Memory` if memory runs out.
pub fn list_of<T: Drop, R: Reads<T>>(
    alloc: Global,
    text: &str,
    at: char,
) -> Result<Listed<T>, Refusal>
    requires { at < 128 }
    ensures { Gives result (each R.reads (parts at text.now)) }
{
    let mut items = Vec::new(alloc);
    let mut rest = Some(text);
    while let Some(left) = rest {
        let (piece, after) = first_part(left, at);
        items.push(R::read(alloc, piece)?)?;
        rest = after;
    }
    Ok(Listed::of(items))
}

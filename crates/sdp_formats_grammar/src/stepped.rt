//! Values in sequence.

ghost use Rattle.std.specs.Prelude.{List, ℕ};
ghost use Rattle.sdp_formats_grammar.specs.Step.{Steps, Finds, Shortens, Many, Perhaps};

use crate::listed::Listed;
use crate::primitives::fitted;
use crate::refusal::Refusal;
use std::alloc::Global;

/// A step over a text: how a value at the beginning of a text is read.
pub trait Stepped<T: Drop> {
    /// What a text begins with, and what is left after it.
    ghost says: { List ℕ → T → List ℕ → Type 0 };

    /// Reads what the text begins with, and returns the text after it, which is shorter.
    fn step(alloc: Global, text: &str) -> Result<(T, &str), Refusal>
        ensures steps { Steps says text.now result }
        ensures shortens { Shortens text.now result };
}

/// The values that the text begins with, as many as there are, and the text after them.
///
/// # Errors
///
/// `Memory` if memory runs out, and no other.
pub fn many<T: Drop, S: Stepped<T>>(alloc: Global, text: &str) -> Result<(Listed<T>, &str), Refusal>
    ensures { Finds (Many S.says) text.now result }
{
    let mut items = Vec::new(alloc);
    let mut left = text;
    while let Some((item, rest)) = fitted(S::step(alloc, left))? {
        items.push(item)?;
        left = rest;
    }
    Ok((Listed::of(items), left))
}

/// The value that the text begins with, if there is one, and the text after it.
///
/// # Errors
///
/// `Memory` if memory runs out, and no other.
pub fn perhaps<T: Drop, S: Stepped<T>>(
    alloc: Global,
    text: &str,
) -> Result<(Option<T>, &str), Refusal>
    ensures { Finds (Perhaps S.says) text.now result }
{
    match fitted(S::step(alloc, text))? {
        Some((item, rest)) => Ok((Some(item), rest)),
        None => Ok((None, text)),
    }
}

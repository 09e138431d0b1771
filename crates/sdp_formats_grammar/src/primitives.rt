//! Pieces of a line.

ghost use Rattle.std.specs.Prelude.{◌≡◌, ◌≢◌, ◌<◌, Some, IfErr};
ghost use Rattle.std.specs.Option.{option_copied, option_map};
ghost use Rattle.sdp_formats_grammar.specs.Refusals.{Gives, GivesBy, parted, halved, fielded, fitted_of};
ghost use Rattle.sdp_formats_grammar.specs.Split.{split_first, behind, halves};
ghost use Rattle.sdp_formats_grammar.specs.Form.{some_text, maybe, field};

use crate::refusal::Refusal;
use crate::text::Text;
use std::alloc::Global;

/// What is before the first such character, and after it.
///
/// # Conditions
///
/// `at` is an ASCII character.
///
/// # Errors
///
/// `Unfit` if there is no such character.
pub fn split(text: &str, at: char) -> Result<(&str, &str), Refusal>
    requires { at < 128 }
    ensures gives { GivesBy parted result (split_first at text.now) }
    ensures never_memory { IfErr result (λ e. e ≢ Refusal.Memory) }
{
    text.split_once(at).ok_or(Refusal::Unfit)
}

/// The name of an attribute and its value: what is before the first colon, and after it. None if there is no
/// colon.
pub fn named(text: &str) -> Option<(&str, &str)>
    ensures { option_map parted result ≡ split_first 58 text.now }
{
    text.split_once(':')
}

/// What is before the first such character, and after it if there is one.
///
/// # Conditions
///
/// `at` is an ASCII character.
pub fn halves(text: &str, at: char) -> (&str, Option<&str>)
    requires { at < 128 }
    ensures { halves at text.now ≡ halved result }
{
    match text.split_once(at) {
        Some((first, rest)) => (first, Some(rest)),
        None => (text, None),
    }
}

/// What follows the words, if the text begins with them.
pub fn stripped<'a>(text: &'a str, words: &str) -> Option<&'a str>
    ensures { option_copied result ≡ behind words.now text.now }
{
    text.strip_prefix(words)
}

/// The word after a field's name, if the text begins with the name, and what is left after a blank.
///
/// # Errors
///
/// `Unfit` if the word after the name is empty.
pub fn field<'a>(
    text: Option<&'a str>,
    name: &str,
) -> Result<(Option<&'a str>, Option<&'a str>), Refusal>
    ensures gives { GivesBy fielded result (field name.now (option_copied text.entry)) }
    ensures never_memory { IfErr result (λ e. e ≢ Refusal.Memory) }
{
    let Some(text) = text else {
        return Ok((None, None));
    };
    let Some(value) = stripped(text, name) else {
        return Ok((None, Some(text)));
    };
    let (word, rest) = halves(value, ' ');
    Ok((Some(some(word)?), rest))
}

/// What was read, or None if the text is unfit.
///
/// # Errors
///
/// `Memory` if memory ran out.
pub fn fitted<T>(read: Result<T, Refusal>) -> Result<Option<T>, Refusal>
    ensures { result ≡ fitted_of read }
{
    match read {
        Ok(value) => Ok(Some(value)),
        Err(Refusal::Unfit) => Ok(None),
        Err(Refusal::Memory) => Err(Refusal::Memory),
    }
}

/// A copy of a text.
///
/// # Errors
///
/// `Memory` if memory runs out.
pub fn copy(alloc: Global, text: &str) -> Result<Text, Refusal>
    ensures { Gives result (Some text.now) }
{
    Ok(Text::of(String::from_str(alloc, text)?))
}

/// A copy of a text that may be there.
///
/// # Errors
///
/// `Memory` if memory runs out.
pub fn copied(alloc: Global, text: Option<&str>) -> Result<Option<Text>, Refusal>
    ensures { Gives result (Some (option_copied text.entry)) }
{
    match text {
        Some(text) => Ok(Some(Text::of(String::from_str(alloc, text)?))),
        None => Ok(None),
    }
}

/// What follows the words that the text begins with.
///
/// # Errors
///
/// `Unfit` if it doesn't begin with them.
pub fn behind<'a>(text: &'a str, words: &str) -> Result<&'a str, Refusal>
    ensures gives { GivesBy (λ x. x.now) result (behind words.now text.now) }
    ensures never_memory { IfErr result (λ e. e ≢ Refusal.Memory) }
{
    text.strip_prefix(words).ok_or(Refusal::Unfit)
}

/// A text that may be there, and then isn't empty.
///
/// # Errors
///
/// `Unfit` if it is there and empty.
pub fn maybe_some<'a>(text: Option<&'a str>) -> Result<Option<&'a str>, Refusal>
    ensures gives { GivesBy option_copied result (maybe some_text (option_copied text.entry)) }
    ensures never_memory { IfErr result (λ e. e ≢ Refusal.Memory) }
{
    match text {
        Some(text) => Ok(Some(some(text)?)),
        None => Ok(None),
    }
}

/// A text that isn't empty.
///
/// # Errors
///
/// `Unfit` if it is empty.
pub fn some(text: &str) -> Result<&str, Refusal>
    ensures gives { GivesBy (λ x. x.now) result (some_text text.now) }
    ensures never_memory { IfErr result (λ e. e ≢ Refusal.Memory) }
{
    if text.is_empty() {
        return Err(Refusal::Unfit);
    }
    Ok(text)
}

/// A copy of a text that isn't empty.
///
/// # Errors
///
/// `Unfit` if it is empty, `Memory` if memory runs out.
pub fn text_of(alloc: Global, text: &str) -> Result<Text, Refusal>
    ensures { Gives result (some_text text.now) }
{
    if text.is_empty() {
        return Err(Refusal::Unfit);
    }
    Ok(Text::of(String::from_str(alloc, text)?))
}

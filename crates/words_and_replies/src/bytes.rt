//! The bytes of a word.

ghost use Rattle.std.specs.Prelude.{◌≡◌, ◌<◌, ◌↔◌, ◌∷◌, length, slice_index, IfOk, IfSome, IfNone, IsTrue};
ghost use Rattle.std.specs.List.{repeat};
ghost use Rattle.std.specs.Option.{option_copied, option_map};
ghost use Rattle.words_and_replies.specs.Bytes.{before_sign, behind_sign, without_stars, plus_parts, parts_in};
ghost use Rattle.words_and_replies.specs.Bytes.{digits_bytes, count_word, count_of, part_bytes, bytes_of};

use hex::FromHexError;
use std::alloc::{AllocError, Global};

/// The parts of a word before and after the first such character; the whole word and nothing if
/// there is none.
pub fn part(word: &str, sign: char) -> (&str, &str)
    ensures before { sign < 128 → result.0.now ≡ before_sign sign word.now }
    ensures behind { sign < 128 → result.1.now ≡ behind_sign sign word.now }
{
    word.split_once(sign).unwrap_or((word, ""))
}

/// The bytes of a word: parts joined by `+`; trailing stars are ignored. None if it isn't valid.
pub(crate) fn decoded(alloc: Global, word: &str) -> Result<Option<Vec<u8>>, AllocError>
    ensures { IfOk result (λ said. option_map (λ v. v.items) said ≡ bytes_of word.now) }
{
    let mut bytes = Vec::new(alloc);
    let mut rest = Some(unstarred(word));
    while let Some(text) = rest {
        let (part, after) = split_plus(text);
        let Some(part) = part_bytes(alloc, part)? else {
            return Ok(None);
        };
        bytes.extend_from_slice(&part)?;
        rest = after;
    }
    Ok(Some(bytes))
}

/// The word without its trailing stars.
fn unstarred(word: &str) -> &str
    ensures { result.now ≡ without_stars word.now }
{
    let mut left = word;
    while let Some(front) = before_star(left) {
        left = front;
    }
    left
}

/// What is before the star at the end of a word.
fn before_star(word: &str) -> Option<&str>
    ensures star { IfSome result (λ front. without_stars front.now ≡ without_stars word.now) }
    ensures shorter { IfSome result (λ front. length front.now < length word.now) }
    ensures plain { IfNone result (without_stars word.now ≡ word.now) }
{
    match word.strip_suffix('*') {
        Some(front) => Some(front),
        None => None,
    }
}

/// What is before the first plus sign, and what follows it.
fn split_plus(text: &str) -> (&str, Option<&str>)
    ensures { plus_parts text.now ≡ result.0.now ∷ parts_in (option_copied result.1) }
{
    match text.split_once('+') {
        Some((part, rest)) => (part, Some(rest)),
        None => (text, None),
    }
}

/// The bytes of a part: hexadecimal digits, optionally followed by `:N`, which repeats them N
/// times.
fn part_bytes(alloc: Global, part: &str) -> Result<Option<Vec<u8>>, AllocError>
    ensures { IfOk result (λ said. option_map (λ v. v.items) said ≡ part_bytes part.now) }
{
    let (digits, count) = digits_and_count(part);
    let Some(count) = count else {
        return Ok(None);
    };
    match digits_bytes(alloc, digits)? {
        Some(once) => Ok(Some(repeated(alloc, &once, count)?)),
        None => Ok(None),
    }
}

/// The digits of a part, and how often they are there, if that is a number.
fn digits_and_count(part: &str) -> (&str, Option<u32>)
    ensures digits { result.0.now ≡ before_sign 58 part.now }
    ensures count { result.1 ≡ count_of (count_word part.now) }
{
    match part.split_once(':') {
        Some((digits, count)) => (digits, count_of(count)),
        None => (part, Some(1)),
    }
}

/// The number that decimal digits write.
fn count_of(word: &str) -> Option<u32>
    ensures { result ≡ count_of word.now }
{
    // std's parser also accepts a plus sign.
    if has_plus(word) {
        return None;
    }
    word.parse::<u32>().ok()
}

/// Does the word begin with a plus sign?
fn has_plus(word: &str) -> bool
    ensures { IsTrue result ↔ (slice_index word.now 0 ≡ 43) }
{
    match word.as_bytes() {
        [first, ..] => *first == b'+',
        [] => false,
    }
}

/// Bytes so often.
fn repeated(alloc: Global, once: &[u8], count: u32) -> Result<Vec<u8>, AllocError>
    ensures { IfOk result (λ bytes. bytes.items ≡ repeat count once.now) }
{
    let mut bytes = Vec::new(alloc);
    for _ in 0..count {
        bytes.extend_from_slice(once)?;
    }
    Ok(bytes)
}

/// The bytes of hexadecimal digits; a dash, or no digit, means none.
fn digits_bytes(alloc: Global, digits: &str) -> Result<Option<Vec<u8>>, AllocError>
    ensures { IfOk result (λ said. option_map (λ v. v.items) said ≡ digits_bytes digits.now) }
{
    if digits.is_empty() {
        return Ok(Some(Vec::new(alloc)));
    }
    if digits == "-" {
        return Ok(Some(Vec::new(alloc)));
    }
    match hex::decode(alloc, digits) {
        Ok(bytes) => Ok(Some(bytes)),
        Err(fault) => match fault {
            FromHexError::OutOfMemory => Err(AllocError),
            _ => Ok(None),
        },
    }
}

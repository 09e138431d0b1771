//! What single words say, and the readers of a line's next word.

ghost use Rattle.std.specs.Prelude.{◌≡◌, ◌≢◌, ◌+◌, ◌^◌, ◌≤◌, ◌∷◌, IsTrue, IfErr, IfSome, ◌↔◌, slice_index, IfOk};
ghost use Rattle.std.specs.Option.{option_copied};
ghost use Rattle.rtp_media_program.specs.Words.{letter_of, number_below, text_of, hex_of, dash_or, numbers_of};
ghost use Rattle.rtp_media_program.specs.Words.{comma_parts, parts_in, first, behind, held_value, mid_value};
ghost use Rattle.rtp_media_program.specs.Misreads.{Reads};

use crate::misread::Misread;
use crate::owned::{Bytes, Word};
use crate::words::{Letter, WordsLeft};
use hex::FromHexError;
use std::alloc::Global;

/// The end that a letter names.
fn letter_of(word: &str) -> Option<Letter>
    ensures { result ≡ letter_of word.now }
{
    match word {
        "a" => Some(Letter::A),
        "b" => Some(Letter::B),
        _ => None,
    }
}

/// Does the word begin with a plus sign?
fn has_plus(word: &str) -> bool
    ensures { IsTrue result ↔ (slice_index word.now 0 ≡ 43) }
{
    match word.as_bytes() {
        [first, ..] => *first == b'+',
        [] => false,
    }
}

/// The number of 64 bits that decimal digits write.
fn number_of(word: &str) -> Option<u64>
    ensures { result ≡ number_below (2 ^ 64) word.now }
{
    // std's parser also accepts a plus sign.
    if has_plus(word) {
        return None;
    }
    word.parse::<u64>().ok()
}

/// The number up to `max` that decimal digits write.
pub fn number_up_to(word: &str, max: u64) -> Option<u64>
    ensures value { result ≡ number_below (max + 1) word.now }
    ensures bound { IfSome result (λ n. n ≤ max) }
{
    let number = number_of(word)?;
    if number <= max { Some(number) } else { None }
}

/// The bytes that hexadecimal digits write.
///
/// # Errors
///
/// `NotUnderstood` if it has another sign, or an odd number of them, or none; or `Memory`.
pub fn hex_of(alloc: Global, word: &str) -> Result<Bytes, Misread>
    ensures { Reads result (hex_of word.now) }
{
    if word == "-" {
        return Ok(Bytes::from_vec(Vec::new(alloc)));
    }
    if word.is_empty() {
        return Err(Misread::NotUnderstood);
    }
    match hex::decode(alloc, word) {
        Ok(bytes) => Ok(Bytes::from_vec(bytes)),
        Err(fault) => match fault {
            FromHexError::OutOfMemory => Err(Misread::Memory),
            _ => Err(Misread::NotUnderstood),
        },
    }
}

/// The numbers below 256 that are between single commas.
fn numbers_of(alloc: Global, word: &str) -> Result<Bytes, Misread>
    ensures { Reads result (numbers_of word.now) }
{
    let mut numbers = Vec::new(alloc);
    let mut rest = Some(word);
    while let Some(text) = rest {
        let (number, after) = split_comma(text);
        let Some(number) = number_up_to(number, u8::MAX as u64) else {
            return Err(Misread::NotUnderstood);
        };
        numbers.push(number as u8)?;
        rest = after;
    }
    Ok(Bytes::from_vec(numbers))
}

/// The text before the first comma, and what follows that comma.
pub(crate) fn split_comma(text: &str) -> (&str, Option<&str>)
    ensures { comma_parts text.now ≡ result.0.now ∷ parts_in (option_copied result.1) }
{
    match text.split_once(',') {
        Some((part, rest)) => (part, Some(rest)),
        None => (text, None),
    }
}

/// The end that the next word names.
///
/// # Errors
///
/// `NotUnderstood` if no word is left, or it names no end.
pub fn letter_word(words: WordsLeft<'_>) -> Result<(Letter, WordsLeft<'_>), Misread>
    ensures value { Reads result (first letter_of words.entry) }
    ensures never_memory { IfErr result (λ e. e ≢ Misread.Memory) }
{
    let (word, rest) = words.next()?;
    match letter_of(word) {
        Some(letter) => Ok((letter, rest)),
        None => Err(Misread::NotUnderstood),
    }
}

/// The next word as a number up to `max`.
///
/// # Errors
///
/// `NotUnderstood` if no word is left, or it is no such number.
pub fn number_word(words: WordsLeft<'_>, max: u64) -> Result<(u64, WordsLeft<'_>), Misread>
    ensures value { Reads result (first (number_below (max + 1)) words.entry) }
    ensures bound { IfOk result (λ x. x.0 ≤ max) }
    ensures never_memory { IfErr result (λ e. e ≢ Misread.Memory) }
{
    let (word, rest) = words.next()?;
    match number_up_to(word, max) {
        Some(number) => Ok((number, rest)),
        None => Err(Misread::NotUnderstood),
    }
}

/// The next word as a text.
///
/// # Errors
///
/// `NotUnderstood` if no word is left, or it is empty; or `Memory`.
pub fn text_word(alloc: Global, words: WordsLeft<'_>) -> Result<(Word, WordsLeft<'_>), Misread>
    ensures { Reads result (first text_of words.entry) }
{
    let (word, rest) = words.next()?;
    if word.is_empty() {
        return Err(Misread::NotUnderstood);
    }
    Ok((Word::from_str(alloc, word)?, rest))
}

/// The bytes that the next word writes in hexadecimal digits.
///
/// # Errors
///
/// `NotUnderstood` if no word is left, or it isn't hexadecimal; or `Memory`.
pub fn hex_word(alloc: Global, words: WordsLeft<'_>) -> Result<(Bytes, WordsLeft<'_>), Misread>
    ensures { Reads result (first hex_of words.entry) }
{
    let (word, rest) = words.next()?;
    let bytes = hex_of(alloc, word)?;
    Ok((bytes, rest))
}

/// The distances of the next word, or none at a dash.
///
/// # Errors
///
/// `NotUnderstood` if no word is left, or it is neither a dash nor numbers; or `Memory`.
pub fn distances_word(
    alloc: Global,
    words: WordsLeft<'_>,
) -> Result<(Option<Bytes>, WordsLeft<'_>), Misread>
    ensures { Reads result (first (dash_or numbers_of) words.entry) }
{
    let (word, rest) = words.next()?;
    if word == "-" {
        return Ok((None, rest));
    }
    let distances = numbers_of(alloc, word)?;
    Ok((Some(distances), rest))
}

/// The picture id of the next word, or none at a dash.
///
/// # Errors
///
/// `NotUnderstood` if no word is left, or it is neither a dash nor a number below 65,536.
pub fn picture_id_word(words: WordsLeft<'_>) -> Result<(Option<u16>, WordsLeft<'_>), Misread>
    ensures value { Reads result (first (dash_or (number_below (2 ^ 16))) words.entry) }
    ensures never_memory { IfErr result (λ e. e ≢ Misread.Memory) }
{
    let (word, rest) = words.next()?;
    if word == "-" {
        return Ok((None, rest));
    }
    match number_up_to(word, u16::MAX as u64) {
        Some(id) => Ok((Some(id as u16), rest)),
        None => Err(Misread::NotUnderstood),
    }
}

/// The number below 256 of the next word, or none at a dash.
///
/// # Errors
///
/// `NotUnderstood` if no word is left, or it is neither a dash nor such a number.
pub fn number_or_dash_word(words: WordsLeft<'_>) -> Result<(Option<u8>, WordsLeft<'_>), Misread>
    ensures value { Reads result (first (dash_or (number_below (2 ^ 8))) words.entry) }
    ensures never_memory { IfErr result (λ e. e ≢ Misread.Memory) }
{
    let (word, rest) = words.next()?;
    if word == "-" {
        return Ok((None, rest));
    }
    match number_up_to(word, u8::MAX as u64) {
        Some(number) => Ok((Some(number as u8), rest)),
        None => Err(Misread::NotUnderstood),
    }
}

/// The text of the next word, or none at a dash.
///
/// # Errors
///
/// `NotUnderstood` if no word is left, or it is empty; or `Memory`.
pub fn text_or_dash_word(
    alloc: Global,
    words: WordsLeft<'_>,
) -> Result<(Option<Word>, WordsLeft<'_>), Misread>
    ensures { Reads result (first (dash_or text_of) words.entry) }
{
    let (word, rest) = words.next()?;
    if word == "-" {
        return Ok((None, rest));
    }
    if word.is_empty() {
        return Err(Misread::NotUnderstood);
    }
    let text = Word::from_str(alloc, word)?;
    Ok((Some(text), rest))
}

/// What follows the letters that the word begins with.
pub fn behind<'a>(word: &'a str, letters: &str) -> Option<&'a str>
    ensures { option_copied result ≡ behind letters.now word.now }
{
    word.strip_prefix(letters)
}

/// How many packets may wait if a line doesn't say.
const HELD: usize = 4096;

/// The number of packets that the last word says; 4,096 if no word is left.
///
/// # Errors
///
/// `NotUnderstood` if the word is no number, or another follows it.
pub fn held_value(words: WordsLeft<'_>) -> Result<usize, Misread>
    ensures { Reads result (held_value words.entry) }
{
    let Ok((word, rest)) = words.next() else {
        return Ok(HELD);
    };
    let Some(held) = number_up_to(word, usize::MAX as u64) else {
        return Err(Misread::NotUnderstood);
    };
    rest.end()?;
    Ok(held as usize)
}

/// The text of the last word `mid=TEXT`; none if no word is left.
///
/// # Errors
///
/// `NotUnderstood` if the word begins with something else, or another follows it; or `Memory`.
pub fn mid_value(alloc: Global, words: WordsLeft<'_>) -> Result<Option<Word>, Misread>
    ensures { Reads result (mid_value words.entry) }
{
    let Ok((word, rest)) = words.next() else {
        return Ok(None);
    };
    let Some(text) = behind(word, "mid=") else {
        return Err(Misread::NotUnderstood);
    };
    rest.end()?;
    Ok(Some(Word::from_str(alloc, text)?))
}

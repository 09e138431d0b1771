//! The lines that are read, and their words.

ghost use Rattle.std.specs.Prelude.{◌≡◌};
ghost use Rattle.rtp_media_program.specs.ExplainedLines.{is_comment, number_at, text_of, word_at};
ghost use Rattle.rtp_media_program.specs.Noted.{number_or_zero};

use crate::fields::number_up_to;

/// Whether a line isn't for the program: `help`, or one that begins with `#`.
pub fn is_comment(line: &[u8]) -> bool
    ensures { result ≡ is_comment line.now }
{
    line == b"help".as_slice() || line.starts_with(b"#")
}

/// A line as it is shown: itself, if it is UTF-8.
#[tactic(auto, using(payload_core_base::proofs::Texts::text, payload_core_base::proofs::Texts::no_text))]
pub fn text_of(line: &[u8]) -> &str
    ensures { result.now ≡ text_of line.now }
{
    match str::from_utf8(line) {
        Ok(text) => text,
        Err(_) => "(a line that isn't UTF-8)",
    }
}

/// The word of this place in a line, counted from 0; an empty one if there is none.
pub fn word_at(line: &str, place: usize) -> &str
    ensures { result.now ≡ word_at line.now place }
{
    line.split(' ').nth(place).unwrap_or("")
}

/// The number of this place in a line, if there is one.
pub fn number_at(line: &str, place: usize) -> Option<u64>
    ensures { result ≡ number_at line.now place }
{
    number_up_to(word_at(line, place), u64::MAX)
}

/// The number of this place in a line, and 0 if there is none.
pub fn number_or_zero_at(line: &str, place: usize) -> u64
    ensures { result ≡ number_or_zero line.now place }
{
    number_at(line, place).unwrap_or(0)
}

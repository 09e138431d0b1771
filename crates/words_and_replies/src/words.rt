//! The words of a line.

ghost use Rattle.std.specs.Prelude.{◌≡◌};
ghost use Rattle.words_and_replies.specs.Words.{first_word, behind_first};

/// The first word of a text (everything before its first blank), and what follows that blank.
pub fn parted(text: &str) -> (&str, &str)
    ensures first { result.0.now ≡ first_word text.now }
    ensures behind { result.1.now ≡ behind_first text.now }
{
    match text.split_once(' ') {
        Some(parts) => parts,
        None => (text, ""),
    }
}

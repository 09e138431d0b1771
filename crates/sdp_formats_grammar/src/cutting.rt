//! A line of a text.

ghost use Rattle.std.specs.Prelude.{◌≡◌};
ghost use Rattle.std.specs.Option.{option_map};
ghost use Rattle.sdp_formats_grammar.specs.Line.{has_return, without_return, next_line, passed_line};
ghost use Rattle.sdp_formats_grammar.specs.Line.{TakesLine};
ghost use Rattle.sdp_formats_grammar.specs.Refusals.{parted};

use crate::primitives::halves;

fn has_return(text: &str) -> bool
    ensures { result ≡ has_return text.now }
{
    text.as_bytes().iter().any(|byte| *byte == 13)
}

/// The line without the CR before its LF.
fn without_return(piece: &str) -> &str
    ensures { result.now ≡ without_return piece.now }
{
    match piece.strip_suffix('\r') {
        Some(line) => line,
        None => piece,
    }
}

fn passed_line<'a>(content: &'a str, rest: &'a str) -> Option<(&'a str, &'a str)>
    ensures { option_map parted result ≡ passed_line content.now rest.now }
{
    if content.is_empty() || has_return(content) {
        return None;
    }
    Some((content, rest))
}

fn next_line(text: &str) -> Option<(&str, &str)>
    ensures { option_map parted result ≡ next_line text.now }
{
    match halves(text, '\n') {
        (piece, Some(rest)) => passed_line(without_return(piece), rest),
        (piece, None) => passed_line(piece, ""),
    }
}

/// The content of the line that a text begins with, and what follows the line's end.
pub fn line(text: &str) -> Option<(&str, &str)>
    ensures { TakesLine text.now result }
{
    next_line(text)
}

//! A line of a text by its number.

ghost use Rattle.std.specs.Prelude.{◌≡◌};
ghost use Rattle.sdp_formats_grammar.specs.Line.{without_return};
ghost use Rattle.sdp_formats_faults.specs.Faults.{IsNumber, first_line, line_ends};
ghost use Rattle.sdp_formats_faults.specs.Walking.{EndsWith};

use crate::fault::{FaultyLine, LineFault};
use sdp_formats_grammar::halves;

/// How many lines end in a text.
fn line_ends(text: &str) -> usize
    ensures { result ≡ line_ends text.now }
{
    text.as_bytes().iter().filter(|byte| **byte == 10).count()
}

/// The line without the CR before its LF.
fn without_return(line: &str) -> &str
    ensures { result.now ≡ without_return line.now }
{
    match line.strip_suffix('\r') {
        Some(line) => line,
        None => line,
    }
}

/// The line that a text begins with, without its end.
fn first_line(text: &str) -> &str
    ensures { result.now ≡ first_line text.now }
{
    without_return(halves(text, '\n').0)
}

/// The line of a text that this rest of it begins with.
///
/// # Conditions
///
/// The text ends with the rest.
pub(crate) fn line_at<'a>(text: &str, rest: &'a str, fault: LineFault) -> FaultyLine<'a>
    requires { EndsWith text.now rest.now }
    ensures number { IsNumber text.now rest.now result.number }
    ensures text { result.text.now ≡ first_line rest.now }
    ensures fault { result.fault ≡ fault }
{
    FaultyLine {
        number: line_ends(text) - line_ends(rest) + 1,
        text: first_line(rest),
        fault,
    }
}

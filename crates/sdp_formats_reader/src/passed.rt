//! Lines that are read and not kept (RFC 8866 5.1 to 5.13).

ghost use Rattle.std.specs.Prelude.{◌≡◌};
ghost use Rattle.sdp_formats_grammar.specs.Form.{after};
ghost use Rattle.sdp_formats_grammar.specs.Refusals.{Gives};
ghost use Rattle.sdp_formats_reader.specs.Lines.{exactly, something, passed_if, is_lettered, is_other};

use sdp_formats_grammar::{Lined, Refusal, Stepped, behind, line_of, stripped};
use std::alloc::Global;

/// A line that was read and isn't kept.
#[derive(Clone, Copy, Debug, PartialEq, Eq, Drop)]
pub struct Passed;

/// The line `v=0`.
pub struct VersionLine;

/// The line `s=`.
pub struct NameLine;

/// A line `i=`, `u=`, `e=`, `p=`, `c=`, `z=` or `k=` of the header.
pub struct OtherLine;

/// The line `t=0 0`.
pub struct TimesLine;

/// A line `r=`.
pub struct RepeatLine;

/// The line `c=` of a section.
pub struct ConnectionLine;

fn passed_if(is_so: bool) -> Result<Passed, Refusal>
    ensures { Gives result (passed_if is_so) }
{
    if is_so {
        Ok(Passed)
    } else {
        Err(Refusal::Unfit)
    }
}

fn exactly(text: &str, words: &str) -> Result<Passed, Refusal>
    ensures { Gives result ((exactly words.now).reads text.now) }
{
    passed_if(text == words)
}

/// Whether a line begins with these words and has something after them.
fn is_lettered(content: &str, words: &str) -> bool
    ensures { result ≡ is_lettered words.now content.now }
{
    match stripped(content, words) {
        Some(rest) => !rest.is_empty(),
        None => false,
    }
}

fn lettered(content: &str, words: &str) -> Result<Passed, Refusal>
    ensures { Gives result ((after words.now something).reads content.now) }
{
    passed_if(is_lettered(content, words))
}

fn is_other(content: &str) -> bool
    ensures { result ≡ is_other content.now }
{
    is_lettered(content, "i=")
        || is_lettered(content, "u=")
        || is_lettered(content, "e=")
        || is_lettered(content, "p=")
        || is_lettered(content, "c=")
        || is_lettered(content, "z=")
        || is_lettered(content, "k=")
}

impl Lined<Passed> for VersionLine {
    ghost use Rattle.sdp_formats_reader.specs.Lines.{version_line};

    ghost form = { version_line };

    fn read(_alloc: Global, content: &str) -> Result<Passed, Refusal> {
        exactly(behind(content, "v=")?, "0")
    }

    fn exact_law() {}
}

impl Lined<Passed> for NameLine {
    ghost use Rattle.sdp_formats_reader.specs.Lines.{name_line};

    ghost form = { name_line };

    fn read(_alloc: Global, content: &str) -> Result<Passed, Refusal> {
        lettered(content, "s=")
    }

    fn exact_law() {}
}

impl Lined<Passed> for TimesLine {
    ghost use Rattle.sdp_formats_reader.specs.Lines.{times_line};

    ghost form = { times_line };

    fn read(_alloc: Global, content: &str) -> Result<Passed, Refusal> {
        exactly(behind(content, "t=")?, "0 0")
    }

    fn exact_law() {}
}

impl Lined<Passed> for RepeatLine {
    ghost use Rattle.sdp_formats_reader.specs.Lines.{repeat_line};

    ghost form = { repeat_line };

    fn read(_alloc: Global, content: &str) -> Result<Passed, Refusal> {
        lettered(content, "r=")
    }

    fn exact_law() {}
}

impl Lined<Passed> for ConnectionLine {
    ghost use Rattle.sdp_formats_reader.specs.Lines.{connection_line};

    ghost form = { connection_line };

    fn read(_alloc: Global, content: &str) -> Result<Passed, Refusal> {
        lettered(content, "c=")
    }

    fn exact_law() {}
}

impl Lined<Passed> for OtherLine {
    ghost use Rattle.sdp_formats_reader.specs.Lines.{other_line};

    ghost form = { other_line };

    fn read(_alloc: Global, content: &str) -> Result<Passed, Refusal> {
        passed_if(is_other(content))
    }

    fn exact_law() {}
}

impl Stepped<Passed> for OtherLine {
    ghost use Rattle.sdp_formats_grammar.specs.Line.{LineOf};
    ghost use Rattle.sdp_formats_reader.specs.Lines.{other_line};

    ghost says = { LineOf other_line.Says };

    fn step(alloc: Global, text: &str) -> Result<(Passed, &str), Refusal> {
        line_of::<Passed, OtherLine>(alloc, text)
    }
}

impl Stepped<Passed> for RepeatLine {
    ghost use Rattle.sdp_formats_grammar.specs.Line.{LineOf};
    ghost use Rattle.sdp_formats_reader.specs.Lines.{repeat_line};

    ghost says = { LineOf repeat_line.Says };

    fn step(alloc: Global, text: &str) -> Result<(Passed, &str), Refusal> {
        line_of::<Passed, RepeatLine>(alloc, text)
    }
}

impl Stepped<Passed> for ConnectionLine {
    ghost use Rattle.sdp_formats_grammar.specs.Line.{LineOf};
    ghost use Rattle.sdp_formats_reader.specs.Lines.{connection_line};

    ghost says = { LineOf connection_line.Says };

    fn step(alloc: Global, text: &str) -> Result<(Passed, &str), Refusal> {
        line_of::<Passed, ConnectionLine>(alloc, text)
    }
}

//! A line of a form.

ghost use Rattle.sdp_formats_grammar.specs.Form.{Form, IsExact};
ghost use Rattle.sdp_formats_grammar.specs.Refusals.{Gives};
ghost use Rattle.sdp_formats_grammar.specs.Step.{Steps, Shortens};
ghost use Rattle.sdp_formats_grammar.specs.Line.{LineOf};

use crate::cutting::line;
use crate::refusal::Refusal;
use std::alloc::Global;

/// A kind of line: how its content is read.
pub trait Lined<T: Drop> {
    /// The form of the content.
    ghost form: { Form T };

    /// Reads a line's content.
    fn read(alloc: Global, content: &str) -> Result<T, Refusal>
        ensures { Gives result (form.reads content.now) };

    /// The form is read if and only if it says a value.
    fn exact_law()
        ensures { IsExact form };
}

/// What the line says that a text begins with, and the text after it.
///
/// # Errors
///
/// `Unfit` if the text begins with no line of the kind, `Memory` if memory runs out.
pub fn line_of<T: Drop, L: Lined<T>>(alloc: Global, text: &str) -> Result<(T, &str), Refusal>
    ensures steps { Steps (LineOf L.form.Says) text.now result }
    ensures shortens { Shortens text.now result }
{
    L::exact_law();
    let Some((content, rest)) = line(text) else {
        return Err(Refusal::Unfit);
    };
    let value = L::read(alloc, content)?;
    Ok((value, rest))
}

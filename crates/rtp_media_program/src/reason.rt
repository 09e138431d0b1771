//! A reason in words.

use std::fmt;

/// Why a line is an `error line`, or was refused: texts that are read one after the other.
#[derive(Clone, Copy)]
pub struct Reason<'a> {
    pub(crate) parts: [&'a str; 7],
}

impl<'a> Reason<'a> {
    /// A reason of one text.
    pub(crate) fn words(text: &'a str) -> Reason<'a> {
        Reason::around(text, "", "")
    }

    /// A reason that names a word of the line.
    pub(crate) fn around(before: &'a str, word: &'a str, behind: &'a str) -> Reason<'a> {
        Reason {
            parts: [before, word, behind, "", "", "", ""],
        }
    }
}

impl fmt::Display for Reason<'_> {
    fn fmt<W: fmt::Write>(&self, f: &mut fmt::Formatter<W>) -> fmt::Result {
        for part in &self.parts {
            f.write_str(part)?;
        }
        Ok(())
    }
}

//! The words of a line, read one after the other.

ghost use Rattle.std.specs.Prelude.{◌≡◌, ◌≢◌, ℕ, List, [], ◌∷◌, IfOk, IfErr};
ghost use Rattle.std.specs.Option.{option_copied};
ghost use Rattle.rtp_media_program.specs.Words.{words_in, words_of, ended};
ghost use Rattle.rtp_media_program.specs.Misreads.{Reads};

use crate::misread::Misread;
use std::marker::Model;

/// One of the program's two ends.
#[derive(Clone, Copy, Debug, PartialEq, Eq)]
pub enum Letter {
    /// The end `a`.
    A,
    /// The end `b`.
    B,
}

/// The words that are still to be read.
#[derive(Drop)]
pub struct WordsLeft<'a> {
    rest: Option<&'a str>,
}

impl<'a> Model for WordsLeft<'a> {
    ghost Value = { List (List ℕ) };

    ghost view = { λ w. words_in (option_copied w.rest) };
}

impl<'a> WordsLeft<'a> {
    /// The words of a line, with one blank between each two.
    pub fn new(line: &'a str) -> WordsLeft<'a>
        ensures { result ≡ words_of line.now }
    {
        WordsLeft { rest: Some(line) }
    }

    /// The first word, and the words after it.
    ///
    /// # Errors
    ///
    /// `NotUnderstood` if no word is left.
    pub fn next(self) -> Result<(&'a str, WordsLeft<'a>), Misread>
        ensures found { IfOk result (λ x. self.entry ≡ x.0.now ∷ x.1) }
        ensures none { IfErr result (λ e. (e ≡ Misread.NotUnderstood) × (self.entry ≡ [])) }
    {
        let Some(rest) = self.rest else {
            return Err(Misread::NotUnderstood);
        };
        let (word, rest) = split_word(rest);
        Ok((word, WordsLeft { rest }))
    }

    /// That no word is left.
    ///
    /// # Errors
    ///
    /// `NotUnderstood` if one is.
    pub fn end(self) -> Result<(), Misread>
        ensures value { Reads result (ended self.entry tt) }
        ensures never_memory { IfErr result (λ e. e ≢ Misread.Memory) }
    {
        match self.rest {
            None => Ok(()),
            Some(_) => Err(Misread::NotUnderstood),
        }
    }
}

/// The first word, and what follows its blank.
fn split_word(line: &str) -> (&str, Option<&str>)
    ensures { words_of line.now ≡ result.0.now ∷ words_in (option_copied result.1) }
{
    match line.split_once(' ') {
        Some((word, rest)) => (word, Some(rest)),
        None => (line, None),
    }
}

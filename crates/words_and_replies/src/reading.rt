//! What the words of a line say.

ghost use Rattle.std.specs.Prelude.{◌≡◌, ◌≢◌, [], false, Some, None, IsTrue};
ghost use Rattle.std.specs.Option.{option_copied};
ghost use Rattle.words_and_replies.specs.Lines.{word_of, passed, is_comment, Answers, Reads};
ghost use Rattle.words_and_replies.specs.Lines.{Missing, Kept, ReadsBytes};

use crate::bytes::{decoded, part};
use crate::line::CommandLine;
use std::str::FromStr;

impl<'a> CommandLine<'a> {
    /// The command: the first word of a line; None for an empty line or a comment, which is its own
    /// answer.
    pub fn command(&mut self) -> Option<&'a str>
        ensures comment { IsTrue (is_comment self.old.rest) → Answers self.old (Some self.old.rest) self.new }
        ensures none { IsTrue (is_comment self.old.rest) → option_copied result ≡ None }
        ensures word { is_comment self.old.rest ≡ false → option_copied result ≡ Some (word_of self.old.rest) }
        ensures found { is_comment self.old.rest ≡ false → word_of self.old.rest ≢ [] → self.new ≡ passed self.old }
        ensures missing { is_comment self.old.rest ≡ false → word_of self.old.rest ≡ [] → Missing self.old self.new }
    {
        if self.rest.is_empty() || self.rest.starts_with('#') {
            self.put(self.rest);
            return None;
        }
        Some(self.word())
    }

    /// The next word.
    pub fn word(&mut self) -> &'a str
        ensures word { result.now ≡ word_of self.old.rest }
        ensures found { word_of self.old.rest ≢ [] → self.new ≡ passed self.old }
        ensures missing { word_of self.old.rest ≡ [] → Missing self.old self.new }
    {
        let (word, rest) = part(self.rest, ' ');
        self.rest = rest;
        if word.is_empty() {
            self.refuse("a word is missing");
        }
        word
    }

    /// The value of a word, or a default if it is refused.
    pub fn value_or<T: FromStr + Drop>(&mut self, word: &str, otherwise: T) -> T
    where
        T::Err: Drop,
        ensures { Reads T.from_str_gives (λ v. v ≡ otherwise) word.now self.old result self.new }
    {
        if let Ok(value) = word.parse::<T>() {
            return value;
        }
        self.refuse(format_args!("no such value {word:?}"));
        otherwise
    }

    /// The number or truth value that a word says.
    pub fn value<T: FromStr + Default + Drop>(&mut self, word: &str) -> T
    where
        T::Err: Drop,
        ensures { Reads T.from_str_gives T.is_default word.now self.old result self.new }
    {
        self.value_or(word, T::default())
    }

    /// What the next word says.
    #[tactic(auto, using(crate::proofs::Refusals::stays))]
    pub fn number<T: FromStr + Default + Drop>(&mut self) -> T
    where
        T::Err: Drop,
        ensures found { word_of self.old.rest ≢ []
            → Reads T.from_str_gives T.is_default (word_of self.old.rest) (passed self.old) result self.new }
        ensures missing { word_of self.old.rest ≡ [] → Missing self.old self.new }
    {
        let word = self.word();
        self.value::<T>(word)
    }

    /// The bytes of the next word.
    #[tactic(auto, using(crate::proofs::Refusals::stays))]
    pub fn bytes(&mut self) -> Vec<u8>
        ensures found { word_of self.old.rest ≢ []
            → ReadsBytes (word_of self.old.rest) (passed self.old) result.items self.new }
        ensures missing { word_of self.old.rest ≡ [] → Missing self.old self.new }
        ensures none { word_of self.old.rest ≡ [] → result.items ≡ [] }
    {
        let word = self.word();
        self.bytes_of(word)
    }

    /// The bytes of a word: hexadecimal parts joined by `+`; `:N` after a part repeats it N times;
    /// a dash means none; stars at the end are ignored.
    pub fn bytes_of(&mut self, word: &str) -> Vec<u8>
        ensures { ReadsBytes word.now self.old result.items self.new }
    {
        match decoded(self.alloc, word) {
            Ok(Some(bytes)) => return bytes,
            Ok(None) => self.refuse(format_args!("no such value {word:?}")),
            Err(_) => self.refuse("out of memory"),
        }
        Vec::new(self.alloc)
    }

    /// Appends a value.
    pub fn keep<T: Drop>(&mut self, values: &mut Vec<T>, value: T)
        ensures { Kept values.old.items value values.new.items self.old self.new }
    {
        if values.push(value).is_err() {
            self.refuse("out of memory");
        }
    }
}

//! A line: the words that are left of it, and the answer to it.

ghost use Rattle.std.specs.Prelude.{◌≡◌, true, false, Some, IfSome, IfNone};
ghost use Rattle.std.specs.Str.{trim_end};
ghost use Rattle.words_and_replies.specs.Lines.{unread, Refuses, Answers, bytes_text, whether, field_text};

use std::alloc::Global;
use std::fmt::{Display, Write};
use std::marker::Model;

/// How many bytes are printed in full.
const IN_FULL: usize = 2000;

/// A line read word by word, separated by single blanks. A missing or invalid word is refused and
/// replaced by a default: the first refusal is the answer, whatever else was written.
pub struct CommandLine<'a> {
    pub(crate) alloc: Global,
    /// What is left.
    pub(crate) rest: &'a str,
    /// What is answered; blanks at its end aren't printed.
    answer: String,
    /// Whether something was refused.
    is_refused: bool,
}

/// Written by hand, so that crates that drop this type need no proof about its fields.
impl Drop for CommandLine<'_> {
    fn drop(self) {
        let CommandLine {
            alloc: _alloc,
            rest: _rest,
            answer: _answer,
            is_refused: _is_refused,
        } = self;
    }
}

impl<'a> Model for CommandLine<'a> {
    ghost use Rattle.std.specs.Prelude.{string_bytes};
    ghost use Rattle.words_and_replies.specs.Lines.{LineState, line_state};

    ghost Value = { LineState };

    ghost view = { λ l. line_state l.rest.now (string_bytes l.answer) l.is_refused };
}

impl<'a> CommandLine<'a> {
    /// A line of which no word has been read.
    pub fn new(alloc: Global, whole: &'a str) -> CommandLine<'a>
        ensures { result ≡ unread whole.now }
    {
        CommandLine {
            alloc,
            rest: whole,
            answer: String::new(alloc),
            is_refused: false,
        }
    }

    /// The allocator.
    pub fn alloc(&self) -> Global {
        self.alloc
    }

    /// What is left.
    pub fn rest(&self) -> &'a str
        ensures { result.now ≡ self.now.rest }
    {
        self.rest
    }

    /// Whether something was refused.
    pub fn is_refused(&self) -> bool
        ensures { result ≡ self.now.is_refused }
    {
        self.is_refused
    }

    /// What is answered, without blanks at its end.
    pub fn answer(&self) -> &str
        ensures { result.now ≡ trim_end self.now.answer }
    {
        self.answer.trim_end()
    }

    /// Answers only `fault` and the reason, unless something was refused before. If memory for that
    /// runs out, nothing is answered.
    pub fn refuse<E: Display + Drop>(&mut self, fault: E)
        ensures { Refuses self.old (E.output fault) self.new }
    {
        if !self.is_refused {
            self.is_refused = true;
            self.answer.clear();
            if write!(self.answer, "fault {fault}").is_err() {
                self.answer.clear();
            }
        }
    }

    /// Appends a text, or anything that displays as one, to the answer.
    pub fn put<D: Display + Drop>(&mut self, shown: D)
        ensures { Answers self.old (D.output shown) self.new }
    {
        if !self.is_refused && write!(self.answer, "{shown}").is_err() {
            self.refuse("out of memory");
        }
    }

    /// Appends a field, with its name, if it is given.
    pub fn put_field<T: Display + Drop>(&mut self, name: &str, value: Option<T>)
        ensures there { IfSome value (λ v. Answers self.old (field_text name.now (T.output v)) self.new) }
        ensures not_there { IfNone value (self.new ≡ self.old) }
    {
        if let Some(value) = value {
            self.put(format_args!("{name}={value} "));
        }
    }

    /// Appends a text if a condition holds.
    pub fn put_where(&mut self, is_so: bool, text: &str)
        ensures so { is_so ≡ true → Answers self.old (Some text.now) self.new }
        ensures not_so { is_so ≡ false → self.new ≡ self.old }
    {
        if is_so {
            self.put(text);
        }
    }

    /// Appends `yes` or `no`.
    pub fn put_whether(&mut self, is_so: bool)
        ensures { Answers self.old (Some (whether is_so)) self.new }
    {
        self.put(if is_so { "yes" } else { "no" });
    }

    /// Appends bytes in hexadecimal; a dash for none, and for many the first three and the count.
    pub fn put_bytes(&mut self, bytes: &[u8])
        ensures { Answers self.old (Some (bytes_text bytes.now)) self.new }
    {
        if bytes.is_empty() {
            return self.put("-");
        }
        let is_in_full = bytes.len() <= IN_FULL;
        match hex::encode(self.alloc, if is_in_full { bytes } else { &bytes[..3] }) {
            Ok(text) if is_in_full => self.put(text),
            Ok(text) => self.put(format_args!("{text}..({})", bytes.len())),
            Err(_) => self.refuse("out of memory"),
        }
    }
}

//! The answer to a line.

ghost use Rattle.std.specs.Prelude.{◌≡◌, None, Some, IfOk, IfErr, IfSome, IfNone, [], codes, string_bytes};
ghost use Rattle.std.specs.Fmt.{◌++?◌};
ghost use Rattle.words_and_replies.specs.Replies.{Adds, Ends, or_dash, flag};

use std::alloc::{AllocError, Global};
use std::fmt::{Display, Write};
use std::marker::Model;

/// The answer to a line, and whether there was memory for it: once there wasn't, nothing more is written.
#[derive(Drop)]
pub struct ReplyText {
    text: String,
    written: Result<(), AllocError>,
}

impl Model for ReplyText {
    ghost use Rattle.std.specs.Prelude.{ℕ, List, Option, string_bytes};
    ghost use Rattle.words_and_replies.specs.Replies.{answer_of};

    ghost Value = { Option (List ℕ) };

    ghost view = { λ r. answer_of r.written (string_bytes r.text) };
}

impl ReplyText {
    /// An empty answer.
    pub fn new(alloc: Global) -> Self
        ensures { result ≡ Some [] }
    {
        ReplyText {
            text: String::new(alloc),
            written: Ok(()),
        }
    }

    /// Writes a text.
    pub fn put(&mut self, text: &str)
        ensures { Adds self.old (Some text.now) self.new }
    {
        if self.written.is_ok() {
            self.written = self.text.push_str(text);
        }
    }

    /// Writes a text, or a dash if it is empty.
    pub fn put_or_dash(&mut self, text: &str)
        ensures { Adds self.old (Some (or_dash text.now)) self.new }
    {
        self.put(if text.is_empty() { "-" } else { text });
    }

    /// Writes a text and then a flag's name, or a dash if it is off.
    pub fn put_flag(&mut self, before: &str, name: &str, is_on: bool)
        ensures { Adds self.old (Some before.now ++? Some (flag name.now is_on)) self.new }
    {
        self.say(before, &if is_on { name } else { "-" });
    }

    /// Writes a text and then a value.
    pub fn say<T: Display>(&mut self, before: &str, value: &T)
        ensures { Adds self.old (Some before.now ++? T.output value.now) self.new }
    {
        if self.written.is_ok() {
            self.written = write!(self.text, "{before}{value}");
        }
    }

    /// Writes a text and then a value, or nothing if there is none.
    pub fn say_some<T: Display>(&mut self, before: &str, value: &Option<T>)
        ensures there { IfSome value.now (λ v. Adds self.old (Some before.now ++? T.output v) self.new) }
        ensures not_there { IfNone value.now (self.new ≡ self.old) }
    {
        if let Some(value) = value {
            self.say(before, value);
        }
    }

    /// Writes a text and then a value, or a dash if there is none.
    pub fn say_or_dash<T: Display>(&mut self, before: &str, value: &Option<T>)
        ensures there { IfSome value.now (λ v. Adds self.old (Some before.now ++? T.output v) self.new) }
        ensures not_there { IfNone value.now (Adds self.old (Some before.now ++? Some (codes "-")) self.new) }
    {
        match value {
            Some(value) => self.say(before, value),
            None => self.say(before, &"-"),
        }
    }

    /// Writes what was printed after a text, if there was memory to print it.
    pub fn put_printed(&mut self, before: &str, printed: Result<String, AllocError>)
        ensures printed { IfOk printed (λ t. Adds self.old (Some before.now ++? Some (string_bytes t)) self.new) }
        ensures not_printed { IfErr printed (λ _. self.new ≡ None) }
    {
        match printed {
            Ok(text) => self.say(before, &text),
            Err(_) => self.fail(),
        }
    }

    /// Writes what was printed after a text, or a dash if it is empty, if there was memory to print it.
    pub fn put_printed_or_dash(&mut self, before: &str, printed: Result<String, AllocError>)
        ensures printed { IfOk printed (λ t. Adds self.old (Some before.now ++? Some (or_dash (string_bytes t)))
            self.new) }
        ensures not_printed { IfErr printed (λ _. self.new ≡ None) }
    {
        match printed {
            Ok(text) if text.is_empty() => self.say(before, &"-"),
            printed => self.put_printed(before, printed),
        }
    }

    /// Notes that memory ran out.
    pub fn fail(&mut self)
        ensures { self.new ≡ None }
    {
        self.written = Err(AllocError);
    }

    /// Answers by the word `fault` alone.
    pub fn fault(&mut self)
        ensures { Ends self.old (codes "fault") self.new }
    {
        self.text.clear();
        self.put("fault");
    }

    /// The whole answer.
    ///
    /// # Errors
    ///
    /// `AllocError` if memory ran out for some of it.
    pub fn finish(self) -> Result<String, AllocError>
        ensures written { IfOk result (λ text. self ≡ Some (string_bytes text)) }
        ensures not_written { IfErr result (λ _. self ≡ None) }
    {
        self.written?;
        Ok(self.text)
    }
}

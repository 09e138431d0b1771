//! A text of a line.

ghost use Rattle.std.specs.Prelude.{◌≡◌, IfOk, string_bytes, nat_eq};
ghost use Rattle.std.specs.Cmp.{partial_equiv_from_equiv};
ghost use Rattle.std.specs.Cmp.Rules.{hashing};
ghost use Rattle.std.specs.Hash as fed;
ghost use Rattle.std.proofs.Common.{rules};
ghost use Rattle.std.specs.Cmp.Lexicographic.{pointwise, nat_list_eq_equiv};

use crate::listed::Listed;
use std::alloc::{AllocError, Global};
use std::fmt;
use std::hash::{Hash, Hasher};
use std::marker::Model;
use std::ops::DerefStr;

/// A text of a line. Contracts see it as its bytes.
#[derive(Debug)]
pub struct Text {
    text: String,
}

/// Written by hand, so that crates that drop this type need no proof about its fields.
impl Drop for Text {
    fn drop(self) {
        let Text { text: _text } = self;
    }
}

impl Model for Text {
    ghost use Rattle.std.specs.Prelude.{List, ℕ, string_bytes};

    ghost Value = { List ℕ };

    ghost view = { λ t. string_bytes t.text };
}

impl Text {
    /// The text of a string.
    pub fn of(text: String) -> Text
        ensures { result ≡ string_bytes text }
    {
        Text { text }
    }

    /// It as a string slice.
    pub fn as_str(&self) -> &str
        ensures { result.now ≡ self.now }
    {
        self.text.as_str()
    }

    /// The same text again.
    ///
    /// # Errors
    ///
    /// `AllocError` if memory runs out.
    pub fn clone(&self, alloc: Global) -> Result<Text, AllocError>
        ensures { IfOk result (λ text. text ≡ self.now) }
    {
        Ok(Text::of(String::from_str(alloc, self.as_str())?))
    }

    /// The same text again, if there is one.
    ///
    /// # Errors
    ///
    /// `AllocError` if memory runs out.
    pub fn if_any(alloc: Global, text: &Option<Text>) -> Result<Option<Text>, AllocError>
        ensures { IfOk result (λ copy. copy ≡ text.now) }
    {
        match text {
            Some(text) => Ok(Some(text.clone(alloc)?)),
            None => Ok(None),
        }
    }

    /// The same texts again.
    ///
    /// # Errors
    ///
    /// `AllocError` if memory runs out.
    pub fn clone_all(alloc: Global, texts: &[Text]) -> Result<Listed<Text>, AllocError>
        ensures { IfOk result (λ copies. copies ≡ texts.now) }
    {
        let mut copies = Vec::new(alloc);
        for text in texts {
            copies.push(text.clone(alloc)?)?;
        }
        Ok(Listed::of(copies))
    }
}

impl From<String> for Text {
    ghost from_gives = { λ text t. t ≡ string_bytes text };

    fn from(text: String) -> Text {
        Text { text }
    }
}

impl PartialEq for Text {
    ghost eq = { pointwise nat_eq };

    ghost laws = { partial_equiv_from_equiv nat_list_eq_equiv };

    fn eq(&self, other: &Text) -> bool {
        self.as_str() == other.as_str()
    }
}

impl Eq for Text {
    ghost laws = { nat_list_eq_equiv };
}

impl Hash for Text {
    ghost hash_input = { λ t. fed.slice fed.u8 t };

    ghost respects_eq = { Prim.search (hashing, rules) };

    fn hash<H: Hasher>(&self, state: &mut H) {
        self.as_str().as_bytes().hash(state);
    }
}

impl fmt::Display for Text {
    ghost use Rattle.std.specs.Prelude.{Some};

    ghost output = { λ t. Some t };

    fn fmt<W: fmt::Write>(&self, f: &mut fmt::Formatter<W>) -> fmt::Result {
        f.write_str(self.as_str())
    }
}

/// It as a string slice.
impl DerefStr for Text {
    ghost deref_gives = { λ text bytes. bytes ≡ text };

    fn deref(&self) -> &str {
        self.text.as_str()
    }
}

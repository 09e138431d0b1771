//! Owned bytes and owned text, which contracts see as lists of bytes.

ghost use Rattle.std.specs.Prelude.{◌≡◌, ℕ, List, IfOk, string_bytes};

use std::alloc::{AllocError, Global};
use std::marker::Model;

/// Bytes that a line holds as hexadecimal digits.
pub struct Bytes {
    items: Vec<u8>,
}

/// Written by hand, so that crates that drop this type need no proof about its fields.
impl Drop for Bytes {
    fn drop(self) {
        let Bytes { items: _items } = self;
    }
}

impl Model for Bytes {
    ghost Value = { List ℕ };

    ghost view = { λ b. b.items.items };
}

impl Bytes {
    /// The bytes of a vector, which is not copied.
    pub fn from_vec(items: Vec<u8>) -> Bytes
        ensures { result ≡ items.items }
    {
        Bytes { items }
    }

    /// The bytes.
    pub fn as_slice(&self) -> &[u8]
        ensures { result.now ≡ self.now }
    {
        self.items.as_slice()
    }

    /// The bytes as a vector, which is not copied.
    pub fn into_vec(self) -> Vec<u8>
        ensures { result.items ≡ self }
    {
        let Bytes { items } = self;
        items
    }
}

/// A word of a line, as its UTF-8 bytes.
pub struct Word {
    text: String,
}

/// Written by hand, so that crates that drop this type need no proof about its fields.
impl Drop for Word {
    fn drop(self) {
        let Word { text: _text } = self;
    }
}

impl Model for Word {
    ghost Value = { List ℕ };

    ghost view = { λ t. string_bytes t.text };
}

impl Word {
    /// A copy of the text.
    ///
    /// # Errors
    /// Only if memory runs out.
    pub fn from_str(alloc: Global, text: &str) -> Result<Word, AllocError>
        ensures { IfOk result (λ owned. owned ≡ text.now) }
    {
        let text = String::from_str(alloc, text)?;
        Ok(Word { text })
    }

    /// The text.
    pub fn as_str(&self) -> &str
        ensures { result.now ≡ self.now }
    {
        self.text.as_str()
    }
}

//! Keys and values of an `a=fmtp` line.

ghost use Rattle.std.specs.Prelude.{◌≡◌, IfOk};

use sdp_formats_grammar::{Listed, Text};
use std::alloc::{AllocError, Global};
use std::fmt;

/// A key and its value, as `minptime=10`.
#[derive(Debug, PartialEq, Eq)]
pub struct Pair {
    /// The key.
    pub key: Text,
    /// The value.
    pub value: Text,
}

/// Written by hand, so that crates that drop this type need no proof about its fields.
impl Drop for Pair {
    fn drop(self) {
        let Pair {
            key: _key,
            value: _value,
        } = self;
    }
}

impl Pair {
    /// The same value again.
    ///
    /// # Errors
    ///
    /// `AllocError` if memory runs out.
    pub fn clone(&self, alloc: Global) -> Result<Pair, AllocError>
        ensures { IfOk result (λ copy. copy ≡ self.now) }
    {
        Ok(Pair {
            key: self.key.clone(alloc)?,
            value: self.value.clone(alloc)?,
        })
    }

    /// The same values again.
    ///
    /// # Errors
    ///
    /// `AllocError` if memory runs out.
    pub fn clone_all(alloc: Global, pairs: &[Pair]) -> Result<Listed<Pair>, AllocError>
        ensures { IfOk result (λ copies. copies ≡ pairs.now) }
    {
        let mut copies = Vec::new(alloc);
        for pair in pairs {
            copies.push(pair.clone(alloc)?)?;
        }
        Ok(Listed::of(copies))
    }

    /// The same values again, if there are some.
    ///
    /// # Errors
    ///
    /// `AllocError` if memory runs out.
    pub fn if_any(
        alloc: Global,
        pairs: &Option<Listed<Pair>>,
    ) -> Result<Option<Listed<Pair>>, AllocError>
        ensures { IfOk result (λ copy. copy ≡ pairs.now) }
    {
        match pairs {
            Some(pairs) => Ok(Some(Pair::clone_all(alloc, pairs.as_slice())?)),
            None => Ok(None),
        }
    }
}

impl fmt::Display for Pair {
    ghost use Rattle.std.specs.Prelude.{Some};
    ghost use Rattle.sdp_formats_values.specs.PrintedParameters.{pair_text};

    ghost output = { λ p. Some (pair_text p) };

    fn fmt<W: fmt::Write>(&self, f: &mut fmt::Formatter<W>) -> fmt::Result {
        let (key, value) = (&self.key, &self.value);
        write!(f, "{key}={value}")
    }
}

//! Bandwidths (RFC 8866 5.8).

ghost use Rattle.std.specs.Prelude.{◌≡◌, IfOk};

use sdp_formats_grammar::Text;
use std::alloc::{AllocError, Global};
use std::fmt;

/// A bandwidth, `b=TYPE:VALUE` (RFC 8866 5.8).
#[derive(Debug, PartialEq, Eq, Drop)]
pub struct Bandwidth {
    /// What the value means, as `AS`.
    pub typ: Text,
    /// The value.
    pub val: Text,
}

impl Bandwidth {
    /// The same value again.
    ///
    /// # Errors
    ///
    /// `AllocError` if memory runs out.
    pub fn clone(&self, alloc: Global) -> Result<Bandwidth, AllocError>
        ensures { IfOk result (λ copy. copy ≡ self.now) }
    {
        Ok(Bandwidth {
            typ: self.typ.clone(alloc)?,
            val: self.val.clone(alloc)?,
        })
    }

    /// The same value again, if there is one.
    ///
    /// # Errors
    ///
    /// `AllocError` if memory runs out.
    pub fn if_any(
        alloc: Global,
        bandwidth: &Option<Bandwidth>,
    ) -> Result<Option<Bandwidth>, AllocError>
        ensures { IfOk result (λ copy. copy ≡ bandwidth.now) }
    {
        match bandwidth {
            Some(bandwidth) => Ok(Some(bandwidth.clone(alloc)?)),
            None => Ok(None),
        }
    }
}

/// Its line with its end.
impl fmt::Display for Bandwidth {
    ghost use Rattle.std.specs.Prelude.{Some};
    ghost use Rattle.sdp_formats_values.specs.Lists.{bandwidth_text};

    ghost output = { λ b. Some (bandwidth_text b) };

    fn fmt<W: fmt::Write>(&self, f: &mut fmt::Formatter<W>) -> fmt::Result {
        let (typ, val) = (&self.typ, &self.val);
        write!(f, "b={typ}:{val}\r\n")
    }
}

//! OBU elements as they are sent (RTP payload format for AV1, 4.4 and 4.5).

ghost use Rattle.payload_core_av1.specs.Av1Packets.{element_bytes};
ghost use Rattle.payload_core_av1.specs.Obus.{extension_bytes, obu as spec_obu, without_its_size};
ghost use Rattle.std.specs.Prelude.{◌≡◌, ◌+◌, ◌++◌, ◌≤◌, IfOk, drop, length, take};

use crate::obu::{Obu, without_size};
use std::alloc::AllocError;
use std::marker::Model;

/// An OBU without its size, or a fragment of one.
#[derive(Drop)]
pub struct ObuElement<'a> {
    // The header byte without S and the extension byte, if the element has them.
    header: Option<u8>,
    extension: Option<u8>,
    payload: &'a [u8],
}

impl<'a> Model for ObuElement<'a> {
    ghost use Rattle.payload_core_av1.specs.Av1Packets.{element_bytes};
    ghost use Rattle.std.specs.Prelude.{List, ℕ};

    ghost Value = { List ℕ };

    ghost view = { λ e. element_bytes e.header e.extension e.payload.now };
}

/// How many bytes a header byte and an extension byte are, if they are there.
fn header_len(header: Option<u8>, extension: Option<u8>) -> usize
    ensures { result ≡ length (extension_bytes header) + length (extension_bytes extension) }
{
    match (header, extension) {
        (Some(_), Some(_)) => 2,
        (None, None) => 0,
        _ => 1,
    }
}

impl<'a> ObuElement<'a> {
    /// The element of these bytes.
    fn of(header: Option<u8>, extension: Option<u8>, payload: &'a [u8]) -> Self
        ensures { result ≡ element_bytes header extension payload.now }
    {
        ObuElement {
            header,
            extension,
            payload,
        }
    }

    /// A whole OBU.
    pub fn whole(obu: &Obu<'a>) -> Self
        ensures { result ≡ without_its_size (spec_obu obu.now.header obu.now.extension obu.now.payload.now) }
    {
        let header = without_size(obu.header);
        ObuElement::of(Some(header), obu.extension, obu.payload)
    }

    /// How many bytes it has.
    pub fn len(&self) -> usize
        ensures { result ≡ length self.now }
    {
        header_len(self.header, self.extension) + self.payload.len()
    }

    /// Its first `len` bytes, and those after them.
    ///
    /// # Conditions
    ///
    /// It has at least `len` bytes.
    pub fn split_at(self, len: usize) -> (Self, Self)
        requires { len ≤ length self }
        ensures first { result.0 ≡ take len self.entry }
        ensures rest { result.1 ≡ drop len self.entry }
    {
        let (header, extension, payload) = (self.header, self.extension, self.payload);
        let header_len = header_len(header, extension);
        if header_len <= len {
            let (first, rest) = payload.split_at(len - header_len);
            return (
                ObuElement::of(header, extension, first),
                ObuElement::of(None, None, rest),
            );
        }
        if len == 0 {
            return (ObuElement::of(None, None, &[]), self);
        }
        (
            ObuElement::of(header, None, &[]),
            ObuElement::of(None, extension, payload),
        )
    }

    /// Writes its bytes.
    ///
    /// # Errors
    ///
    /// `AllocError` if memory runs out.
    pub fn push_to(&self, out: &mut Vec<u8>) -> Result<(), AllocError>
        ensures { IfOk result (λ _. out.new.items ≡ out.old.items ++ self.now) }
    {
        if let Some(header) = self.header {
            out.push(header)?;
        }
        if let Some(extension) = self.extension {
            out.push(extension)?;
        }
        out.extend_from_slice(self.payload)?;
        Ok(())
    }
}

//! Values of header extensions as they are kept.

ghost use Rattle.std.specs.Prelude.{◌≡◌, IfOk};
ghost use Rattle.rtp_wire.specs.Values.{absent};

use rtp_wire::ExtensionValues;
use std::alloc::{AllocError, Global};
use std::marker::Model;

/// The values of a packet's header extensions (RFC 8285), which take no room of their own if there are none.
pub struct KeptValues {
    values: Option<Box<ExtensionValues>>,
}

/// Written by hand, so that crates that drop this type need no proof about its fields.
impl Drop for KeptValues {
    fn drop(self) {
        let KeptValues { values: _values } = self;
    }
}

impl Model for KeptValues {
    ghost use Rattle.payload_core_buffer.specs.KeptValues.{or_absent};
    ghost use Rattle.rtp_wire.specs.declared.values.ExtensionValues.{ExtensionValues};

    ghost Value = { ExtensionValues };

    ghost view = { λ k. or_absent k.values };
}

impl KeptValues {
    /// No values.
    #[inline]
    pub fn none() -> Self
        ensures { result ≡ absent }
    {
        KeptValues { values: None }
    }

    /// These values.
    ///
    /// # Errors
    /// Out of memory, only if there is a value.
    pub fn new(alloc: Global, values: &ExtensionValues) -> Result<Self, AllocError>
        ensures { IfOk result (λ k. k ≡ values.now) }
    {
        if *values == ExtensionValues::absent() {
            return Ok(KeptValues { values: None });
        }
        let values = Box::new(alloc, *values)?;
        Ok(KeptValues {
            values: Some(values),
        })
    }

    /// A copy of them.
    ///
    /// # Errors
    /// Out of memory, only if there is a value.
    pub fn copy(&self, alloc: Global) -> Result<Self, AllocError>
        ensures { IfOk result (λ k. k ≡ self.now) }
    {
        match &self.values {
            Some(values) => Ok(KeptValues {
                values: Some(Box::new(alloc, **values)?),
            }),
            None => Ok(KeptValues { values: None }),
        }
    }

    /// The values.
    pub fn get(&self) -> ExtensionValues
        ensures { result ≡ self.now }
    {
        match &self.values {
            Some(values) => **values,
            None => ExtensionValues::absent(),
        }
    }
}

//! Datagrams.

ghost use Rattle.std.specs.Prelude.{◌≡◌, ◌<◌, ◌≤◌, ◌++◌, IfOk};
ghost use Rattle.rtp_wire.specs.Header.{spelled};

use rtp_wire::{ExtensionMap, RtpHeader};
use std::alloc::{AllocError, Global};
use std::marker::Model;

/// The bytes of a datagram: an RTP packet (RFC 3550 5.1), or whatever came.
pub struct Datagram {
    bytes: Vec<u8>,
}

/// Written by hand, so that crates that drop this type need no proof about its fields.
impl Drop for Datagram {
    fn drop(self) {
        let Datagram { bytes: _bytes } = self;
    }
}

impl Model for Datagram {
    ghost use Rattle.std.specs.Prelude.{List, ℕ};

    ghost Value = { List ℕ };

    ghost view = { λ d. d.bytes.items };
}

impl Datagram {
    /// A datagram of these bytes.
    pub fn from_vec(bytes: Vec<u8>) -> Self
        ensures { result ≡ bytes.items }
    {
        Datagram { bytes }
    }

    /// The bytes.
    pub fn as_slice(&self) -> &[u8]
        ensures { result.now ≡ self.now }
    {
        self.bytes.as_slice()
    }

    /// The bytes, without a copy.
    pub fn into_vec(self) -> Vec<u8>
        ensures { result.items ≡ self }
    {
        let Datagram { bytes } = self;
        bytes
    }

    /// A header and a payload after it.
    ///
    /// # Conditions
    /// The header's payload type is below 128, and it has at most 15 contributing sources.
    ///
    /// # Errors
    /// Out of memory for the bytes.
    pub fn new(
        alloc: Global,
        header: &RtpHeader,
        exts: &ExtensionMap,
        payload: &[u8],
    ) -> Result<Self, AllocError>
        requires payload_type { header.now.payload_type < 128 }
        requires csrc_count { header.now.csrc_count ≤ 15 }
        ensures { IfOk result (λ d. d ≡ spelled exts.now header.now ++ payload.now) }
    {
        let len = header.wire_len(exts);
        let mut bytes = Vec::with_capacity(alloc, len.saturating_add(payload.len()))?;
        bytes.resize(len, 0)?;
        header.write_to(&mut bytes, exts);
        bytes.extend_from_slice(payload)?;
        Ok(Datagram { bytes })
    }
}

//! Fingerprints of certificates (RFC 8122 5).

ghost use Rattle.std.specs.Prelude.{◌≡◌, IfOk};
ghost use Rattle.sdp_formats_values.specs.Preference.{hash_preference};

use sdp_formats_grammar::{FingerprintFmt, Listed, Text};
use std::alloc::{AllocError, Global};
use std::fmt;

/// The fingerprint of a certificate: a hash function's name and its digest (RFC 8122 5).
#[derive(Debug, PartialEq, Eq, Hash, Drop)]
pub struct Fingerprint {
    /// The name of the hash function, as `sha-256`.
    pub hash_func: Text,
    /// The digest.
    pub bytes: Listed<u8>,
}

impl Fingerprint {
    /// The rank of its hash function, 0 first: SHA-256, SHA-1, any other. Names are
    /// case-insensitive (RFC 8122 5).
    #[tactic(auto, unfolding(crate::specs::Preference::hash_preference))]
    pub fn hash_preference(&self) -> u8
        ensures { result ≡ hash_preference self.now }
    {
        let name = self.hash_func.as_str();
        if name.eq_ignore_ascii_case("sha-256") {
            return 0;
        }
        if name.eq_ignore_ascii_case("sha-1") {
            return 1;
        }
        2
    }

    /// The same value again.
    ///
    /// # Errors
    ///
    /// `AllocError` if memory runs out.
    pub fn clone(&self, alloc: Global) -> Result<Fingerprint, AllocError>
        ensures { IfOk result (λ copy. copy ≡ self.now) }
    {
        Ok(Fingerprint {
            hash_func: self.hash_func.clone(alloc)?,
            bytes: self.bytes.copied(alloc)?,
        })
    }

    /// The same value again, if there is one.
    ///
    /// # Errors
    ///
    /// `AllocError` if memory runs out.
    pub fn if_any(
        alloc: Global,
        print: &Option<Fingerprint>,
    ) -> Result<Option<Fingerprint>, AllocError>
        ensures { IfOk result (λ copy. copy ≡ print.now) }
    {
        match print {
            Some(print) => Ok(Some(print.clone(alloc)?)),
            None => Ok(None),
        }
    }
}

impl fmt::Display for Fingerprint {
    ghost use Rattle.std.specs.Prelude.{Some};
    ghost use Rattle.sdp_formats_values.specs.PrintedValues.{fingerprint_text};

    ghost output = { λ f. Some (fingerprint_text f) };

    fn fmt<W: fmt::Write>(&self, f: &mut fmt::Formatter<W>) -> fmt::Result {
        let hash_func = &self.hash_func;
        let bytes = FingerprintFmt(self.bytes.as_slice());
        write!(f, "{hash_func} {bytes}")
    }
}

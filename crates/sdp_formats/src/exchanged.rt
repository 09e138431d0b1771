//! Offers and answers.

ghost use Rattle.std.specs.Prelude.{◌≡◌, IfOk};
ghost use Rattle.std.specs.String.{string_bytes};
ghost use Rattle.sdp_formats_data.specs.PrintedSession.{sdp_text};
ghost use Rattle.sdp_formats_reader.specs.ReaderErrors.{ReadsText};

use sdp_formats_data::{Sdp, SdpError};
use sdp_formats_reader::sdp_parser;
use std::alloc::{AllocError, Global};
use std::fmt;
use std::marker::Model;
use std::ops::Deref;

/// An offer (RFC 8829). Contracts see it as its session text.
#[derive(Debug, PartialEq, Eq)]
pub struct SdpOffer {
    sdp: Sdp,
}

/// Written by hand, so that crates that drop this type need no proof about its fields.
impl Drop for SdpOffer {
    fn drop(self) {
        let SdpOffer { sdp: _sdp } = self;
    }
}

impl Model for SdpOffer {
    ghost use Rattle.sdp_formats_data.specs.declared.session.Sdp.{Sdp};

    ghost Value = { Sdp };

    ghost view = { λ o. o.sdp };

    ghost inverse = { λ sdp. record { sdp = sdp } };
}

impl SdpOffer {
    /// The offer of a text. What is from the first line on that fits nowhere is passed over.
    ///
    /// # Errors
    ///
    /// `ParseError` if the text has no good header, or a section with a fault; `Memory` if memory runs out.
    pub fn from_sdp_string(alloc: Global, input: &str) -> Result<SdpOffer, SdpError>
        ensures { ReadsText input.now result }
    {
        let (sdp, _) = sdp_parser(alloc, input)?;
        Ok(SdpOffer { sdp })
    }

    /// Its session text.
    pub fn as_sdp(&self) -> &Sdp
        ensures { result.now ≡ self.now }
    {
        &self.sdp
    }

    /// Its text.
    ///
    /// # Errors
    ///
    /// `AllocError` if memory runs out.
    pub fn to_sdp_string(&self, alloc: Global) -> Result<String, AllocError>
        ensures { IfOk result (λ text. string_bytes text ≡ sdp_text self.now) }
    {
        self.sdp.to_sdp_string(alloc)
    }
}

/// Its session text.
impl Deref for SdpOffer {
    type Target = Sdp;

    ghost deref_gives = { λ offer sdp. sdp ≡ offer };

    fn deref(&self) -> &Sdp {
        &self.sdp
    }
}

impl fmt::Display for SdpOffer {
    ghost use Rattle.std.specs.Prelude.{Some};

    ghost output = { λ o. Some (sdp_text o) };

    fn fmt<W: fmt::Write>(&self, f: &mut fmt::Formatter<W>) -> fmt::Result {
        let sdp = &self.sdp;
        write!(f, "{sdp}")
    }
}

impl From<Sdp> for SdpOffer {
    ghost from_gives = { λ sdp offer. offer ≡ sdp };

    fn from(sdp: Sdp) -> SdpOffer {
        SdpOffer { sdp }
    }
}

/// An answer (RFC 8829). Contracts see it as its session text.
#[derive(Debug, PartialEq, Eq)]
pub struct SdpAnswer {
    sdp: Sdp,
}

/// Written by hand, so that crates that drop this type need no proof about its fields.
impl Drop for SdpAnswer {
    fn drop(self) {
        let SdpAnswer { sdp: _sdp } = self;
    }
}

impl Model for SdpAnswer {
    ghost use Rattle.sdp_formats_data.specs.declared.session.Sdp.{Sdp};

    ghost Value = { Sdp };

    ghost view = { λ a. a.sdp };

    ghost inverse = { λ sdp. record { sdp = sdp } };
}

impl SdpAnswer {
    /// The answer of a text. What is from the first line on that fits nowhere is passed over.
    ///
    /// # Errors
    ///
    /// `ParseError` if the text has no good header, or a section with a fault; `Memory` if memory runs out.
    pub fn from_sdp_string(alloc: Global, input: &str) -> Result<SdpAnswer, SdpError>
        ensures { ReadsText input.now result }
    {
        let (sdp, _) = sdp_parser(alloc, input)?;
        Ok(SdpAnswer { sdp })
    }

    /// Its session text.
    pub fn as_sdp(&self) -> &Sdp
        ensures { result.now ≡ self.now }
    {
        &self.sdp
    }

    /// Its text.
    ///
    /// # Errors
    ///
    /// `AllocError` if memory runs out.
    pub fn to_sdp_string(&self, alloc: Global) -> Result<String, AllocError>
        ensures { IfOk result (λ text. string_bytes text ≡ sdp_text self.now) }
    {
        self.sdp.to_sdp_string(alloc)
    }
}

/// Its session text.
impl Deref for SdpAnswer {
    type Target = Sdp;

    ghost deref_gives = { λ answer sdp. sdp ≡ answer };

    fn deref(&self) -> &Sdp {
        &self.sdp
    }
}

impl fmt::Display for SdpAnswer {
    ghost use Rattle.std.specs.Prelude.{Some};

    ghost output = { λ a. Some (sdp_text a) };

    fn fmt<W: fmt::Write>(&self, f: &mut fmt::Formatter<W>) -> fmt::Result {
        let sdp = &self.sdp;
        write!(f, "{sdp}")
    }
}

impl From<Sdp> for SdpAnswer {
    ghost from_gives = { λ sdp answer. answer ≡ sdp };

    fn from(sdp: Sdp) -> SdpAnswer {
        SdpAnswer { sdp }
    }
}

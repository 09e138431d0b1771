//! Texts that are read whole, and texts that are handed on.

ghost use Rattle.std.specs.Prelude.{◌≡◌, ◌↔◌, IfErr, IfOk, IsTrue};
ghost use Rattle.std.specs.String.{string_bytes};
ghost use Rattle.rtp_media_browsers.specs.ForEnds.{IsHanded};
ghost use Rattle.rtp_media_browsers.specs.Reading.{ReadsWhole, SaysWhole};

use crate::error::BrowserError;
use sdp_formats_data::{Sdp, SdpError, sdp_equality_law};
use sdp_formats_reader::sdp_parser;
use std::alloc::{AllocError, Global};

/// What a text says that is read whole.
///
/// # Errors
///
/// `Unreadable`, `RestUnread`, `Memory`.
pub(crate) fn read_whole(alloc: Global, text: &str) -> Result<Sdp, BrowserError>
    ensures { ReadsWhole text.now result }
{
    match sdp_parser(alloc, text) {
        Ok((sdp, rest)) => {
            if !rest.is_empty() {
                return Err(BrowserError::RestUnread);
            }
            Ok(sdp)
        }
        Err(SdpError::Memory) => Err(BrowserError::Memory),
        Err(_) => Err(BrowserError::Unreadable),
    }
}

/// The text an end is given: the text itself, if nothing was removed from it.
#[tactic(auto, unfolding(crate::specs::ForEnds::IsHanded))]
pub(crate) fn handed(alloc: Global, text: &str, sdp: &Sdp, kept: &Sdp) -> Result<String, AllocError>
    ensures { IfOk result (λ out. IsHanded text.now sdp.now kept.now (string_bytes out)) }
{
    sdp_equality_law();
    if *kept == *sdp {
        return String::from_str(alloc, text);
    }
    kept.to_sdp_string(alloc)
}

/// Whether a text is read whole as this value.
///
/// # Errors
///
/// `Memory`.
#[tactic(auto, using(crate::proofs::Read::said_iff, crate::proofs::Read::nothing_said, crate::proofs::Read::rest_said))]
pub(crate) fn is_said(alloc: Global, text: &str, sdp: &Sdp) -> Result<bool, BrowserError>
    ensures said { IfOk result (λ b. IsTrue b ↔ SaysWhole text.now sdp.now) }
    ensures memory { IfErr result (λ e. e ≡ BrowserError.Memory) }
{
    sdp_equality_law();
    match read_whole(alloc, text) {
        Ok(said) => Ok(said == *sdp),
        Err(BrowserError::Unreadable) => Ok(false),
        Err(BrowserError::RestUnread) => Ok(false),
        Err(_) => Err(BrowserError::Memory),
    }
}

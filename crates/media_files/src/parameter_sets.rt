//! Parameter sets of H.264, H.265 and H.266 as session texts have them.

ghost use Rattle.std.specs.Prelude.{◌≡◌, ◌<◌, IfNone, IfOk, IfSome, length, map};
ghost use Rattle.std.specs.List.{All};
ghost use Rattle.base64.specs.Engines.{standard};
ghost use Rattle.base64.specs.GeneralPurpose.{encode_of};
ghost use Rattle.media_files.specs.ParameterSets.{AreNotUnitTexts, IsNoUnitText, texts_of};

use base64::DecodeAllocError;
use base64::engine::general_purpose::STANDARD;
use std::alloc::{AllocError, Global};

/// The unit of a text of base64; None if it is none, or of no byte.
fn unit_of(alloc: Global, text: &str) -> Result<Option<Vec<u8>>, AllocError>
    ensures value { IfOk result (λ found. IfSome found (λ unit. encode_of standard unit.items ≡ text.now)) }
    ensures some { IfOk result (λ found. IfSome found (λ unit. 0 < length unit.items)) }
    ensures none { IfOk result (λ found. IfNone found (IsNoUnitText text.now)) }
{
    match STANDARD.decode(alloc, text.as_bytes()) {
        Ok(unit) if unit.is_empty() => Ok(None),
        Ok(unit) => Ok(Some(unit)),
        Err(DecodeAllocError::DecodeError(_)) => Ok(None),
        Err(DecodeAllocError::OutOfMemory) => Err(AllocError),
    }
}

/// The texts between the commas.
fn between_commas(alloc: Global, text: &str) -> Result<Vec<&str>, AllocError>
    ensures { IfOk result (λ texts. map (λ one. one.now) texts.items ≡ texts_of text.now) }
{
    text.split(',').collect(alloc)
}

/// The NAL units that a session text lists in base64 (RFC 4648 4), with a comma between two: a value of
/// `sprop-parameter-sets` (RFC 6184 8.1), or of `sprop-vps`, `sprop-sps` or `sprop-pps` (RFC 7798 7.1, RFC 9328 7.2).
/// None if one is not base64 with its padding, or has no byte.
///
/// # Errors
/// There is no memory for them.
pub fn listed_units(alloc: Global, text: &str) -> Result<Option<Vec<Vec<u8>>>, AllocError>
    ensures value { IfOk result (λ found. IfSome found (λ units.
        map (λ unit. encode_of standard unit.items) units.items ≡ texts_of text.now)) }
    ensures some { IfOk result (λ found. IfSome found (λ units. All (λ unit. 0 < length unit.items) units.items)) }
    ensures none { IfOk result (λ found. IfNone found (AreNotUnitTexts (texts_of text.now))) }
{
    let texts = between_commas(alloc, text)?;
    let mut units = Vec::new(alloc);
    for one in &texts {
        match unit_of(alloc, *one)? {
            Some(unit) => units.push(unit)?,
            None => return Ok(None),
        }
    }
    Ok(Some(units))
}

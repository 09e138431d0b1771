//! H.264 packets as they are sent (RFC 6184 5.6, 5.7.1 and 5.8).

ghost use Rattle.h26x_payload_formats.specs.H264Packing.{fu_a, stap_a};
ghost use Rattle.std.specs.Prelude.{[], ◌∷◌, ◌≡◌, ◌++◌, ◌≤◌, IfOk, length};

use crate::h264_constants::{
    FUA_HEADER_SIZE, FUA_NALU_TYPE, OUTPUT_STAP_AHEADER, STAPA_HEADER_SIZE, STAPA_NALU_LENGTH_SIZE,
};
use crate::headers::type_of;
use crate::prefix::prefixed;
use h26x_payload_units::push_sized;
use std::alloc::{AllocError, Global};

/// The STAP-A of two parameter sets, with these bytes in front.
pub fn stap_a(alloc: Global, prefix: &[u8], sps: &[u8], pps: &[u8]) -> Result<Vec<u8>, AllocError>
    requires sps { length sps.now ≤ 65535 }
    requires pps { length pps.now ≤ 65535 }
    ensures { IfOk result (λ p. p.items ≡ prefix.now ++ stap_a (sps.now ∷ pps.now ∷ [])) }
{
    let sizes = 2 * STAPA_NALU_LENGTH_SIZE + sps.len() + pps.len();
    let mut packet = prefixed(alloc, prefix, STAPA_HEADER_SIZE + sizes)?;
    packet.push(OUTPUT_STAP_AHEADER)?;
    push_sized(sps, &mut packet)?;
    push_sized(pps, &mut packet)?;
    Ok(packet)
}

/// A NAL unit as a packet, with these bytes in front.
pub fn single(alloc: Global, prefix: &[u8], unit: &[u8]) -> Result<Vec<u8>, AllocError>
    ensures { IfOk result (λ p. p.items ≡ prefix.now ++ unit.now) }
{
    let mut packet = prefixed(alloc, prefix, unit.len())?;
    packet.extend_from_slice(unit)?;
    Ok(packet)
}

/// A fragment of a unit, with these bytes in front.
pub fn fu_a(
    alloc: Global,
    prefix: &[u8],
    header: u8,
    first: bool,
    last: bool,
    part: &[u8],
) -> Result<Vec<u8>, AllocError>
    ensures { IfOk result (λ p. p.items ≡ prefix.now ++ fu_a header first last part.now) }
{
    let start: u8 = if first { 128 } else { 0 };
    let end: u8 = if last { 64 } else { 0 };
    let mut packet = prefixed(alloc, prefix, part.len().saturating_add(FUA_HEADER_SIZE))?;
    packet.push(header / 32 % 4 * 32 + FUA_NALU_TYPE)?;
    packet.push(start + end + type_of(header))?;
    packet.extend_from_slice(part)?;
    Ok(packet)
}

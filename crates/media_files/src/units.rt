//! Video units, concatenated.

ghost use Rattle.std.specs.Prelude.{◌≡◌, IfOk, map};
ghost use Rattle.media_files.specs.Units.{annex_b_of, obu_stream_of};

use std::alloc::{AllocError, Global};

/// A unit of a stream and its time.
#[derive(Debug, Clone, Copy)]
pub struct TimedUnit<'a> {
    /// The time, in ticks of the stream's clock, modulo 2^32 (RFC 3550 5.1).
    pub time: u32,
    /// The bytes of the unit.
    pub bytes: &'a [u8],
}

// An OBU of type 2 with its size, which is 0 (AV1 bitstream specification 5.6).
pub const TEMPORAL_DELIMITER: [u8; 2] = [0x12, 0];

/// The temporal units of AV1 in the low-overhead bitstream format, each after a temporal delimiter (AV1 bitstream
/// specification 5.2 and 7.5). The units have none of their own, and their OBUs have sizes.
pub fn obu_stream(alloc: Global, units: &[&[u8]]) -> Result<Vec<u8>, AllocError>
    ensures { IfOk result (λ v. v.items ≡ obu_stream_of (map (λ u. u.now) units.now)) }
{
    let mut out = Vec::new(alloc);
    for unit in units {
        out.extend_from_slice(&TEMPORAL_DELIMITER)?;
        out.extend_from_slice(unit)?;
    }
    Ok(out)
}

/// The access units of H.264, H.265 or H.266 in the byte stream format (Annex B of each): one after the other, as
/// each begins with a start code.
pub fn annex_b(alloc: Global, units: &[&[u8]]) -> Result<Vec<u8>, AllocError>
    ensures { IfOk result (λ v. v.items ≡ annex_b_of (map (λ u. u.now) units.now)) }
{
    let mut out = Vec::new(alloc);
    for unit in units {
        out.extend_from_slice(unit)?;
    }
    Ok(out)
}

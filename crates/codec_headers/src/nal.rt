//! Payloads of NAL units.

ghost use Rattle.std.specs.Prelude.{◌≡◌, ◌++◌, IfOk, OnOk};
ghost use Rattle.codec_headers.specs.Nal.{kept, payload};

use std::alloc::{AllocError, Global};

/// Writes a byte of a payload, unless it only keeps a start code out of the unit.
fn push_kept(before: u8, last: u8, byte: u8, out: &mut Vec<u8>) -> Result<(), AllocError>
    ensures { OnOk result (out.new.items ≡ out.old.items ++ kept before last byte) }
{
    if before == 0 && last == 0 && byte == 3 {
        return Ok(());
    }
    out.push(byte)?;
    Ok(())
}

/// The payload of a NAL unit of H.264 or H.265, header included: each byte except those that only keep start codes out
/// of it (H.264 7.4.1, H.265 7.4.2).
///
/// # Errors
/// There is no memory for it.
pub fn nal_payload(alloc: Global, unit: &[u8]) -> Result<Vec<u8>, AllocError>
    ensures { IfOk result (λ v. v.items ≡ payload unit.now) }
{
    let mut out = Vec::new(alloc);
    let (mut before, mut last) = (255u8, 255u8);
    for byte in unit {
        push_kept(before, last, *byte, &mut out)?;
        (before, last) = (last, *byte);
    }
    Ok(out)
}

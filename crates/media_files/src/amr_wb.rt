//! Files of AMR-WB (RFC 4867 5).

ghost use Rattle.std.specs.Prelude.{◌≡◌, ◌++◌, IfOk, OnOk, map};
ghost use Rattle.media_files.specs.AmrWb.{amr_wb_file, magic, stored};
ghost use Rattle.media_files.specs.Opus.{item};

use std::alloc::{AllocError, Global};

// A frame of type 15, of good quality and with no speech (RFC 4867 5.3).
const NO_DATA: u8 = 0x7c;

/// Writes frames as a file stores them, or NO_DATA for one that was lost (RFC 4867 5.3).
///
/// # Errors
/// There is no memory for them.
pub fn push_amr_wb_frames(frames: Option<&[u8]>, out: &mut Vec<u8>) -> Result<(), AllocError>
    ensures { OnOk result (out.new.items ≡ out.old.items ++ stored (item frames.entry)) }
{
    match frames {
        Some(bytes) => out.extend_from_slice(bytes),
        None => out.extend_from_slice(&[NO_DATA]),
    }
}

/// The AMR-WB file (one channel) of these frames, in order (RFC 4867 5.1). Each item holds frames
/// as a file stores them: header and speech in whole bytes (5.3); None is a lost 20 ms frame.
pub fn amr_wb_file(alloc: Global, frames: &[Option<&[u8]>]) -> Result<Vec<u8>, AllocError>
    ensures { IfOk result (λ v. v.items ≡ amr_wb_file (map item frames.now)) }
{
    let mut out = Vec::new(alloc);
    push_amr_wb_front(&mut out)?;
    for item in frames {
        push_amr_wb_frames(*item, &mut out)?;
    }
    Ok(out)
}

/// Writes the magic number that a file of one channel begins with (RFC 4867 5.1).
///
/// # Errors
/// There is no memory for it.
#[tactic(auto, unfolding(crate::specs::AmrWb::magic))]
pub fn push_amr_wb_front(out: &mut Vec<u8>) -> Result<(), AllocError>
    ensures { OnOk result (out.new.items ≡ out.old.items ++ magic) }
{
    out.extend_from_slice(b"#!AMR-WB\n")
}

//! The bytes in front of a packet.

ghost use Rattle.std.specs.Prelude.{◌≡◌, IfOk};

use std::alloc::{AllocError, Global};

/// These bytes, with room for as many more.
pub fn prefixed(alloc: Global, prefix: &[u8], room: usize) -> Result<Vec<u8>, AllocError>
    ensures { IfOk result (λ p. p.items ≡ prefix.now) }
{
    let mut packet = Vec::with_capacity(alloc, prefix.len().saturating_add(room))?;
    packet.extend_from_slice(prefix)?;
    Ok(packet)
}

//! Bytes written one after the other.

ghost use Rattle.std.specs.Prelude.{◌≡◌, ◌+◌, ◌≤◌, List, ℕ, length, ◌++◌};
ghost use Rattle.rtp_wire.specs.Written.{IsWritten};

/// Writes the bytes at this place, and returns the place after them.
///
/// # Conditions
/// They end at the buffer's end or before it.
pub fn put(buf: &mut [u8], at: usize, bytes: &[u8]) -> usize
    requires { at + length bytes.now ≤ length buf.old }
    ensures end { result ≡ at + length bytes.now }
    ensures written { (text before : List ℕ) → IsWritten text before buf.old → at ≡ length text
        → IsWritten (text ++ bytes.now) before buf.new }
{
    let end = at + bytes.len();
    buf[at..end].copy_from_slice(bytes);
    end
}

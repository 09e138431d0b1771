//! Bytes of payload headers as they are read.

ghost use Rattle.payload_core_base.specs.Bytes.{has_bit};
ghost use Rattle.std.specs.Prelude.{◌≡◌, ◌<◌, drop, slice_index};

/// Whether the bit of this weight, 1 to 128, is set.
///
/// # Conditions
/// The weight is above 0.
pub fn has_bit(byte: u8, weight: u8) -> bool
    requires { 0 < weight }
    ensures { result ≡ has_bit weight byte }
{
    byte / weight % 2 == 1
}

/// The byte at an index, 0 past the end.
pub fn byte_at(text: &[u8], place: usize) -> u8
    ensures { result ≡ slice_index text.now place }
{
    text.get(place).copied().unwrap_or(0)
}

/// The bytes after the first `size`, nothing past the end.
pub fn behind(text: &[u8], size: usize) -> &[u8]
    ensures { result.now ≡ drop size text.now }
{
    if size < text.len() {
        &text[size..]
    } else {
        &[]
    }
}

//! Bits of a text, counted from the high bit of the first byte.

ghost use Rattle.payload_core_audio.specs.AmrWb.{bit_of, byte_from, bytes_from};
ghost use Rattle.payload_core_audio.specs.BitBytes.{bits_from};
ghost use Rattle.std.specs.Prelude.{◌≡◌, ◌+◌, ◌*◌, ◌%◌, ◌<◌, ◌≤◌, ◌^◌, IfNone, IfSome, length, nat_le};
ghost use Rattle.std.specs.Prelude.{slice_index};

/// The octet at a place of a text, or 0 after it.
pub fn octet_at(bytes: &[u8], k: usize) -> u8
    ensures { result ≡ slice_index bytes.now k }
{
    bytes.get(k).copied().unwrap_or(0)
}

/// A bit position in a text.
#[derive(Clone, Copy, Drop)]
pub struct BitPlace {
    octet: usize,
    bit: usize,
    ghost in_octet: { bit < 8 },
}

impl BitPlace {
    ghost use Rattle.payload_core_audio.specs.BitPlaces.{place_of};

    /// The place after this many bits of the text.
    pub fn at(bits: usize) -> Self
        ensures { place_of result ≡ bits }
    {
        BitPlace {
            octet: bits / 8,
            bit: bits % 8,
        }
    }

    /// The place this many bits after this one.
    pub fn after(&self, bits: usize) -> Self
        requires few { bits ≤ 4096 }
        requires room { place_of self.now < 2 ^ 66 }
        ensures { place_of result ≡ place_of self.now + bits }
    {
        let bit = self.bit + bits;
        BitPlace {
            octet: self.octet + bit / 8,
            bit: bit % 8,
        }
    }

    /// Whether the text has this many bits from here on.
    pub fn has_room(&self, bytes: &[u8], bits: usize) -> bool
        requires few { bits ≤ 4096 }
        requires room { place_of self.now ≤ 8 * length bytes.now }
        ensures { result ≡ nat_le (place_of self.now + bits) (8 * length bytes.now) }
    {
        let end = self.after(bits);
        end.octet < bytes.len() || (end.octet == bytes.len() && end.bit == 0)
    }

    /// The bit here.
    pub fn bit(&self, bytes: &[u8]) -> u8
        requires { place_of self.now < 8 * length bytes.now }
        ensures value { result ≡ bit_of bytes.now (place_of self.now) }
        ensures small { result < 2 }
    {
        (bytes[self.octet] >> (7 - self.bit)) % 2
    }

    /// The byte whose bits begin here, with zeros after the text.
    pub fn byte(&self, bytes: &[u8]) -> u8
        requires { place_of self.now < 8 * length bytes.now }
        ensures { result ≡ byte_from (bits_from bytes.now (place_of self.now)) 0 }
    {
        let high = bytes[self.octet] as u32;
        let low = octet_at(bytes, self.octet + 1) as u32;
        (((high * 256 + low) >> (8 - self.bit)) % 256) as u8
    }

    /// So many bytes from here on, if they are octets of the text.
    pub fn octets<'a>(&self, bytes: &'a [u8], count: usize) -> Option<&'a [u8]>
        requires { place_of self.now + 8 * count ≤ 8 * length bytes.now }
        ensures octets { IfSome result (λ octets.
            octets.now ≡ bytes_from (bits_from bytes.now (place_of self.now)) count) }
        ensures inside { IfNone result (0 < place_of self.now % 8) }
    {
        if self.bit > 0 {
            return None;
        }
        Some(&bytes[self.octet..self.octet + count])
    }
}

//! Fields of headers, the most significant bit first.

/// Where reading is, in bits.
#[derive(Clone, Copy)]
pub(crate) struct Bits<'a> {
    bytes: &'a [u8],
    at: usize,
}

impl<'a> Bits<'a> {
    /// The fields of these bytes.
    pub(crate) fn new(bytes: &'a [u8]) -> Bits<'a> {
        Bits { bytes, at: 0 }
    }

    /// The next bit; None at the end.
    pub(crate) fn flag(&mut self) -> Option<bool> {
        let byte = *self.bytes.get(self.at / 8)?;
        let bit = byte & (0x80u8 >> (self.at % 8) as u32);
        self.at = self.at.checked_add(1)?;
        Some(bit != 0)
    }

    /// The next field of this many bits, of which the last 32 count.
    pub(crate) fn take(&mut self, width: u8) -> Option<u32> {
        let mut number = 0u32;
        for _ in 0..width {
            let bit = self.flag()? as u32;
            number = number.wrapping_mul(2) | bit;
        }
        Some(number)
    }

    /// The next unsigned Exp-Golomb code (H.264 9.1).
    pub(crate) fn code(&mut self) -> Option<u32> {
        let mut zeros = 0u8;
        for _ in 0..32 {
            if self.flag()? {
                break;
            }
            zeros = zeros.saturating_add(1);
        }
        let mut number = 1u32;
        for _ in 0..zeros {
            let bit = self.flag()? as u32;
            number = number.wrapping_mul(2) | bit;
        }
        Some(number.wrapping_sub(1))
    }

    /// Passes over a field.
    pub(crate) fn skip(&mut self, width: u8) -> Option<()> {
        self.take(width)?;
        Some(())
    }

    /// Passes over so many codes.
    pub(crate) fn skip_codes(&mut self, count: u32) -> Option<()> {
        for _ in 0..count {
            self.code()?;
        }
        Some(())
    }
}

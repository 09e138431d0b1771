//! Fields of headers, the most significant bit first.

ghost use Rattle.std.specs.Prelude.{◌≡◌, ◌+◌, ◌∷◌, ◌≤◌, ◌<◌, ◌^◌, ℕ, List, [], IfNone, IfSome, drop, min};
ghost use Rattle.std.specs.Bool.{OnFalse, OnTrue};
ghost use Rattle.codec_headers.specs.Bits.{bits, flag, gives, only, pass, pass_code, times, u, ue, when, zeros};

use std::marker::Model;

/// The bits that are left to read.
#[derive(Drop)]
pub struct Bits<'a> {
    /// The bytes from the one on whose bits come next, and how many of its bits are read.
    bytes: &'a [u8],
    passed: u8,
}

impl<'a> Model for Bits<'a> {
    ghost Value = { List ℕ };

    ghost view = { λ b. drop b.passed (bits b.bytes.now) };

    ghost invariant = { λ b. b.passed < 8 };
}

/// The bit of a byte after this many.
#[tactic(auto, unfolding(crate::specs::Bits::bits))]
fn bit_of(byte: u8, passed: u8) -> u8
    requires { passed < 8 }
    ensures small { result < 2 }
    ensures first { (rest : List ℕ) → drop passed (bits (byte ∷ rest))
        ≡ result ∷ drop (passed + 1) (bits (byte ∷ rest)) }
{
    match passed {
        0 => byte / 128 % 2,
        1 => byte / 64 % 2,
        2 => byte / 32 % 2,
        3 => byte / 16 % 2,
        4 => byte / 8 % 2,
        5 => byte / 4 % 2,
        6 => byte / 2 % 2,
        _ => byte % 2,
    }
}

impl<'a> Bits<'a> {
    /// The bits of bytes.
    pub fn new(bytes: &'a [u8]) -> Bits<'a>
        ensures { result ≡ bits bytes.now }
    {
        Bits { bytes, passed: 0 }
    }

    /// The next bit; None at the end.
    #[tactic(auto, using(crate::proofs::BitLemmas::bit_steps))]
    fn next(&mut self) -> Option<u8>
        ensures some { IfSome result (λ bit. (self.old ≡ bit ∷ self.new) × (bit < 2)) }
        ensures none { IfNone result ((self.old ≡ []) × (self.new ≡ [])) }
    {
        let Some((first, rest)) = self.bytes.split_first() else {
            return None;
        };
        let bit = bit_of(*first, self.passed);
        if self.passed < 7 {
            self.passed += 1;
        } else {
            self.bytes = rest;
            self.passed = 0;
        }
        Some(bit)
    }

    /// Passes over the next bit if it is 0; whether it was.
    #[tactic(auto, using(crate::proofs::BitLemmas::bit_steps))]
    fn pass_zero(&mut self) -> bool
        ensures yes { OnTrue result (self.old ≡ 0 ∷ self.new) }
        ensures no { OnFalse result ((zeros self.old ≡ 0) × (self.new ≡ self.old)) }
    {
        let Some((first, _rest)) = self.bytes.split_first() else {
            return false;
        };
        if bit_of(*first, self.passed) != 0 {
            return false;
        }
        let _zero = self.next();
        true
    }

    /// The next number of this many bits (H.264 7.2); None if fewer are left.
    pub fn take(&mut self, width: u8) -> Option<u32>
        requires { width ≤ 32 }
        ensures value { u width self.old ≡ gives result self.new }
        ensures fits { IfSome result (λ number. number < 2 ^ width) }
    {
        let mut number = 0u32;
        for _taken in 0..width {
            number = 2 * number + self.next()? as u32;
        }
        Some(number)
    }

    /// Passes over this many bits.
    pub fn skip(&mut self, width: u16) -> Option<()>
        ensures { pass width self.old ≡ gives result self.new }
    {
        for _passed in 0..width {
            let _bit = self.next()?;
        }
        Some(())
    }

    /// Passes over this many bits, if they are there.
    pub fn skip_if(&mut self, is_there: bool, width: u16) -> Option<()>
        ensures { when is_there (pass width) self.old ≡ gives result self.new }
    {
        if !is_there {
            return Some(());
        }
        self.skip(width)
    }

    /// Passes over a field that must have this value (of VP9, as its frame_marker); None if it has another.
    #[tactic(auto, unfolding(crate::specs::Bits::only))]
    pub fn only(&mut self, width: u8, value: u32) -> Option<()>
        requires { width ≤ 32 }
        ensures { only width value self.old ≡ gives result self.new }
    {
        if self.take(width)? != value {
            return None;
        }
        Some(())
    }

    /// The next bit.
    pub fn flag(&mut self) -> Option<bool>
        ensures { flag self.old ≡ gives result self.new }
    {
        Some(self.take(1)? == 1)
    }

    /// Passes over bits 0, at most 32; how many they are.
    #[tactic(auto, using(crate::proofs::BitLemmas::bit_steps))]
    fn pass_zeros(&mut self) -> u8
        ensures value { result ≡ min 32 (zeros self.old) }
        ensures rest { self.new ≡ drop result self.old }
    {
        for passed in 0..32 {
            if !self.pass_zero() {
                return passed;
            }
        }
        32
    }

    /// The next Exp-Golomb code (H.264 9.1); None if it has more than 31 bits 0 in front, or the bits end before.
    pub fn code(&mut self) -> Option<u32>
        ensures { ue self.old ≡ gives result self.new }
    {
        let zeros = self.pass_zeros();
        if zeros > 31 {
            return None;
        }
        Some(self.take(zeros + 1)?.saturating_sub(1))
    }

    /// Passes over this many Exp-Golomb codes.
    pub fn skip_codes(&mut self, count: u8) -> Option<()>
        ensures { times count pass_code self.old ≡ gives result self.new }
    {
        for _passed in 0..count {
            self.skip_code()?;
        }
        Some(())
    }

    /// Passes over an Exp-Golomb code.
    pub fn skip_code(&mut self) -> Option<()>
        ensures { pass_code self.old ≡ gives result self.new }
    {
        let _code = self.code()?;
        Some(())
    }
}

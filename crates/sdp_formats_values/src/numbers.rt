//! Numbers and modes in a format text.

ghost use Rattle.std.specs.Prelude.{◌≡◌, ◌^◌, ◌≤◌};
ghost use Rattle.std.specs.Option.{option_copied};
ghost use Rattle.sdp_formats_values.specs.Numbers.{numeral_below, profile_level, up_to, modes_of, with_mode, behind};
ghost use Rattle.sdp_formats_values.specs.Numbers.{range_end, range_of};

use sdp_formats_grammar::{first_part, has_digits_alone};

/// The number of eight bits that a text writes.
pub fn byte_of(text: &str) -> Option<u8>
    ensures { result ≡ numeral_below (2 ^ 8) 10 text.now }
{
    text.parse::<u8>().ok()
}

fn half_word_of(text: &str) -> Option<u16>
    ensures { result ≡ numeral_below (2 ^ 16) 10 text.now }
{
    text.parse::<u16>().ok()
}

/// The number of 32 bits that a text writes.
pub fn word_of(text: &str) -> Option<u32>
    ensures { result ≡ numeral_below (2 ^ 32) 10 text.now }
{
    text.parse::<u32>().ok()
}

fn hexadecimal_of(text: &str) -> Option<u32>
    ensures { result ≡ numeral_below (2 ^ 32) 16 text.now }
{
    u32::from_str_radix(text, 16).ok()
}

/// The profile and level of H.264 that a text writes.
pub fn profile_level_of(text: &str) -> Option<u32>
    ensures { result ≡ profile_level text.now }
{
    match hexadecimal_of(text) {
        Some(number) => Some(number),
        None => word_of(text),
    }
}

/// The greatest difference of decoding order numbers that a text writes, up to 32,767.
pub fn don_diff_of(text: &str) -> Option<u16>
    ensures { result ≡ up_to 32767 (numeral_below (2 ^ 16) 10 text.now) }
{
    match half_word_of(text) {
        Some(number) => {
            if number <= 32_767 {
                return Some(number);
            }
            None
        }
        None => None,
    }
}

/// The bit of a mode of AMR-WB in a set of modes (RFC 4867 8.1).
///
/// # Conditions
///
/// `mode` is at most 8.
pub fn bit_of(mode: u8) -> u16
    requires { mode ≤ 8 }
    ensures { result ≡ 2 ^ mode }
{
    1u16 << mode
}

fn with_mode(mode: Option<u8>, modes: u16) -> Option<u16>
    ensures { result ≡ with_mode mode modes }
{
    match mode {
        Some(mode) => {
            if mode > 8 {
                return None;
            }
            Some(modes | bit_of(mode))
        }
        None => None,
    }
}

/// The modes between commas.
pub fn modes_of(text: &str) -> Option<u16>
    ensures { result ≡ modes_of text.now }
{
    let mut modes = 0;
    let mut rest = Some(text);
    while let Some(left) = rest {
        let (mode, after) = first_part(left, ',');
        modes = with_mode(byte_of(mode.trim()), modes)?;
        rest = after;
    }
    Some(modes)
}

fn behind_zero(text: &str) -> Option<&str>
    ensures { option_copied result ≡ behind 48 text.now }
{
    text.strip_prefix('0')
}

fn behind_dash(text: &str) -> Option<&str>
    ensures { option_copied result ≡ behind 45 text.now }
{
    text.strip_prefix('-')
}

fn plain_byte_of(digits: &str) -> Option<u8>
    ensures { result ≡ range_end (Some digits.now) }
{
    if has_digits_alone(digits) {
        return byte_of(digits);
    }
    None
}

/// The last event of a range.
pub fn range_of(text: &str) -> Option<u8>
    ensures { result ≡ range_of text.now }
{
    plain_byte_of(behind_dash(behind_zero(text)?)?)
}

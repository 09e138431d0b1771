//! Numbers in decimal digits, a plus before them or not.

ghost use Rattle.std.specs.Prelude.{◌≡◌, ◌≢◌, ◌^◌, Some, IfErr};
ghost use Rattle.std.specs.Option.{option_copied};
ghost use Rattle.sdp_formats_grammar.specs.Refusals.{Gives};
ghost use Rattle.sdp_formats_grammar.specs.Numbers.{number_below, has_digits_alone};
ghost use Rattle.sdp_formats_grammar.specs.Form.{maybe};

use crate::refusal::Refusal;

/// Is each byte an ASCII digit, with no sign before them? An empty text too.
pub fn has_digits_alone(text: &str) -> bool
    ensures { result ≡ has_digits_alone text.now }
{
    text.bytes().all(|byte| byte.is_ascii_digit())
}

/// The number of 8 bits that a text writes.
///
/// # Errors
///
/// `Unfit` if it writes none.
pub fn number_8(text: &str) -> Result<u8, Refusal>
    ensures gives { Gives result (number_below (2 ^ 8) text.now) }
    ensures never_memory { IfErr result (λ e. e ≢ Refusal.Memory) }
{
    text.parse::<u8>().ok().ok_or(Refusal::Unfit)
}

/// The number of 16 bits that a text writes.
///
/// # Errors
///
/// `Unfit` if it writes none.
pub fn number_16(text: &str) -> Result<u16, Refusal>
    ensures gives { Gives result (number_below (2 ^ 16) text.now) }
    ensures never_memory { IfErr result (λ e. e ≢ Refusal.Memory) }
{
    text.parse::<u16>().ok().ok_or(Refusal::Unfit)
}

/// The number of 32 bits that a text writes.
///
/// # Errors
///
/// `Unfit` if it writes none.
pub fn number_32(text: &str) -> Result<u32, Refusal>
    ensures gives { Gives result (number_below (2 ^ 32) text.now) }
    ensures never_memory { IfErr result (λ e. e ≢ Refusal.Memory) }
{
    text.parse::<u32>().ok().ok_or(Refusal::Unfit)
}

/// The number of 64 bits that a text writes.
///
/// # Errors
///
/// `Unfit` if it writes none.
pub fn number_64(text: &str) -> Result<u64, Refusal>
    ensures gives { Gives result (number_below (2 ^ 64) text.now) }
    ensures never_memory { IfErr result (λ e. e ≢ Refusal.Memory) }
{
    text.parse::<u64>().ok().ok_or(Refusal::Unfit)
}

/// The number of 8 bits of a text that may be there.
///
/// # Errors
///
/// `Unfit` if it is there and writes none.
pub fn maybe_number_8(text: Option<&str>) -> Result<Option<u8>, Refusal>
    ensures gives { Gives result (maybe (number_below (2 ^ 8)) (option_copied text.entry)) }
    ensures never_memory { IfErr result (λ e. e ≢ Refusal.Memory) }
{
    match text {
        Some(text) => Ok(Some(number_8(text)?)),
        None => Ok(None),
    }
}

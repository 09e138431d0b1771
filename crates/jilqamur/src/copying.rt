//! Bytes copied into a caller's buffer, and bytes that are text.

ghost use Rattle.std.specs.Prelude.{◌≡◌, true, false, IfSome, IfNone};
ghost use Rattle.std.specs.Str.{is_utf8};
ghost use Rattle.jilqamur.specs.Copies.{IsCopied};

use crate::codes;

/// Copies bytes to the front of a buffer, and returns `OK`, or `TOO_SMALL`, and the buffer is unchanged; `needed` is
/// their count.
pub fn copy_out(bytes: &[u8], buffer: &mut [u8], needed: &mut usize) -> u32
    ensures { IsCopied bytes.now buffer.old result needed.new buffer.new }
{
    *needed = bytes.len();
    if buffer.len() < *needed {
        return codes::TOO_SMALL;
    }
    buffer[..*needed].copy_from_slice(bytes);
    codes::OK
}

/// The same of numbers.
pub fn copy_numbers(numbers: &[u64], buffer: &mut [u64], needed: &mut usize) -> u32
    ensures { IsCopied numbers.now buffer.old result needed.new buffer.new }
{
    *needed = numbers.len();
    if buffer.len() < *needed {
        return codes::TOO_SMALL;
    }
    buffer[..*needed].copy_from_slice(numbers);
    codes::OK
}

/// The text that bytes are, if they are UTF-8.
#[tactic(auto, using(payload_core_base::proofs::Texts::text, payload_core_base::proofs::Texts::no_text))]
pub fn text_in(bytes: &[u8]) -> Option<&str>
    ensures some { IfSome result (λ text. (text.now ≡ bytes.now) × (is_utf8 bytes.now ≡ true)) }
    ensures none { IfNone result (is_utf8 bytes.now ≡ false) }
{
    match str::from_utf8(bytes) {
        Ok(text) => Some(text),
        Err(_) => None,
    }
}

//! Sizes in leb128 (AV1 bitstream specification 4.10.5).

ghost use Rattle.payload_core_av1.specs.Av1ReadingViews.{Keeps};
ghost use Rattle.payload_core_av1.specs.Leb128.{cut_by, size_in, size_limit, size_within, sized_part, spelling};
ghost use Rattle.std.specs.Prelude.{◌≡◌, ◌+◌, ◌++◌, ◌<◌, ◌≤◌, IfOk, IfSome, MatchOption, None, Some, drop};
ghost use Rattle.std.specs.Prelude.{length, take};
ghost use Rattle.payload_core_av1.specs.Bounds.{bound_of};

use std::alloc::AllocError;

/// The size that is in front of a text in at most this many bytes, and what follows it.
fn size_within(most: u8, text: &[u8]) -> Option<(usize, &[u8])>
    requires { most ≤ 8 }
    ensures value { MatchOption result (size_within most text.now ≡ None)
        (λ s. size_within most text.now ≡ Some (record { size = s.0; rest = s.1.now })) }
    ensures small { IfSome result (λ s. s.0 < bound_of most) }
    ensures shorter { IfSome result (λ s. length s.1.now < length text.now) }
{
    if most == 0 {
        return None;
    }
    let (first, rest) = text.split_first()?;
    if *first < 128 {
        return Some((*first as usize, rest));
    }
    let (size, rest) = size_within(most - 1, rest)?;
    Some((*first as usize % 128 + 128 * size, rest))
}

/// The part at the front of a text, after its size, and what follows it, if all of the part is
/// there. The size has at most eight bytes.
#[tactic(auto, unfolding(crate::specs::Leb128::size_in))]
pub fn sized_part(text: &[u8]) -> Option<(&[u8], &[u8])>
    ensures value { MatchOption result (sized_part text.now ≡ None)
        (λ cut. sized_part text.now ≡ Some (record { part = cut.0.now; rest = cut.1.now })) }
    ensures shorter { IfSome result (λ cut. length cut.0.now + length cut.1.now < length text.now) }
{
    let (size, rest) = size_within(8, text)?;
    if size > rest.len() {
        return None;
    }
    Some(rest.split_at(size))
}

/// Writes a size in its shortest form after the bytes of `out`.
///
/// # Conditions
///
/// The size is below the limit of its form, 2^56.
///
/// # Errors
///
/// `AllocError` if memory runs out. A part of it may then follow the old bytes.
pub fn push_size(out: &mut Vec<u8>, size: usize) -> Result<(), AllocError>
    requires { size < size_limit }
    ensures written { IfOk result (λ _. out.new.items ≡ out.old.items ++ spelling size) }
    ensures kept { Keeps out.old.items out.new.items }
{
    let mut left = size;
    while left >= 128 {
        out.push(128 + (left % 128) as u8)?;
        left /= 128;
    }
    out.push(left as u8)?;
    Ok(())
}

/// How many bytes a size has in its shortest form.
///
/// # Conditions
///
/// The size is below the limit of its form, 2^56.
pub fn size_len(size: usize) -> usize
    requires { size < size_limit }
    ensures value { result ≡ length (spelling size) }
    ensures few { result ≤ 8 }
{
    let mut len = 1;
    let mut left = size;
    while left >= 128 {
        left /= 128;
        len += 1;
    }
    len
}

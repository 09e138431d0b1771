//! Where start codes are.

ghost use Rattle.std.specs.Prelude.{◌≡◌, ℕ, ◌+◌, ◌-◌, ◌<◌, ◌≤◌, IsTrue, MatchOption, length};
ghost use Rattle.h26x_payload_units.specs.Places.{HasCodeAt, HasNoCodeBefore, HasNoCodeBetween};
ghost use Rattle.h26x_payload_units.specs.Units.{units_behind, without_zeros};
ghost use Rattle.h26x_payload_units.specs.Cut.{with_unit};

/// How many places are looked at together.
const BLOCK: usize = 128;

/// Whether no two zeros are adjacent from this position on, so that no start code begins in the
/// block there.
fn is_free(text: &[u8], start: usize) -> bool
    requires { start + 129 ≤ length text.now }
    ensures { IsTrue result → HasNoCodeBetween text.now start (start + 128) }
{
    let first = &text[start..start + BLOCK];
    let second = &text[start + 1..start + BLOCK + 1];
    let mut least = 255u8;
    for k in 0..BLOCK {
        least = least.min(first[k].max(second[k]));
    }
    least > 0
}

/// The position of the first 00 00 01 that begins at or after `start` and before `end`.
fn place_between(text: &[u8], start: usize, end: usize) -> Option<usize>
    requires { end ≤ length text.now - 2 }
    ensures { MatchOption result (HasNoCodeBetween text.now start end)
        (λ place. HasCodeAt text.now place × HasNoCodeBetween text.now start place) }
{
    let mut i = start;
    while i < end {
        // A nonzero third byte also rules out the next two positions.
        let third = text[i + 2];
        if third == 0 {
            i += 1;
        } else if third == 1 && text[i + 1] == 0 && text[i] == 0 {
            return Some(i);
        } else {
            i += 3;
        }
    }
    None
}

/// The place of the first 00 00 01 (ITU-T H.264 annex B), from 0.
pub fn code_place(text: &[u8]) -> Option<usize>
    ensures { MatchOption result (HasNoCodeBefore text.now (length text.now))
        (λ place. HasCodeAt text.now place × HasNoCodeBefore text.now place) }
{
    let end = text.len().saturating_sub(2);
    let mut i = 0;
    while i + BLOCK <= end {
        if !is_free(text, i) {
            if let Some(place) = place_between(text, i, i + BLOCK) {
                return Some(place);
            }
        }
        i += BLOCK;
    }
    place_between(text, i, end)
}

/// A text without the zeros at its end.
pub fn without_zeros(text: &[u8]) -> &[u8]
    ensures { result.now ≡ without_zeros text.now }
{
    let mut kept = text;
    while let Some((last, front)) = kept.split_last() {
        if *last != 0 {
            return kept;
        }
        kept = front;
    }
    kept
}

/// What precedes the first start code (ITU-T H.264 annex B), and what follows it; everything and
/// nothing if there is none.
pub fn first_stretch(text: &[u8]) -> (&[u8], &[u8])
    ensures units { units_behind text.now ≡ with_unit result.0.now (units_behind result.1.now) }
    ensures shorter { 0 < length text.now → length result.1.now < length text.now }
{
    match code_place(text) {
        Some(place) => (without_zeros(&text[..place]), &text[place + 3..]),
        None => (text, &[]),
    }
}

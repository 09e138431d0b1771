//! Sequence numbers of a few bits, widened by the number before them (RFC 3550 A.1).

ghost use Rattle.std.specs.Prelude.{◌≡◌, ◌*◌, ◌<◌, ◌^◌};
ghost use Rattle.rtp_wire.specs.Widening.{widened, widened_of};

/// The number nearest to the previous one with these low 7 bits, modulo 2^64. Of two as near it is
/// the one with the previous number's upper bits; with no previous number it is the bits themselves.
///
/// # Conditions
/// `low` has 7 bits: it is below 128.
pub fn extend_u7(previous: Option<u64>, low: u8) -> u64
    requires { low < 128 }
    ensures { result ≡ widened_of 64 previous low }
{
    widen(previous, low as u64, 64)
}

/// The number nearest to the previous one with these low 8 bits, as [`extend_u7`].
pub fn extend_u8(previous: Option<u64>, low: u8) -> u64
    ensures { result ≡ widened_of 128 previous low }
{
    widen(previous, low as u64, 128)
}

/// The number nearest to the previous one with these low 15 bits, as [`extend_u7`].
///
/// # Conditions
/// `low` has 15 bits: it is below 32,768.
pub fn extend_u15(previous: Option<u64>, low: u16) -> u64
    requires { low < 32768 }
    ensures { result ≡ widened_of 16384 previous low }
{
    widen(previous, low as u64, 16384)
}

/// The number nearest to the previous one with these low 16 bits, as [`extend_u7`].
pub fn extend_u16(previous: Option<u64>, low: u16) -> u64
    ensures { result ≡ widened previous low }
{
    widen(previous, low as u64, 32768)
}

/// The number nearest to the previous one with these low 32 bits, as [`extend_u7`].
pub fn extend_u32(previous: Option<u64>, low: u32) -> u64
    ensures { result ≡ widened_of 2147483648 previous low }
{
    widen(previous, low as u64, 2147483648)
}

/// Widens bits whose range is twice `half`.
fn widen(previous: Option<u64>, low: u64, half: u64) -> u64
    requires positive { 0 < half }
    requires narrow { half < 2 ^ 32 }
    requires bits { low < 2 * half }
    ensures { result ≡ widened_of half previous low }
{
    let Some(previous) = previous else {
        return low;
    };
    let back = previous % (2 * half);
    let base = previous - back;
    if back + half < low {
        base.wrapping_add(low).wrapping_sub(2 * half)
    } else if low + half < back {
        base.wrapping_add(low).wrapping_add(2 * half)
    } else {
        base.wrapping_add(low)
    }
}

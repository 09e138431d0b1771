//! What holds of all sequence numbers and of every window.

ghost use Rattle.std.specs.Prelude.{◌≡◌, Some, ℕ, ◌+◌, ◌%◌, ◌^◌, ◌<◌, ◌||◌, List};
ghost use Rattle.std.specs.Prelude.{◌∷◌, nat_le};
ghost use Rattle.rtp_wire.specs.Widening.{widened_of, IsNearestOf};
ghost use Rattle.rtp_wire.specs.Replay.{accepts, window_at, window_after, window_with_all, greatest_of};
ghost use Rattle.rtp_wire.specs.Replay.{is_among, is_new};

/// Widening gives the nearest number with those low bits, and it is the true number if that is less
/// than half the range of the bits away from the previous one.
pub fn widening_laws()
    ensures nearest_u7 { (previous low : ℕ) → previous < 2 ^ 64 → low < 128
        → IsNearestOf 64 previous low (widened_of 64 (Some previous) low) }
    ensures finds_u7 { (previous number : ℕ) → number < previous + 64 → previous < number + 64 → previous < 2 ^ 64
        → number < 2 ^ 64 →
        widened_of 64 (Some previous) (number % 128) ≡ number }
    ensures nearest_u8 { (previous low : ℕ) → previous < 2 ^ 64 → low < 256
        → IsNearestOf 128 previous low (widened_of 128 (Some previous) low) }
    ensures finds_u8 { (previous number : ℕ) → number < previous + 128 → previous < number + 128 → previous < 2 ^ 64
        → number < 2 ^ 64 →
        widened_of 128 (Some previous) (number % 256) ≡ number }
    ensures nearest_u15 { (previous low : ℕ) → previous < 2 ^ 64 → low < 32768
        → IsNearestOf 16384 previous low (widened_of 16384 (Some previous) low) }
    ensures finds_u15 { (previous number : ℕ) → number < previous + 16384 → previous < number + 16384
        → previous < 2 ^ 64 → number < 2 ^ 64 →
        widened_of 16384 (Some previous) (number % 32768) ≡ number }
    ensures nearest_u16 { (previous low : ℕ) → previous < 2 ^ 64 → low < 65536
        → IsNearestOf 32768 previous low (widened_of 32768 (Some previous) low) }
    ensures finds_u16 { (previous number : ℕ) → number < previous + 32768 → previous < number + 32768
        → previous < 2 ^ 64 → number < 2 ^ 64 →
        widened_of 32768 (Some previous) (number % 65536) ≡ number }
    ensures nearest_u32 { (previous low : ℕ) → previous < 2 ^ 64 → low < 4294967296
        → IsNearestOf 2147483648 previous low (widened_of 2147483648 (Some previous) low) }
    ensures finds_u32 { (previous number : ℕ) → number < previous + 2147483648 → previous < number + 2147483648
        → previous < 2 ^ 64 → number < 2 ^ 64 →
        widened_of 2147483648 (Some previous) (number % 4294967296) ≡ number }
{}

/// After any updates a window accepts exactly the numbers above the greatest one, and those less
/// than 1,024 below it that did not come.
pub fn window_laws()
    ensures from_one { (first : ℕ) (numbers : List ℕ) (number : ℕ) →
        accepts (window_with_all (window_at first) numbers) number
        ≡ is_new (greatest_of first numbers) (is_among (first ∷ numbers)) number }
    ensures after_one { (first : ℕ) (numbers : List ℕ) (number : ℕ) →
        accepts (window_with_all (window_after first) numbers) number
        ≡ is_new (greatest_of first numbers) (λ y. nat_le y first || is_among numbers y) number }
{}

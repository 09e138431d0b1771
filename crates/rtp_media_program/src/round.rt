//! What is printed reads back.

ghost use Rattle.std.specs.Prelude.{◌≡◌, ℕ, ◌^◌, ◌<◌, ◌≤◌, List, decimal};
ghost use Rattle.hex.specs.Hex.{IsBytes};
ghost use Rattle.rtp_media_program.specs.Words.{number_below, hex_of};
ghost use Rattle.rtp_media_program.specs.ReplyLines.{hex_text};

/// A printed number of 64 bits is read as itself, and so are printed bytes.
pub fn printed_words_read_back()
    ensures numbers { (limit n : ℕ) → n < limit → limit ≤ 2 ^ 64 → number_below limit (decimal n) ≡ Some n }
    ensures hexes { (bytes : List ℕ) → IsBytes bytes → hex_of (hex_text bytes) ≡ Some bytes }
{}

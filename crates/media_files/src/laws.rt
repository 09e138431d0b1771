//! What holds of all recordings.

ghost use Rattle.std.specs.Prelude.{◌≡◌, ◌+◌, ◌-◌, ◌*◌, ◌/◌, ◌%◌, ◌<◌, ◌≤◌, ◌∷◌, ◌++◌, [], ℕ, List, length, sum};
ghost use Rattle.std.specs.Prelude.{if◌then◌else◌};
ghost use Rattle.media_files.specs.Ebml.{element, u16_be};
ghost use Rattle.media_files.specs.Ivf.{nearest_time};
ghost use Rattle.media_files.specs.Mkv.{Block, Track, clusters_after, mkv_file, mkv_front, simple_block};
ghost use Rattle.media_files.specs.Ogg.{lacing};
ghost use Rattle.media_files.specs.Opus.{opus_duration, silence_of};
ghost use Rattle.media_files.specs.Superframe.{superframe_index};

/// A frame's time has the low 32 bits of its packets' timestamp, and is at most half their range
/// away from the time before it (RFC 3550 5.1).
pub fn time_laws()
    ensures low_bits { (previous low : ℕ) → 2147483648 ≤ previous → low < 4294967296
        → nearest_time previous low % 4294967296 ≡ low }
    ensures ahead { (previous low : ℕ) → nearest_time previous low < previous + 2147483648 }
    ensures behind { (previous low : ℕ) → previous ≤ nearest_time previous low + 2147483648 }
{}

/// The silence that replaces a lost packet is as long as the packet, so later packets keep their
/// time.
pub fn opus_laws()
    ensures { (packet : List ℕ) → 0 < opus_duration packet
        → opus_duration (silence_of packet) ≡ opus_duration packet }
{}

/// A Matroska file is what is written in front of its clusters, and they.
pub fn mkv_law()
    ensures { (duration : ℕ) (tracks : List Track) (blocks : List Block) → mkv_file duration tracks blocks
        ≡ mkv_front duration tracks (length (clusters_after 0 [] blocks)) ++ clusters_after 0 [] blocks }
{}

/// A block's time is that of its cluster, which is a whole second, and its own, which is less than a second and has two
/// bytes (RFC 9559 10.1).
pub fn block_time_laws()
    ensures own { (b : Block) → simple_block b ≡ element (0xa3 ∷ []) ((128 + b.track % 128)
        ∷ (u16_be (b.time - 1000 * (b.time / 1000)) ++ ((if b.is_key then 128 else 0) ∷ b.bytes))) }
    ensures after { (b : Block) → 1000 * (b.time / 1000) ≤ b.time }
    ensures within { (b : Block) → b.time - 1000 * (b.time / 1000) < 1000 }
{}

/// The segments of a page of Ogg are as long as its packet; one whose length is a multiple of 255 ends with a segment
/// of no byte (RFC 3533 5).
pub fn lacing_laws()
    ensures total { (len : ℕ) → sum (lacing len) ≡ len }
    ensures one_more { lacing 255 ≡ 255 ∷ (0 ∷ []) }
    ensures two_more { lacing 510 ≡ 255 ∷ (255 ∷ (0 ∷ [])) }
    ensures one_less { lacing 254 ≡ 254 ∷ [] }
{}

/// Rows of superframe indexes (VP9 bitstream specification, Annex B): three layers whose sizes need two bytes, two
/// whose sizes need one, only one layer, and nine.
pub fn superframe_rows()
    ensures three { superframe_index (100 ∷ (300 ∷ (1000 ∷ [])))
        ≡ 0xca ∷ (0x64 ∷ (0 ∷ (0x2c ∷ (1 ∷ (0xe8 ∷ (3 ∷ (0xca ∷ []))))))) }
    ensures two { superframe_index (255 ∷ (1 ∷ [])) ≡ 0xc1 ∷ (0xff ∷ (1 ∷ (0xc1 ∷ []))) }
    ensures single { superframe_index (100 ∷ []) ≡ [] }
    ensures many { superframe_index (1 ∷ (1 ∷ (1 ∷ (1 ∷ (1 ∷ (1 ∷ (1 ∷ (1 ∷ (1 ∷ []))))))))) ≡ [] }
{}

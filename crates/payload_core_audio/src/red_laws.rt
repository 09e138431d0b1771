//! The laws of payloads with redundancy.

ghost use Rattle.payload_core_audio.specs.RedLaws.{PackedComesBack, ReadIsPackedAgain, ReadIsSpelled, SpelledIsRead};
ghost use Rattle.payload_core_audio.specs.RedLaws.{WrapIsOne, WrapIsRead, WrapIsWithin};

/// A packet is read if and only if it consists of block headers, the primary header, the block
/// payloads and the primary payload. What is packed reads back: the first 32 blocks that fit and
/// the primary payload, with payload types cut to seven bits. Packing what was read gives the
/// packet again.
pub fn red_law()
    ensures spelled_is_read { SpelledIsRead }
    ensures read_is_spelled { ReadIsSpelled }
    ensures packed_comes_back { PackedComesBack }
    ensures packed_again { ReadIsPackedAgain }
{}

/// A payload whose length plus one is within the budget has exactly one wrapping; it is within the
/// budget, and has this primary payload.
pub fn red_wrap_law()
    ensures within { WrapIsWithin }
    ensures read { WrapIsRead }
    ensures one { WrapIsOne }
{}

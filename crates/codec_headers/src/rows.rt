//! Headers by hand, and what they say.

ghost use Rattle.std.specs.Prelude.{◌≡◌, ◌∷◌, [], Some, true, false, option_map};
ghost use Rattle.codec_headers.specs.Av1.{av1_sequence, level_of, sequence_of};
ghost use Rattle.codec_headers.specs.Av1Color.{chroma_of, color_of};
ghost use Rattle.codec_headers.specs.H264.{h264_size};
ghost use Rattle.codec_headers.specs.H265.{hevc_sequence};
ghost use Rattle.codec_headers.specs.Picture.{size_of};
ghost use Rattle.codec_headers.specs.Vp8.{vp8_size};
ghost use Rattle.codec_headers.specs.Vp9.{vp9_size};

/// Sequence parameter sets of H.264: 120 by 34 pairs of macroblocks in fields, of which two steps of four rows are cut
/// off; 45 by 36 macroblocks of 4:2:2, of which eight steps of two columns and four of one row are; scaling lists with
/// differences of 2, -3 and -7, after which a factor is 0, and of -8; and no list.
pub fn h264_rows()
    ensures interlaced { h264_size (0x67 ∷ (0x64 ∷ (0 ∷ (0x28 ∷ (0xac ∷ (0xca ∷ (0x50 ∷ (0x1e ∷ (1 ∷ (0x13 ∷
        (0xf6 ∷ (0x80 ∷ [])))))))))))) ≡ Some (size_of 1920 1080) }
    ensures wide { h264_size (0x67 ∷ (0x7a ∷ (0 ∷ (0x28 ∷ (0xbc ∷ (0xb2 ∷ (0x81 ∷ (0x68 ∷ (0x24 ∷ (0xf1 ∷ (0x28
        ∷ (0x88 ∷ [])))))))))))) ≡ Some (size_of 704 572) }
    ensures scaled { h264_size (0x67 ∷ (0x64 ∷ (0 ∷ (0x28 ∷ (0xad ∷ (0x90 ∷ (0xe3 ∷ (0xc8 ∷ (0x44 ∷ (0x28 ∷
        (0xc8 ∷ (0xd3 ∷ (0x29 ∷ (0x7d ∷ (0x68 ∷ []))))))))))))))) ≡ Some (size_of 30 16) }
    ensures plain { h264_size (0x67 ∷ (0x42 ∷ (0 ∷ (0x28 ∷ (0xd9 ∷ (0x4b ∷ (0x90 ∷ []))))))) ≡ Some (size_of 32
        16) }
{}

/// Sequence parameter sets of H.265, with bytes that keep start codes out: 4:2:0, and 4:2:2 of three sub-layers, the
/// first with a profile and a level, the second with a level.
pub fn hevc_rows()
    ensures plain { option_map (λ s. s.size) (hevc_sequence (0x42 ∷ (1 ∷ (1 ∷ (1 ∷ (0x60 ∷ (0 ∷ (0 ∷ (3 ∷ (0 ∷
        (0x90 ∷ (0 ∷ (0 ∷ (3 ∷ (0 ∷ (0 ∷ (3 ∷ (0 ∷ (0x5d ∷ (0xa0 ∷ (3 ∷ (0xc0 ∷ (0x80 ∷ (0x11 ∷ (7 ∷ (0xcb ∷
        (0x96 ∷ []))))))))))))))))))))))))))) ≡ Some (size_of 1920 1080) }
    ensures wide { option_map (λ s. s.size) (hevc_sequence (0x42 ∷ (1 ∷ (5 ∷ (1 ∷ (0x60 ∷ (0 ∷ (0 ∷ (3 ∷ (0 ∷
        (0x90 ∷ (0 ∷ (0 ∷ (3 ∷ (0 ∷ (0 ∷ (3 ∷ (0 ∷ (0x5d ∷ (0xd0 ∷ (0 ∷ (0x12 ∷ (0x34 ∷ (0x56 ∷ (0x78 ∷ (0x9a ∷
        (0 ∷ (0 ∷ (3 ∷ (0 ∷ (0 ∷ (3 ∷ (0 ∷ (0 ∷ (0x5a ∷ (0x5a ∷ (0xb0 ∷ (3 ∷ (0xc0 ∷ (0x80 ∷ (0x11 ∷ (7 ∷ (0x28
        ∷ (0x9b ∷ (0x65 ∷ (0x80 ∷ [])))))))))))))))))))))))))))))))))))))))))))))) ≡ Some (size_of 1912 1080) }
{}

/// Sequence headers of AV1: one with times, delays, two operating points and samples of 10 bits, and a reduced one of
/// profile 2, whose samples have 12 bits.
pub fn av1_rows()
    ensures whole { av1_sequence (4 ∷ (0 ∷ (0 ∷ (0 ∷ (4 ∷ (0 ∷ (0 ∷ (0 ∷ (0x7a ∷ (0xe9 ∷ (0 ∷ (0 ∷ (0 ∷ (7 ∷
        (0x19 ∷ (0x21 ∷ (0 ∷ (4 ∷ (0x60 ∷ (0x28 ∷ (0xd ∷ (0xc8 ∷ (0 ∷ (0x94 ∷ (0xaa ∷ (0xef ∷ (0xf0 ∷ (0xde ∷
        (0x6b ∷ (0xff ∷ (0x5d ∷ (0xe5 ∷ (0x20 ∷ []))))))))))))))))))))))))))))))))) ≡ Some (sequence_of 0
        (level_of 8 1) (size_of 1920 1080) (color_of true false false (chroma_of true true 1))) }
    ensures reduced { av1_sequence (0x59 ∷ (0x21 ∷ (0xeb ∷ (0xf9 ∷ (0x1f ∷ (0xe8 ∷ (0x48 ∷ (0x80 ∷ (0x4b ∷ (0x80
        ∷ [])))))))))) ≡ Some (sequence_of 2 (level_of 4 0) (size_of 352 201) (color_of true true false
        (chroma_of true true 2))) }
{}

/// Key frames of VP8, whose sizes have scales above them, and of VP9, of profile 1.
pub fn vpx_rows()
    ensures vp8 { vp8_size (0x50 ∷ (0 ∷ (0 ∷ (0x9d ∷ (1 ∷ (0x2a ∷ (0x80 ∷ (0x42 ∷ (0xe0 ∷ (0xc1 ∷ [])))))))))) ≡
        Some (size_of 640 480) }
    ensures vp9 { vp9_size (0xa2 ∷ (0x49 ∷ (0x83 ∷ (0x42 ∷ (0x48 ∷ (9 ∷ (0xfe ∷ (5 ∷ (0x9e ∷ (0 ∷ [])))))))))) ≡
        Some (size_of 1280 720) }
{}

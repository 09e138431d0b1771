//! What a depacketizer tells of a unit beside its bytes.

use crate::telephone_event::TelephoneEvent;

/// What a depacketizer tells of a unit beside its bytes.
#[derive(Clone, Copy, Debug, PartialEq, Eq, Drop)]
pub enum CodecExtra {
    /// Nothing.
    None,
    /// Of a VP8 frame.
    Vp8(Vp8CodecExtra),
    /// Of a VP9 frame.
    Vp9(Vp9CodecExtra),
    /// Of an H.264 access unit.
    H264(H264CodecExtra),
    /// Of an AV1 temporal unit.
    Av1(Av1CodecExtra),
    /// Of an H.265 access unit.
    H265(H265CodecExtra),
    /// Of an H.266 access unit.
    H266(H266CodecExtra),
    /// The first report of a telephone event packet.
    Tele(TelephoneEvent),
}

/// What a VP8 descriptor and frame tell (RFC 7741 4.2).
#[derive(Clone, Copy, Debug, PartialEq, Eq, Drop)]
pub struct Vp8CodecExtra {
    /// Whether the frame is a keyframe.
    pub is_keyframe: bool,
    /// The picture id, of 7 or 15 bits.
    pub picture_id: Option<u16>,
    /// The index of the temporal base layer frame.
    pub tl0_pic_idx: Option<u8>,
}

/// What a VP9 descriptor tells (RFC 9628 4.2).
#[derive(Clone, Copy, Debug, PartialEq, Eq, Drop)]
pub struct Vp9CodecExtra {
    /// The picture id, of 7 or 15 bits.
    pub picture_id: Option<u16>,
}

/// What an AV1 unit tells.
#[derive(Clone, Copy, Debug, PartialEq, Eq, Drop)]
pub struct Av1CodecExtra {
    /// Whether the unit begins a coded video sequence.
    pub is_keyframe: bool,
}

/// What an H.264 unit tells.
#[derive(Clone, Copy, Debug, PartialEq, Eq, Drop)]
pub struct H264CodecExtra {
    /// Whether the unit has an IDR picture.
    pub is_keyframe: bool,
}

/// What an H.265 unit tells.
#[derive(Clone, Copy, Debug, PartialEq, Eq, Drop)]
pub struct H265CodecExtra {
    /// Whether the unit has a random access picture.
    pub is_keyframe: bool,
}

/// What an H.266 unit tells.
#[derive(Clone, Copy, Debug, PartialEq, Eq, Drop)]
pub struct H266CodecExtra {
    /// Whether the unit has a random access picture.
    pub is_keyframe: bool,
}

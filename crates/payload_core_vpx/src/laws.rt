//! The laws of VP8 payloads.

ghost use Rattle.payload_core_base.specs.Law.{CodecLaw, FillsPackets, SilenceKeepsState};
ghost use Rattle.payload_core_vpx.specs.Vp8.{vp8_coding, vp8_packing};
ghost use Rattle.payload_core_vpx.specs.Vp8Forms.{SameUnits};
ghost use Rattle.payload_core_vpx.specs.Vp8KeyframeLaw.{KeyframeLaw};
ghost use Rattle.payload_core_vpx.specs.Vp8Layout.{LayoutLaw, OnlyLaw, ParsedLaw, ReadLaw};
ghost use Rattle.payload_core_vpx.specs.Vp8PatchLaw.{PatchLaw};
ghost use Rattle.std.specs.Prelude.{Bool};

/// VP8 obeys the codec law, with or without picture ids, and with or without id 0: a frame is one
/// unit of one part, unless the limit leaves no room after the descriptor; every packet except a
/// frame's last is as long as the limit; and a sample without packets doesn't change the picture
/// id. At limits above 4 bytes, sending id 0 doesn't change the units.
pub fn vp8_law()
    ensures codec { (has_id zero_id : Bool) → CodecLaw (vp8_coding has_id zero_id) }
    ensures full { (has_id zero_id : Bool) → FillsPackets (vp8_packing has_id zero_id) }
    ensures silent { (has_id zero_id : Bool) → SilenceKeepsState (vp8_packing has_id zero_id) }
    ensures same_units { SameUnits }
{}

/// A patch built from a payload's descriptor only writes within the payload, and changes only the
/// bits of the ids: other bytes, M, TID and Y don't change. The result reads with the new ids, and
/// a patch with the payload's own ids restores it.
pub fn vp8_patch_law()
    ensures { PatchLaw }
{}

/// Only a payload with S and of partition 0 begins a keyframe (RFC 7741 4.2).
pub fn vp8_keyframe_law()
    ensures { KeyframeLaw }
{}

/// A payload has a descriptor if and only if its bytes are the descriptor's fields followed by at
/// least one byte of a frame: X and its flags, I and a 7- or 15-bit picture id, L and TL0PICIDX, T
/// or K and the byte of KEYIDX (RFC 7741 4.2). The descriptor gives these fields, and the payload
/// is read as that part of the frame.
pub fn vp8_layout_law()
    ensures laid_out { LayoutLaw }
    ensures parsed { ParsedLaw }
    ensures read { ReadLaw }
    ensures only { OnlyLaw }
{}

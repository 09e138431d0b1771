//! The laws of VP9 payloads.

ghost use Rattle.payload_core_base.specs.Law.{CodecLaw, FillsPackets, SilenceKeepsState};
ghost use Rattle.payload_core_vpx.specs.Vp9.{SameUnits, vp9_coding, vp9_packing};
ghost use Rattle.payload_core_vpx.specs.Vp9Layout.{LayoutLaw, ReadLaw, TooManyLaw};
ghost use Rattle.std.specs.Prelude.{Bool};

/// VP9 obeys the codec law, with or without the prediction flag: a frame is one unit of one part,
/// unless the limit leaves no room after the descriptor; every packet except a frame's last is as
/// long as the limit; and a sample without packets doesn't change the picture id. At limits above 4
/// bytes the flag doesn't change the units.
pub fn vp9_law()
    ensures codec { (prediction : Bool) → CodecLaw (vp9_coding prediction) }
    ensures full { (prediction : Bool) → FillsPackets (vp9_packing prediction) }
    ensures silent { (prediction : Bool) → SilenceKeepsState (vp9_packing prediction) }
    ensures same_units { SameUnits }
{}

/// A packet is read if and only if its bytes are a descriptor's fields followed by a payload: it
/// gives that payload and the descriptor's picture id. It is refused with `ErrTooManyPDiff` if and
/// only if N is set in a third reference.
pub fn vp9_layout_law()
    ensures laid_out { LayoutLaw }
    ensures read { ReadLaw }
    ensures too_many { TooManyLaw }
{}

//! The laws of H.265 and H.266 payloads.

ghost use Rattle.h26x_payload_formats.specs.Coding.{FullLaw, KeepsCodecLaw, UnitsLaw, WithinLaw};
ghost use Rattle.h26x_payload_formats.specs.Fragments.{FragmentLaw};

/// H.265 and H.266 obey the codec law, with and without decoding order numbers. A sample is
/// well-formed if each of its NAL units has F clear, a type that may be a single NAL unit (0 to 47
/// for H.265, 0 to 27 for H.266) and at least three bytes. The NAL units sent for it, each preceded
/// by a start code, are the parts of one unit, unless there are none, and its packets give exactly
/// these. No packet of any sample exceeds the limit or 1,200 bytes, and every fragment of a NAL
/// unit except the last is as long as the smaller of the two.
pub fn h265_h266_law()
    ensures codec { KeepsCodecLaw }
    ensures units { UnitsLaw }
    ensures within { WithinLaw }
    ensures full { FullLaw }
{}

/// After packets of which none was refused, an accepted fragment outputs a NAL unit if and only if
/// it ends one: it has E, and no other packet since the latest S does. The NAL unit consists of the
/// header of that first fragment with the type from its FU header, and the parts from there on.
pub fn h265_h266_reading_law()
    ensures { FragmentLaw }
{}

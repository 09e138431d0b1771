//! The laws of H.264 payloads.

ghost use Rattle.h26x_payload_formats.specs.AggregateLayout.{AggregateLaw};
ghost use Rattle.h26x_payload_formats.specs.H264Coding.{FullLaw, UnitsLaw, WithinLaw, h264_coding};
ghost use Rattle.h26x_payload_formats.specs.H264Fragments.{FragmentLaw};
ghost use Rattle.payload_core_base.specs.Law.{CodecLaw};

/// H.264 obeys the codec law. A sample is well-formed if each of its NAL units has F clear and a
/// type of 1 to 23. The NAL units sent for it, each preceded by a start code, are the parts of one
/// unit, unless there are none, and its packets give exactly these. No packet of any sample exceeds
/// the limit, and every fragment of a NAL unit except the last is as long as the limit.
pub fn h264_law()
    ensures codec { CodecLaw h264_coding }
    ensures units { UnitsLaw }
    ensures within { WithinLaw }
    ensures full { FullLaw }
{}

/// The body of a STAP-A is read as units, each preceded by its size, in the only way it has that
/// layout, up to its end, or half a size field, or a size that exceeds the bytes left, which is
/// reported with their number. After packets of which none was refused, an accepted FU-A outputs a
/// NAL unit if and only if it ends one: it has E, and no other packet since the latest S does. The
/// NAL unit consists of F and NRI of that first fragment, the type from its FU header, and the
/// parts from there on.
pub fn h264_reading_law()
    ensures aggregates { AggregateLaw }
    ensures fragments { FragmentLaw }
{}

//! What the cut of a text is.

ghost use Rattle.h26x_payload_units.specs.Units.{ComesBack, CutLaw, PlaceLaw, UnitsLaw};
ghost use Rattle.h26x_payload_units.specs.UnitsLeft.{HandsOutAll};

/// Every text is cut in exactly one way: into stretches without a start code, separated by start
/// codes of two or more zeros and 01, each including all zeros before its 01. The units are the
/// nonempty stretches after start codes, in order; a nonempty text without a start code is one
/// unit. Units written with 00 00 00 01 before each are read back, if none but the last ends in a
/// zero. Bytes that directly follow a start code, contain none and extend to the next one or the
/// end are one unit, between the units of what precedes and what follows.
pub fn cut_law()
    ensures cut { CutLaw }
    ensures units { UnitsLaw }
    ensures places { PlaceLaw }
    ensures comes_back { ComesBack }
{}

/// An iterator yields exactly its remaining units, in order, until it returns None; so a new one
/// yields the text's.
pub fn nal_units_law()
    ensures { HandsOutAll }
{}

//! The laws of aggregates, of decoding order numbers and of fragments.

ghost use Rattle.h26x_payload_units.specs.AggregateLayout.{AggregateLaw};
ghost use Rattle.h26x_payload_units.specs.FragmentRuns.{FragmentsLaw};
ghost use Rattle.h26x_payload_units.specs.Numbers.{NumbersLaw};

/// The contents of an aggregation packet are read as units, each preceded by its size, in the only
/// way they have that layout, up to the end, or too few bytes for a size, or a size that exceeds
/// the bytes left; for any number of bytes before the first size and before each later one.
pub fn aggregates_law()
    ensures { AggregateLaw }
{}

/// The k-th unit sent has the decoding order number of the first one plus k, modulo 65,536.
pub fn numbers_law()
    ensures { NumbersLaw }
{}

/// Whatever a format's fragments look like, a packet outputs a unit if and only if it completes it:
/// it has E, and no other packet since the latest S (which may be in this packet) does. The unit is
/// the header that this S fragment gives it, and the parts from there on.
pub fn fragments_law()
    ensures { FragmentsLaw }
{}

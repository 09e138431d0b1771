//! What holds of all recordings.

ghost use Rattle.stream_recording.specs.Orders.{EndLaw, RecordingLaw, StepLaw};

/// In whatever order packets come, the units that are recorded of a stream are in the order of their packets' numbers,
/// each of them once: no packet of a unit has a number that one of an earlier unit has, or a lower one.
/// A recording goes on packet by packet, as `record_packet` says, and ends with the frames that are left, as
/// `record_rest` says.
pub fn recording_law()
    ensures in_order { RecordingLaw }
    ensures steps { StepLaw }
    ensures ends { EndLaw }
{}

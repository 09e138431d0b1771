//! A packet alone says what the payload formats say.

ghost use Rattle.packet_info.specs.Laws.{FollowsFormats, FollowsSizes, FollowsUnits};

/// Heads and tails are those by which a receiver puts frames together, of each codec and whatever was negotiated. The
/// first packet that a receiver reads of a unit shows a key frame if and only if the unit is a keyframe so far; VP9's
/// units don't say it.
pub fn packet_info_law()
    ensures formats { FollowsFormats }
    ensures units { FollowsUnits }
{}

/// The first OBU of an AV1 packet begins after its size (AV1 bitstream specification 4.10.5).
pub fn size_law()
    ensures { FollowsSizes }
{}

//! The payload types of rows.

ghost use Rattle.rtp_media_runs.specs.Types.{FirstIsRepeated, NoneIsRepeated};

/// A payload type is reported as repeated if and only if the types before it are distinct and
/// include it. None is reported if and only if all types are distinct.
pub fn types_law()
    ensures exactly { FirstIsRepeated }
    ensures none { NoneIsRepeated }
{}

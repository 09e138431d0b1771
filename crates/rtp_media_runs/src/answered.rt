//! The rows of an answer.

ghost use Rattle.rtp_media_runs.specs.Answered.{AnsweredAreEachOnce, AnsweredTypesAreDistinct};

/// The rows of an answer are exactly those that answer offered rows, each once, in the order of
/// their first occurrence, which is the offer's (RFC 3264 6.1). No two have the same payload type.
pub fn answered_rows_law()
    ensures exactly { AnsweredAreEachOnce }
    ensures types { AnsweredTypesAreDistinct }
{}

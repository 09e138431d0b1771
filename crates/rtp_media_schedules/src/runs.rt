//! A run may be cut anywhere.

ghost use Rattle.std.specs.Prelude.{◌≡◌, List, ◌++◌, Ok, None};
ghost use Rattle.payload_core_base.specs.Format.{Format};
ghost use Rattle.rtp_media_schedules.specs.Hearing.{Event, Stream, after_events, heard, poll_answer, polled};

/// A run may be cut anywhere: what is heard of the rest depends only on the stream's state after
/// the beginning. A poll that returns None changes nothing.
pub fn run_laws()
    ensures answers { (format : Format) (s : Stream) (before rest : List Event) →
        heard format s (before ++ rest) ≡ heard format s before ++ heard format (after_events format s before) rest }
    ensures after { (format : Format) (s : Stream) (before rest : List Event) →
        after_events format s (before ++ rest) ≡ after_events format (after_events format s before) rest }
    ensures silent { (format : Format) (s : Stream) → poll_answer format s ≡ Ok None → polled format s ≡ s }
{}

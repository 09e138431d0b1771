//! Polls that come to an end.

ghost use Rattle.std.specs.Prelude.{◌≡◌, ◌-◌, ◌↔◌, IsTrue, Ok, None, Some, length, slice_get};
ghost use Rattle.rtp_media_runs.specs.declared.schedule.Played.{Played};

use rtp_media_runs::Played;

/// Whether the last event is a poll that returned None.
pub(crate) fn ends_silent(all: &[Played]) -> bool
    ensures { IsTrue result ↔ (slice_get all.now (length all.now - 1) ≡ Some (Played.Polled (Ok None))) }
{
    match all.last() {
        Some(last) => matches!(last, Played::Polled(Ok(None))),
        None => false,
    }
}

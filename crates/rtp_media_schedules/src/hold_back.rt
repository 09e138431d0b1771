//! What a hold-back of 1,023 is for.

ghost use Rattle.std.specs.Prelude.{◌≡◌, ◌≢◌, ℕ, ◌+◌, ◌≤◌, List, None, count_by, false, true};
ghost use Rattle.std.specs.List.{range_with_len};
ghost use Rattle.payload_core_base.specs.Format.{Format};
ghost use Rattle.payload_core_buffer.specs.Buffered.{Holding, is_done};
ghost use Rattle.rtp_media_schedules.specs.Hearing.{Event, after_events, fresh, polled};
ghost use Rattle.rtp_media_schedules.specs.HoldBacks.{taken};
ghost use Rattle.rtp_media_schedules.specs.Turns.{is_among};
ghost use Rattle.rtp_wire.specs.Replay.{is_accepted, reach_below};

/// Whatever came: while the window would still accept a number, at most 1,023 above it were taken
/// (`few`). So after the first unit, with at least 1,023 complete frames held back, no poll passes
/// such a number over (`kept`).
pub fn hold_back_law()
    ensures few { (format : Format) (holding : Holding) (events : List Event) (number count : ℕ) →
        is_accepted (after_events format (fresh holding) events).window number ≡ true →
        count_by (is_among (taken format (fresh holding) events)) (range_with_len (number + 1) count) ≤ reach_below }
    ensures kept { (format : Format) (holding : Holding) (events : List Event) (number : ℕ) →
        let s = after_events format (fresh holding) events in
        reach_below ≤ holding.hold_back → is_accepted s.window number ≡ true → s.cutoff ≢ None →
        is_done s.cutoff number ≡ false → is_done (polled format s).cutoff number ≡ false }
{}

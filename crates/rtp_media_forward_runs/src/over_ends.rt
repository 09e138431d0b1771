//! What holds of every run at an end that hears what is sent on.

ghost use Rattle.std.specs.Prelude.{◌≡◌, ℕ, List, [], ◌∷◌, ◌++◌, map, Ok};
ghost use Rattle.rtp_wire.specs.declared.values.ExtensionValues.{ExtensionValues};
ghost use Rattle.rtp_media_schedules.specs.Hearing.{EndsSilent, handed_out};
ghost use Rattle.payload_core_buffer.specs.Buffered.{Holding};
ghost use Rattle.rtp_media_schedules.specs.Legal.{IsLegal};
ghost use Rattle.rtp_media_schedules.specs.Orders.{IsSane, IsTame, first_size};
ghost use Rattle.rtp_media_schedules.specs.SentSamples.{timed_unit};
ghost use Rattle.rtp_media_schedules.specs.Samples.{canonical_units, frame_sizes, whole_unit};
ghost use Rattle.rtp_media_streams.specs.Rows.{format_of};
ghost use Rattle.rtp_media_streams.specs.Sending.{Sending};
ghost use Rattle.rtp_media_ends.specs.Ends.{EndState};
ghost use Rattle.rtp_media_runs.specs.Runs.{AreForeign};
ghost use Rattle.rtp_media_runs.specs.Schedules.{is_repaired, played, poll_answers, turns_of};
ghost use Rattle.rtp_media_runs.specs.declared.schedule.Event.{Event};
ghost use Rattle.rtp_media_runs.specs.declared.schedule.Event.TheVariants.{Poll};
ghost use Rattle.rtp_media_forward.specs.Relayed.{Part, count_of, relayed};
ghost use Rattle.rtp_media_forward_runs.specs.Hops.{values_by};
ghost use Rattle.rtp_media_forward_runs.specs.ForwardedRuns.{HearsRelay, relay_of};

/// A whole run at an end, of arrivals of datagrams that were sent on, repairs of them, other bytes and polls: if it is
/// sane, what the polls answer is a legal selection of the units of the parts (`legal`), and where it is tame, and ends
/// by a poll that answers None, exactly these (`exact`).
pub fn forwarded_runs_law()
    ensures legal { (e : EndState) (rx : ℕ) (holding : Holding) (s : Sending) (own : ExtensionValues → ExtensionValues)
        (first : ℕ) (parts : List Part) (schedule : List Event) →
        let relay = relay_of s own first parts in
        HearsRelay e rx holding s own first parts → AreForeign s.ssrc s.types schedule
        → IsSane first (count_of parts) [] (turns_of first (count_of parts) (is_repaired relay) schedule) →
        IsLegal (canonical_units first (relayed (values_by s own) parts))
        (poll_answers (played relay rx e schedule)) }
    ensures exact { (e : EndState) (rx : ℕ) (holding : Holding) (s : Sending)
        (own : ExtensionValues → ExtensionValues) (first : ℕ) (parts : List Part) (before : List Event) →
        let relay = relay_of s own first parts in
        let schedule = before ++ Poll ∷ [] in
        let answers = poll_answers (played relay rx e schedule) in
        let samples = relayed (values_by s own) parts in
        let sizes = frame_sizes (format_of s.row) samples in
        HearsRelay e rx holding s own first parts → AreForeign s.ssrc s.types schedule
        → IsTame first (count_of parts) holding (first_size sizes) [] first sizes
        (turns_of first (count_of parts) (is_repaired relay) schedule) → EndsSilent answers →
        map timed_unit (handed_out answers) ≡ map (λ c. Ok (whole_unit c)) (canonical_units first samples) }
{}

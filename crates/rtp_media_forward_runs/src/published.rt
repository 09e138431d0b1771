//! What holds of every run at an end that hears what is sent on of publishers' streams.

ghost use Rattle.std.specs.Prelude.{◌≡◌, ℕ, ◌+◌, ◌^◌, ◌≤◌, List, [], ◌∷◌, ◌++◌, map, None, Ok};
ghost use Rattle.rtp_wire.specs.declared.values.ExtensionValues.{ExtensionValues};
ghost use Rattle.rtp_media_schedules.specs.Hearing.{EndsSilent, handed_out};
ghost use Rattle.payload_core_buffer.specs.Buffered.{Holding};
ghost use Rattle.rtp_media_schedules.specs.Orders.{IsTame, first_size};
ghost use Rattle.rtp_media_schedules.specs.SentSamples.{timed_unit};
ghost use Rattle.rtp_media_schedules.specs.Samples.{frame_sizes};
ghost use Rattle.rtp_media_streams.specs.Receiving.{opened_receiver};
ghost use Rattle.rtp_media_streams.specs.Rows.{format_of};
ghost use Rattle.rtp_media_streams.specs.Sending.{Sending};
ghost use Rattle.rtp_media_ends.specs.Ends.{EndState};
ghost use Rattle.rtp_media_ends.specs.FullArrival.{HasReceiver, IsSender};
ghost use Rattle.rtp_media_runs.specs.Runs.{AreForeign};
ghost use Rattle.rtp_media_runs.specs.Schedules.{is_repaired, played, poll_answers, turns_of};
ghost use Rattle.rtp_media_runs.specs.declared.schedule.Event.{Event};
ghost use Rattle.rtp_media_runs.specs.declared.schedule.Event.TheVariants.{Poll};
ghost use Rattle.rtp_media_forward.specs.Relayed.{count_of, relayed};
ghost use Rattle.rtp_media_forward_runs.specs.ForwardedRuns.{HearsRelay, relay_of};
ghost use Rattle.rtp_media_forward_runs.specs.Hops.{values_by};
ghost use Rattle.rtp_media_forward_runs.specs.Published.{ArePublished, KeepsValues, Publication, parts_of, units_on};

use crate::over_ends::forwarded_runs_law;
use h26x_payload::codec_law;

/// Publishers' streams of any codec, sent on over a stream of one format: what is asked of a subscriber is met if the
/// publishers' samples can be sent (`hears`), and under a tame schedule the subscriber hands out exactly the
/// publishers' canonical units, with their times and values as they are sent on (`exact`).
pub fn published_law()
    ensures hears { (e : EndState) (rx : ℕ) (holding : Holding) (s : Sending)
        (own : ExtensionValues → ExtensionValues) (first : ℕ) (publications : List Publication) →
        HasReceiver e rx (opened_receiver s.ssrc s.types s.map s.row holding) → IsSender s → s.redundancy ≡ None
        → KeepsValues own → ArePublished (format_of s.row) publications
        → first + count_of (parts_of publications) ≤ 2 ^ 62 →
        HearsRelay e rx holding s own first (parts_of publications) }
    ensures exact { (e : EndState) (rx : ℕ) (holding : Holding) (s : Sending)
        (own : ExtensionValues → ExtensionValues) (first : ℕ) (publications : List Publication)
        (before : List Event) →
        let parts = parts_of publications in
        let relay = relay_of s own first parts in
        let schedule = before ++ Poll ∷ [] in
        let answers = poll_answers (played relay rx e schedule) in
        let sizes = frame_sizes (format_of s.row) (relayed (values_by s own) parts) in
        HearsRelay e rx holding s own first parts → AreForeign s.ssrc s.types schedule
        → IsTame first (count_of parts) holding (first_size sizes) [] first sizes
        (turns_of first (count_of parts) (is_repaired relay) schedule) → EndsSilent answers →
        map timed_unit (handed_out answers) ≡ map Ok (units_on (values_by s own) publications) }
{
    codec_law();
    forwarded_runs_law();
}

//! What holds of repairs that come too late.

ghost use Rattle.std.specs.Prelude.{◌≡◌, ◌++◌, ◌∷◌, [], ℕ, List, true};
ghost use Rattle.payload_core_buffer.specs.Buffered.{Holding};
ghost use Rattle.rtp_media_streams.specs.Sending.{Sample, Sending};
ghost use Rattle.rtp_media_ends.specs.Ends.{EndState};
ghost use Rattle.rtp_media_stream_table.specs.declared.received.Received.TheVariants as verdict;
ghost use Rattle.rtp_media_runs.specs.Runs.{Hears, IsSaneSchedule};
ghost use Rattle.rtp_media_runs.specs.Schedules.{after_event, after_schedule, answers_to, has_come, is_repaired};
ghost use Rattle.rtp_media_runs.specs.Schedules.{source_after_all, source_of};
ghost use Rattle.rtp_media_runs.specs.declared.schedule.Event.{Event};
ghost use Rattle.rtp_media_runs.specs.declared.schedule.Event.TheVariants.{Repair};
ghost use Rattle.rtp_media_runs.specs.declared.schedule.Played.TheVariants as answer;

use h26x_payload::codec_law;

/// A late retransmission changes nothing (RFC 4588): if a sane schedule ends with the repair of a
/// datagram that already came, itself or as a repair, it is answered `Refused`, and the receiving
/// end doesn't change.
pub fn late_repairs_law()
    ensures { (end : EndState) (rx : ℕ) (holding : Holding) (sender : Sending) (samples : List Sample)
        (before : List Event) (k : ℕ) →
        let sent = source_of sender samples in
        let now = after_schedule sent rx end before in
        Hears end rx holding sender samples → IsSaneSchedule sender samples (before ++ Repair k ∷ []) →
        has_come k before ≡ true → is_repaired sent k ≡ true →
        (answers_to (source_after_all sent before) rx now (Repair k) ≡ answer.Received verdict.Refused ∷ [])
        × (after_event (source_after_all sent before) rx now (Repair k) ≡ now) }
{
    codec_law();
}

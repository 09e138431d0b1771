//! What holds of every run between two ends.

ghost use Rattle.std.specs.Prelude.{◌≡◌, ◌↔◌, ℕ, List, length, map, None, Ok};
ghost use Rattle.payload_core_buffer.specs.Buffered.{Holding};
ghost use Rattle.rtp_media_schedules.specs.Hearing.{fresh, handed_out, heard};
ghost use Rattle.rtp_media_schedules.specs.SentSamples.{timed_unit};
ghost use Rattle.rtp_media_schedules.specs.Legal.{IsLegal};
ghost use Rattle.rtp_media_schedules.specs.Samples.{whole_unit};
ghost use Rattle.rtp_media_streams.specs.Rows.{format_of};
ghost use Rattle.rtp_media_streams.specs.Sending.{Sample};
ghost use Rattle.rtp_media_ends.specs.Ends.{EndState, after_open_receiver, new_receiver, new_sender};
ghost use Rattle.rtp_media_ends.specs.Ends.{refusal_of_open_receiver, refusal_of_open_sender};
ghost use Rattle.rtp_media_ends.specs.OpensAt.{ReceivesAt, SendsAt};
ghost use Rattle.rtp_media_ends.specs.declared.StreamParams.{StreamParams};
ghost use Rattle.rtp_media_runs.specs.Headline.{SendsTo, answers_of, units};
ghost use Rattle.rtp_media_runs.specs.Runs.{FollowsSchedule, Hears, IsSaneSchedule, IsTameSchedule};
ghost use Rattle.rtp_media_runs.specs.Runs.{IsTimelySchedule, canonical_of, prompt_answers};
ghost use Rattle.rtp_media_schedules.specs.InTime.{timed_answer};
ghost use Rattle.rtp_media_runs.specs.Schedules.{own_events, source_of};
ghost use Rattle.rtp_media_runs.specs.declared.schedule.Event.{Event};

use h26x_payload::codec_law;
use rtp_media_ends::openings_law;

/// After two ends have exchanged an offer and an answer text, each opens a stream exactly where the answer's row and
/// its own agree, and for every sane schedule of losses, reorderings, repeats, foreign bytes and polls the receiver's
/// units are a legal selection of `units`, a function of its own datagrams and polls alone, and under a tame schedule
/// they are exactly `units`.
///
/// The openings are `sends` and `receives`, the rest is `legal`, `alone` and `exact`. `units` are the canonical units,
/// which are a function only of the row, extension map, limits, first picture id, `for_browsers` and samples (clause
/// `units`). Under every sane schedule a unit that came whole isn't skipped, and comes at the latest when more units
/// came whole than are held back (`follows`); and as long as every unit comes in time, at every hold-back, each poll
/// returns the next unit if all its datagrams came (`prompt`), as under tame schedules (`timely`).
pub fn headline()
    ensures sends { (end : EndState) (mid : List ℕ) (ssrc pt : ℕ) →
        (refusal_of_open_sender end mid ssrc pt ≡ None) ↔ SendsAt end mid ssrc pt }
    ensures receives { (end : EndState) (mid : List ℕ) (ssrc pt : ℕ) →
        (refusal_of_open_receiver end mid ssrc pt ≡ None) ↔ ReceivesAt end mid ssrc pt }
    ensures units { (answer : List ℕ) (a b : EndState) (mid : List ℕ) (ssrc pt : ℕ) (params : StreamParams)
        (samples : List Sample) → SendsTo answer a b mid ssrc pt params samples →
        map whole_unit (canonical_of (new_sender a mid ssrc pt params) samples) ≡ units a mid pt params samples }
    ensures alone { (answer : List ℕ) (a b : EndState) (mid : List ℕ) (ssrc pt : ℕ) (params : StreamParams)
        (samples : List Sample) (holding : Holding) (schedule : List Event) →
        let receiver = new_receiver b mid ssrc pt holding in
        let sent = source_of (new_sender a mid ssrc pt params) samples in
        SendsTo answer a b mid ssrc pt params samples →
        answers_of a b mid ssrc pt params holding samples schedule
        ≡ heard (format_of receiver.row) (fresh holding) (own_events sent receiver schedule) }
    ensures legal { (answer : List ℕ) (a b : EndState) (mid : List ℕ) (ssrc pt : ℕ) (params : StreamParams)
        (samples : List Sample) (holding : Holding) (schedule : List Event) →
        let sender = new_sender a mid ssrc pt params in
        SendsTo answer a b mid ssrc pt params samples → IsSaneSchedule sender samples schedule →
        IsLegal (canonical_of sender samples) (answers_of a b mid ssrc pt params holding samples schedule) }
    ensures exact { (answer : List ℕ) (a b : EndState) (mid : List ℕ) (ssrc pt : ℕ) (params : StreamParams)
        (samples : List Sample) (holding : Holding) (schedule : List Event) →
        let answers = answers_of a b mid ssrc pt params holding samples schedule in
        SendsTo answer a b mid ssrc pt params samples →
        IsTameSchedule (new_sender a mid ssrc pt params) samples holding schedule answers →
        map timed_unit (handed_out answers) ≡ map Ok (units a mid pt params samples) }
    ensures follows { (answer : List ℕ) (a b : EndState) (mid : List ℕ) (ssrc pt : ℕ) (params : StreamParams)
        (samples : List Sample) (holding : Holding) (schedule : List Event) →
        let sender = new_sender a mid ssrc pt params in
        SendsTo answer a b mid ssrc pt params samples → IsSaneSchedule sender samples schedule →
        FollowsSchedule sender samples holding schedule
        (answers_of a b mid ssrc pt params holding samples schedule) }
    ensures prompt { (answer : List ℕ) (a b : EndState) (mid : List ℕ) (ssrc pt : ℕ) (params : StreamParams)
        (samples : List Sample) (holding : Holding) (schedule : List Event) →
        let sender = new_sender a mid ssrc pt params in
        SendsTo answer a b mid ssrc pt params samples → IsTimelySchedule sender samples holding schedule →
        map timed_answer (answers_of a b mid ssrc pt params holding samples schedule)
        ≡ prompt_answers sender samples schedule (units a mid pt params samples) }
    ensures timely { (answer : List ℕ) (a b : EndState) (mid : List ℕ) (ssrc pt : ℕ) (params : StreamParams)
        (samples : List Sample) (holding : Holding) (schedule : List Event) →
        let sender = new_sender a mid ssrc pt params in
        let answers = answers_of a b mid ssrc pt params holding samples schedule in
        SendsTo answer a b mid ssrc pt params samples → IsTameSchedule sender samples holding schedule answers →
        IsTimelySchedule sender samples holding schedule }
    // What `play` asks of its streams is met after both openings.
    ensures hears { (answer : List ℕ) (a b : EndState) (mid : List ℕ) (ssrc pt : ℕ) (params : StreamParams)
        (samples : List Sample) (holding : Holding) → SendsTo answer a b mid ssrc pt params samples →
        Hears (after_open_receiver b mid ssrc pt holding) (length b.streams) holding
        (new_sender a mid ssrc pt params) samples }
{
    codec_law();
    openings_law();
}

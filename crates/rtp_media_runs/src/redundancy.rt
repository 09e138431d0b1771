//! What holds of whole runs with redundancy.

ghost use Rattle.std.specs.Prelude.{◌≡◌, ℕ, List};
ghost use Rattle.rtp_media_streams.specs.Sending.{Sample, Sending};
ghost use Rattle.rtp_media_ends.specs.Ends.{EndState, receiver_at};
ghost use Rattle.rtp_media_ends.specs.FullArrival.{AreSound, IsFound};
ghost use Rattle.rtp_media_ends.specs.Transparency.{AreTwins, Receives};
ghost use Rattle.rtp_media_ends.specs.declared.StreamParams.{StreamParams};
ghost use Rattle.rtp_media_runs.specs.Schedules.{played, poll_answers, source_of};
ghost use Rattle.rtp_media_runs.specs.declared.schedule.Event.{Event};
ghost use Rattle.rtp_media_runs.specs.Hops.{Carries, Hop, answers_over};
ghost use Rattle.rtp_media_runs.specs.Redundancy.{AddsRedundancy, HasNoRepair, opened_with};

use h26x_payload::codec_law;

/// Redundancy is transparent over whole runs: the same samples, the same packet limit and the same
/// schedule (sane or not, but without repairs) give the same answers to all polls, including None,
/// with or without redundancy. This holds for any two such streams (`streams`), and so between two
/// ends that have exchanged texts (`ends`).
pub fn redundancy_law()
    ensures streams { (end : EndState) (rx : ℕ) (plain redundant : Sending) (samples : List Sample)
        (schedule : List Event) → let receiver = receiver_at end rx in
        AreTwins plain redundant → IsFound end rx receiver → Receives receiver plain → AreSound plain samples →
        HasNoRepair schedule →
        poll_answers (played (source_of redundant samples) rx end schedule)
        ≡ poll_answers (played (source_of plain samples) rx end schedule) }
    ensures ends { (hop : Hop) (plain redundant : StreamParams) (samples : List Sample) (schedule : List Event) →
        AddsRedundancy hop plain redundant → Carries (opened_with hop plain) samples → HasNoRepair schedule →
        answers_over (opened_with hop redundant) samples schedule
        ≡ answers_over (opened_with hop plain) samples schedule }
{
    codec_law();
}

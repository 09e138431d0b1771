//! What holds of streams that send on what came out of others.

ghost use Rattle.std.specs.Prelude.{◌≡◌, List, map};
ghost use Rattle.rtp_media_schedules.specs.Hearing.{handed_out};
ghost use Rattle.rtp_media_streams.specs.Sending.{Sample};
ghost use Rattle.rtp_media_runs.specs.declared.schedule.Event.{Event};
ghost use Rattle.rtp_media_runs.specs.Hops.{Carries, Hop, IsTame, SendsOn, answers_over, carried_again};
ghost use Rattle.rtp_media_runs.specs.Hops.{map_over, passed_on, units_over, unstamped};

use crate::again::again_law;
use crate::laws::headline;
use h26x_payload::codec_law;

/// The second hop: the units of a tame run, sent on as samples with their timestamps and header
/// extension values over a second stream opened alike, satisfy the headline's conditions on samples
/// (`carries`). Its canonical units are these units, with those of their values that are carried
/// (`units`), and under a tame schedule they come out unchanged, except for their send time, which
/// each hop rounds down again (`unchanged`). For H.264, H.265 and H.266 no NAL unit of the first
/// samples may be dropped for its size or end in a zero byte.
pub fn second_hop_law()
    ensures carries { (first second : Hop) (samples : List Sample) (schedule : List Event) →
        SendsOn first second samples schedule → Carries second (passed_on first samples schedule) }
    ensures units { (first second : Hop) (samples : List Sample) (schedule : List Event) →
        SendsOn first second samples schedule → units_over second (passed_on first samples schedule)
        ≡ map (carried_again (map_over first)) (units_over first samples) }
    ensures unchanged { (first second : Hop) (samples : List Sample) (schedule later : List Event) →
        let again = passed_on first samples schedule in
        SendsOn first second samples schedule → IsTame second again later →
        map unstamped (handed_out (answers_over second again later))
        ≡ map unstamped (handed_out (answers_over first samples schedule)) }
{
    again_law();
    codec_law();
    headline();
}

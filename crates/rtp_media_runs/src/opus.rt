//! The second hop with Opus.

ghost use Rattle.std.specs.Prelude.{◌≡◌, [], ◌∷◌, map, Ok};
ghost use Rattle.rtp_media_schedules.specs.Hearing.{handed_out};
ghost use Rattle.rtp_media_streams.specs.Sending.{Sample};
ghost use Rattle.rtp_media_runs.specs.Hops.{Hop, IsAlike, IsTame, SendsOn, answers_over, passed_on};
ghost use Rattle.rtp_media_runs.specs.OpusHops.{CarriesOpus, FitsPacket, bytes_out, one_arrival};

use crate::laws::headline;
use crate::second_hop::second_hop_law;
use h26x_payload::codec_law;

/// An Opus sample that fits one packet goes over two streams opened alike, and its bytes come out
/// of the second (`bytes`): at each, its datagram arrives and the stream is polled twice. The
/// premises of the second hop hold (`sent_on`), and the second schedule is tame (`tame`).
pub fn opus_over_two_hops()
    ensures sent_on { (first second : Hop) (sample : Sample) → CarriesOpus first → CarriesOpus second →
        IsAlike first second → FitsPacket first sample → SendsOn first second (sample ∷ []) one_arrival }
    ensures tame { (first second : Hop) (sample : Sample) → CarriesOpus first → CarriesOpus second →
        IsAlike first second → FitsPacket first sample →
        IsTame second (passed_on first (sample ∷ []) one_arrival) one_arrival }
    ensures bytes { (first second : Hop) (sample : Sample) → CarriesOpus first → CarriesOpus second →
        IsAlike first second → FitsPacket first sample →
        map bytes_out (handed_out (answers_over second (passed_on first (sample ∷ []) one_arrival) one_arrival))
        ≡ Ok sample.bytes ∷ [] }
{
    codec_law();
    headline();
    second_hop_law();
}

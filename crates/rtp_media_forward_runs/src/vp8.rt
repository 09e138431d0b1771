//! Two publishers of VP8 and a subscriber, with a forwarder between them.

ghost use Rattle.std.specs.Prelude.{◌≡◌, ◌%◌, List, [], ◌∷◌, true, length, map, Ok, Some, slice_index_or};
ghost use Rattle.rtp_media_schedules.specs.Hearing.{fresh, handed_out};
ghost use Rattle.rtp_media_schedules.specs.SentSamples.{timed_unit};
ghost use Rattle.rtp_media_stream_table.specs.Arrivals.{Own, arrival_at};
ghost use Rattle.rtp_media_streams.specs.Receiving.{taken_number};
ghost use Rattle.rtp_media_streams.specs.Sending.{Sample, datagram_of, datagrams_of};
ghost use Rattle.rtp_media_ends.specs.Ends.{after_open_receiver};
ghost use Rattle.rtp_media_runs.specs.Hops.{Hop, sender_over};
ghost use Rattle.rtp_media_runs.specs.Schedules.{played, poll_answers};
ghost use Rattle.rtp_media_forward.specs.Forwarding.{nothing_from};
ghost use Rattle.rtp_media_forward.specs.Relayed.{AreFrom};
ghost use Rattle.rtp_media_forward.specs.Steps.{IsRun};
ghost use Rattle.rtp_media_forward_runs.specs.ForwardedRuns.{HearsRelay};
ghost use Rattle.rtp_media_forward_runs.specs.Rooms.{Room, one_out, one_repair, other_out, parts_in, relay_in};
ghost use Rattle.rtp_media_forward_runs.specs.Rooms.{senders_in, steps_in, stream_in, time_over, units_in, values_from};
ghost use Rattle.rtp_media_forward_runs.specs.Steps.{datagrams_in};
ghost use Rattle.rtp_media_forward_runs.specs.Vp8Forwarded.{CarriesVp8, FitsAfterDescriptor, IsVp8Room, vp8_form};

use crate::over_steps::steps_over_hops_law;
use crate::published::published_law;
use h26x_payload::codec_law;

/// Two publishers send a frame of VP8 in one packet each to a forwarder, which takes their datagrams (`taken`) and
/// sends them on as those of one stream, with a switch between them (`run`, `left`). The second one is lost on its way
/// to the subscriber and repaired, and the subscriber hands out both frames (`units`). What the laws ask of a
/// subscriber holds (`hears`).
pub fn vp8_over_forwarder()
    ensures taken { (h : Hop) (x : Sample) → CarriesVp8 h → FitsAfterDescriptor h x →
        let e = after_open_receiver h.receiver h.mid h.ssrc h.pt h.holding in
        (arrival_at e.streams (slice_index_or (datagrams_of (sender_over h) (x ∷ [])) 0 [])
        ≡ Own (length h.receiver.streams) 0 (time_over h x) true (values_from h x) (16 ∷ x.bytes))
        × (taken_number (fresh h.holding) 0 ≡ Some 0) }
    ensures run { (r : Room) → IsVp8Room r → AreFrom (senders_in r) (parts_in r)
        × IsRun (senders_in r) 0 [] (nothing_from 0) (parts_in r) (steps_in r) }
    ensures left { (r : Room) → IsVp8Room r →
        let s = stream_in r in
        let left = datagrams_in s r.own (senders_in r) (nothing_from 0) (steps_in r) in
        ((relay_in r).datagrams ≡ left)
        × (left ≡ datagram_of s 0 (one_out vp8_form r) ∷ datagram_of s 1 (other_out vp8_form r) ∷ []) }
    ensures hears { (r : Room) → IsVp8Room r →
        let h = r.onward in
        HearsRelay (after_open_receiver h.receiver h.mid h.ssrc h.pt h.holding) (length h.receiver.streams) h.holding
        (stream_in r) r.own 0 (parts_in r) }
    ensures units { (r : Room) → IsVp8Room r →
        let h = r.onward in
        let e = after_open_receiver h.receiver h.mid h.ssrc h.pt h.holding in
        map timed_unit (handed_out (poll_answers (played (relay_in r) (length h.receiver.streams) e one_repair)))
        ≡ map Ok (units_in r) }
{
    codec_law();
    steps_over_hops_law();
    published_law();
}

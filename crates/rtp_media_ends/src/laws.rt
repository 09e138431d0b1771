//! What holds of every end.

ghost use Rattle.std.specs.Prelude.{◌≡◌, ◌↔◌, ℕ, List, map, None, Ok};
ghost use Rattle.rtp_media_streams.specs.Repairing.{repair};
ghost use Rattle.rtp_media_ends.specs.Repairs.{IsHeaded, TakesRepairs};
ghost use Rattle.rtp_media_schedules.specs.Hearing.{after_events};
ghost use Rattle.rtp_media_ends.specs.Connections.{CallsExchange};
ghost use Rattle.rtp_media_ends.specs.EndArrivals.{after_datagram, verdict_of};
ghost use Rattle.rtp_media_ends.specs.Ends.{EndState, receiver_at, refusal_of_open_receiver};
ghost use Rattle.rtp_media_ends.specs.Ends.{refusal_of_open_sender};
ghost use Rattle.rtp_media_ends.specs.OpensAt.{ReceivesAt, SendsAt};
ghost use Rattle.rtp_media_ends.specs.FullArrival.{IsFound, after_datagrams, sent_datagram};
ghost use Rattle.rtp_media_ends.specs.Transparency.{AreSent, AreTwins, Receives};
ghost use Rattle.rtp_media_streams.specs.Receiving.{Receiving};
ghost use Rattle.rtp_media_streams.specs.Rows.{format_of};
ghost use Rattle.rtp_media_streams.specs.Sending.{Sample, Sending};
ghost use Rattle.rtp_media_ends.specs.OwnEvents.{event_in, own_events};

use h26x_payload::codec_law;
use rtp_media_exchange::mutual_law;

/// What datagrams do to a receiving stream depends only on its own, those with its SSRC and payload
/// types, whatever else came in between.
pub fn isolation_law()
    ensures { (end : EndState) (datagrams : List (List ℕ)) (stream : ℕ) → let receiver = receiver_at end stream in
        IsFound end stream receiver →
        (receiver_at (after_datagrams end datagrams) stream).stream
        ≡ after_events (format_of receiver.row) receiver.stream (own_events receiver datagrams) }
{}

/// A retransmission counts as an arrival (RFC 4588 4): to the receiving stream it is the datagram
/// that it repeats, with that one's number and content (`arrives`); and `receive` answers and does
/// the same for both (`received`).
pub fn repairs_law()
    ensures arrives { (receiver : Receiving) (sender : Sending) (datagram bytes : List ℕ) →
        TakesRepairs receiver sender → IsHeaded datagram → repair sender datagram ≡ Ok bytes →
        event_in receiver bytes ≡ event_in receiver datagram }
    ensures received { (end : EndState) (stream : ℕ) (sender : Sending) (datagram bytes : List ℕ) →
        let receiver = receiver_at end stream in
        IsFound end stream receiver → TakesRepairs receiver sender → IsHeaded datagram →
        repair sender datagram ≡ Ok bytes →
        (verdict_of end bytes ≡ verdict_of end datagram) × (after_datagram end bytes ≡ after_datagram end datagram) }
{}

/// Redundancy is transparent: whichever datagrams of a list of samples arrive, in whatever order,
/// streams with and without redundancy give a receiving stream the same.
pub fn transparency_law()
    ensures { (plain redundant : Sending) (receiver : Receiving) (samples : List Sample) (numbers : List ℕ) →
        AreTwins plain redundant → Receives receiver plain → AreSent plain samples numbers →
        own_events receiver (map (sent_datagram redundant samples) numbers)
        ≡ own_events receiver (map (sent_datagram plain samples) numbers) }
{
    codec_law();
}

/// Opening is not refused if and only if the end may open the stream: the section is agreed; it has
/// a row with the payload type, and the end's own row agrees with it; media flows this way; its
/// sender names the SSRC in it; and no such stream is open.
pub fn openings_law()
    ensures sends { (end : EndState) (mid : List ℕ) (ssrc pt : ℕ) →
        (refusal_of_open_sender end mid ssrc pt ≡ None) ↔ SendsAt end mid ssrc pt }
    ensures receives { (end : EndState) (mid : List ℕ) (ssrc pt : ℕ) →
        (refusal_of_open_receiver end mid ssrc pt ≡ None) ↔ ReceivesAt end mid ssrc pt }
{}

/// Two ends on two machines have exchanged texts, which is what the headline asks for first, once one offered, the
/// other answered that text, and the first accepted the answer: from what the three calls say, as [`connect`] says it
/// of its own.
///
/// [`connect`]: crate::connect
pub fn exchanged_law()
    ensures { CallsExchange }
{
    mutual_law();
}

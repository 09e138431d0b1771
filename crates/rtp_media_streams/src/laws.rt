//! What holds of the datagrams of samples.

ghost use Rattle.std.specs.Prelude.{◌≡◌, ◌≢◌, ◌+◌, ◌≤◌, ◌<◌, ℕ, Bool, List, length, All, None, Some, ◌^◌};
ghost use Rattle.payload_core_base.specs.Law.{AreWithin};
ghost use Rattle.payload_core_base.specs.Outgoing.{Outgoing};
ghost use Rattle.rtp_wire.specs.Carried.{AreValues};
ghost use Rattle.rtp_wire.specs.Header.{header_in, image, payload_in};
ghost use Rattle.rtp_wire.specs.Time.{Time};
ghost use Rattle.rtp_wire.specs.declared.values.ExtensionValues.{ExtensionValues};
ghost use Rattle.payload_core_audio.specs.RedHistory.{AreDistances, Redundancy};
ghost use Rattle.payload_core_audio.specs.RedWrapping.{IsWrap};
ghost use Rattle.rtp_media_streams.specs.Redundant.{behind_older, unwrapped, wrapped};
ghost use Rattle.rtp_media_streams.specs.declared.types.PayloadTypes.{PayloadTypes};
ghost use Rattle.rtp_media_streams.specs.Sending.{Sending, IsTyped, Sample, after_sample, header_of, datagram_of};
ghost use Rattle.rtp_media_streams.specs.Sending.{datagrams_of, datagrams_from, packet_limit, payloads_of_samples};
ghost use Rattle.rtp_media_streams.specs.Sending.{sent, sent_datagrams, sent_payloads, refusal_of_sample};
ghost use Rattle.rtp_media_streams.specs.Sending.{wire_payloads};

/// Samples pushed in order give all their payloads with consecutive numbers; with redundancy each
/// comes with older ones, also from earlier samples. If no packet of an accepted sample exceeds its
/// limit (the codec law says so for well-formed ones), no payload exceeds `mtu` and no datagram
/// exceeds the limit. A datagram reads, with the stream's map, as its header's wire image, with
/// those of the sample's values that the map has an id for, followed by the payload.
pub fn datagrams_laws()
    ensures consecutive { (s : Sending) (samples : List Sample) →
        datagrams_of s samples ≡ datagrams_from s s.next (wire_payloads s (payloads_of_samples s samples)) }
    ensures within { (s : Sending) (time : Time) (values : ExtensionValues) (bytes : List ℕ) →
        refusal_of_sample s time values bytes ≡ None → AreWithin (packet_limit s) (sent s bytes).packets →
        All (λ d. length d ≤ s.limit) (sent_datagrams s time values bytes) }
    ensures payloads { (s : Sending) (time : Time) (values : ExtensionValues) (bytes : List ℕ) →
        AreWithin (packet_limit s) (sent s bytes).packets →
        All (λ o. length o.payload ≤ s.mtu) (wire_payloads s (sent_payloads s time values bytes)) }
    ensures typed { (s : Sending) (time : Time) (values : ExtensionValues) (bytes : List ℕ) → IsTyped s →
        IsTyped (after_sample s time values bytes) }
    ensures reads { (s : Sending) (number : ℕ) (o : Outgoing) → s.wire_type < 128 → s.ssrc < 2 ^ 32 → o.time < 2 ^ 32
        → AreValues o.values →
        header_in s.map (datagram_of s number o) ≡ Some (image s.map (header_of s number o.marker o.time o.values)) }
    ensures payload { (s : Sending) (number : ℕ) (o : Outgoing) →
        payload_in (image s.map (header_of s number o.marker o.time o.values)) (datagram_of s number o) ≡ o.payload }
{}

/// What is sent for a payload is the payload after the longest prefix of the older ones that the
/// budget allows, as a RED sender wraps it; and if it is at least one byte shorter than the budget,
/// a stream with its payload types unwraps exactly it (RFC 2198).
pub fn redundancy_laws()
    ensures wraps { (pt budget : ℕ) (r : Redundancy) (o : Outgoing) → AreDistances r.distances →
        IsWrap r pt o.payload o.time budget (wrapped pt budget r o) }
    ensures within { (pt budget : ℕ) (r : Redundancy) (o : Outgoing) → length o.payload + 1 ≤ budget
        → length (wrapped pt budget r o) ≤ budget }
    ensures brings { (types : PayloadTypes) (wire budget : ℕ) (r : Redundancy) (o : Outgoing) → types.pt < 128
        → wire ≢ types.pt → AreDistances r.distances →
        length o.payload + 1 ≤ budget → unwrapped types wire (wrapped types.pt budget r o) ≡ Some o.payload }
{}

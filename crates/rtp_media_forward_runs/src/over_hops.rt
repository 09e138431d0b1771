//! What holds of every run over two hops whose middle sends packets on.

ghost use Rattle.std.specs.Prelude.{◌≡◌, ℕ, ◌+◌, ◌^◌, ◌≤◌, List, [], ◌∷◌, ◌++◌, map, None, Ok};
ghost use Rattle.rtp_wire.specs.declared.values.ExtensionValues.{ExtensionValues};
ghost use Rattle.rtp_media_schedules.specs.Hearing.{Content, EndsSilent, fresh, handed_out, heard};
ghost use Rattle.payload_core_buffer.specs.Buffered.{Holding};
ghost use Rattle.rtp_media_schedules.specs.Legal.{IsLegal};
ghost use Rattle.rtp_media_schedules.specs.Orders.{IsSane, IsTame, first_size};
ghost use Rattle.rtp_media_schedules.specs.SentSamples.{timed_unit};
ghost use Rattle.rtp_media_schedules.specs.Samples.{canonical_units, datagrams, frame_sizes, whole_unit};
ghost use Rattle.rtp_media_schedules.specs.Sending.{numbered};
ghost use Rattle.rtp_media_schedules.specs.Turns.{Arrive, Ask, Turn};
ghost use Rattle.rtp_media_streams.specs.Receiving.{Receiving};
ghost use Rattle.rtp_media_streams.specs.Rows.{format_of};
ghost use Rattle.rtp_media_streams.specs.Sending.{Sending};
ghost use Rattle.rtp_media_forward.specs.Forwarding.{Forwarding};
ghost use Rattle.rtp_media_forward.specs.Relayed.{AreFrom, AreRead, Part, count_of, pieces_from, relayed};
ghost use Rattle.rtp_media_forward.specs.Relaying.{AreBetween, AreWithin, Packet, numbers_of};
ghost use Rattle.rtp_media_forward_runs.specs.FirstHop.{lows_of, new_among, numbers_taken};
ghost use Rattle.rtp_media_forward_runs.specs.Virtual.{numbered_datagrams, virtual_datagrams};
ghost use Rattle.rtp_media_forward_runs.specs.Hops.{AreHeardAs, AreSendable, IsPlain, datagrams_on, heard_of};
ghost use Rattle.rtp_media_forward_runs.specs.Hops.{numbered_turns, receiver_of, values_by};

use rtp_media_forward::{forwarding_laws, relayed_laws};

/// Datagrams that `send_packet` makes of packets as a forwarder places them are, to the stream that receives them,
/// those of one sender, byte for byte (`bytes`), which sends the samples of all parts with their times shifted and the
/// values carried (`heard`); and so are those that were sent on between one switch and the next, one after the other
/// (`joined`). Under every schedule of them that is sane by their numbers, some lost, repeated or out of order on
/// either hop, the receiver's answers are a legal selection of the parts' units (`legal`), and under a tame one exactly
/// these (`exact`).
pub fn hops_laws()
    ensures heard { (s : Sending) (holding : Holding) (own : ExtensionValues → ExtensionValues)
        (senders : ℕ → ℕ → Content) (first : ℕ) (before parts later : List Part) (f : Forwarding)
        (came : List Packet) →
        IsPlain s → f.pieces ≡ pieces_from (first + count_of before) parts
        → first + count_of before + count_of parts ≤ 2 ^ 62 → AreFrom senders parts → AreWithin parts came
        → AreSendable own senders came →
        AreHeardAs (receiver_of holding s)
        (numbered first (datagrams (relayed (values_by s own) (before ++ parts ++ later))))
        (datagrams_on s own senders f came) (numbers_of senders f came) }
    ensures bytes { (s : Sending) (own : ExtensionValues → ExtensionValues) (senders : ℕ → ℕ → Content) (first : ℕ)
        (before parts later : List Part) (f : Forwarding) (came : List Packet) →
        f.pieces ≡ pieces_from (first + count_of before) parts
        → first + count_of before + count_of parts ≤ 2 ^ 62 → AreFrom senders parts → AreWithin parts came →
        datagrams_on s own senders f came
        ≡ numbered_datagrams first (virtual_datagrams s own first (before ++ parts ++ later))
        (numbers_of senders f came) }
    ensures joined { (r : Receiving) (sender : ℕ → Content) (ds es : List (List ℕ)) (ys zs : List ℕ) →
        AreHeardAs r sender ds ys → AreHeardAs r sender es zs → AreHeardAs r sender (ds ++ es) (ys ++ zs) }
    ensures legal { (s : Sending) (r : Receiving) (holding : Holding) (own : ExtensionValues → ExtensionValues)
        (first : ℕ) (parts : List Part) (ds : List (List ℕ)) (ys : List ℕ) (turns : List Turn) →
        let samples = relayed (values_by s own) parts in
        AreRead (format_of s.row) parts → first + count_of parts ≤ 2 ^ 62
        → AreHeardAs r (numbered first (datagrams samples)) ds ys
        → IsSane first (count_of parts) [] (numbered_turns ys turns) →
        IsLegal (canonical_units first samples) (heard (format_of s.row) (fresh holding) (heard_of r ds turns)) }
    ensures exact { (s : Sending) (r : Receiving) (holding : Holding) (own : ExtensionValues → ExtensionValues)
        (first : ℕ) (parts : List Part) (ds : List (List ℕ)) (ys : List ℕ) (turns : List Turn) →
        let samples = relayed (values_by s own) parts in
        let sizes = frame_sizes (format_of s.row) samples in
        let answers = heard (format_of s.row) (fresh holding) (heard_of r ds (turns ++ Ask ∷ [])) in
        AreRead (format_of s.row) parts → first + count_of parts ≤ 2 ^ 62
        → AreHeardAs r (numbered first (datagrams samples)) ds ys
        → IsTame first (count_of parts) holding (first_size sizes) [] first sizes
        (numbered_turns ys (turns ++ Ask ∷ [])) → EndsSilent answers →
        map timed_unit (handed_out answers) ≡ map (λ c. Ok (whole_unit c)) (canonical_units first samples) }
{
    forwarding_laws();
    relayed_laws();
}

/// Under every sane schedule a stream takes just the true numbers of the datagrams that are new to its window, each one
/// that its sender sent.
pub fn first_hop_law()
    ensures taken { (holding : Holding) (first count : ℕ) (xs : List ℕ) → first + count ≤ 2 ^ 62
        → IsSane first count [] (map Arrive xs) →
        numbers_taken (fresh holding) (lows_of xs) ≡ new_among None xs }
    ensures sent { (first count : ℕ) (xs : List ℕ) → IsSane first count [] (map Arrive xs) →
        AreBetween first (first + count) (new_among None xs) }
{}

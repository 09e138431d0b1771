//! What holds of streams that are sent on packet by packet.

ghost use Rattle.std.specs.Prelude.{◌≡◌, ℕ, ◌+◌, ◌^◌, ◌<◌, ◌≤◌, ◌⊎◌, List, [], ◌∷◌, ◌++◌, length, map, Ok, Some};
ghost use Rattle.std.specs.Prelude.{drop, false, true};
ghost use Rattle.payload_core_base.specs.Format.{Format};
ghost use Rattle.rtp_wire.specs.declared.values.ExtensionValues.{ExtensionValues};
ghost use Rattle.rtp_media_schedules.specs.Hearing.{Content, EndsSilent, fresh, handed_out, heard};
ghost use Rattle.payload_core_buffer.specs.Buffered.{Holding};
ghost use Rattle.rtp_media_schedules.specs.Legal.{IsLegal};
ghost use Rattle.rtp_media_schedules.specs.Orders.{IsSane, IsTame, first_size};
ghost use Rattle.rtp_media_schedules.specs.SentSamples.{timed_unit};
ghost use Rattle.rtp_media_schedules.specs.Samples.{canonical_units, datagrams, frame_sizes, whole_unit};
ghost use Rattle.rtp_media_schedules.specs.Sending.{numbered};
ghost use Rattle.rtp_media_schedules.specs.Bare.{AreAside, bare_answer};
ghost use Rattle.rtp_media_schedules.specs.Turns.{Ask, Sender, Turn, event_of};
ghost use Rattle.rtp_media_forward.specs.Forwarding.{Forwarding, ended, is_in, kept, number_in, passed_empty};
ghost use Rattle.rtp_media_forward.specs.Forwarding.{placed_in, shift_to, shifted, skipped, start_of, switched};
ghost use Rattle.rtp_media_forward.specs.declared.forwarder.Piece.{Piece};
ghost use Rattle.rtp_media_forward.specs.Relayed.{AreFrom, AreRead, Part, count_in, count_of, pieces_from, relayed};
ghost use Rattle.rtp_media_forward.specs.Relaying.{AreBetween, AreWithin, Packet, after_all, datagrams_at};
ghost use Rattle.rtp_media_forward.specs.Relaying.{bare_senders, bare_sent, no_values, numbers_of, place_of};
ghost use Rattle.rtp_media_forward.specs.Relaying.{sent_on};
ghost use Rattle.rtp_media_forward.specs.declared.forwarder.Placed.{Placed};

/// Packets that are sent on are datagrams of one stream, which sends the parts' samples with other times and values,
/// whatever parts come later. Those that come are sent on as that stream's, each under its own number there, in
/// whatever order they come and however often, late ones of earlier parts too (`sends`, `between`); values aside even
/// if each datagram of a sample has its own values of header extensions (`aside`). No two datagrams get one number
/// (`apart`). When the last datagram of the last part was sent on (`next`), or the forwarder knows where the part ends
/// (`ends`), the next number is the one after it, and the next part begins there: of another source (`switches`), of
/// the same one (`skips`), or of the same one after a packet that carries nothing (`passes`). It begins right there if
/// the last packet ends its frame (`none_free`), and otherwise one number is left free (`one_free`). If several pieces
/// have a packet, the newest one counts (`newest`). Of too many pieces the oldest is forgotten (`keeps`), and at least
/// 64 are kept (`keeps_many`).
pub fn forwarding_laws()
    ensures sends { (values : ExtensionValues → ExtensionValues) (senders : ℕ → ℕ → Content) (first : ℕ)
        (before parts later : List Part) (f : Forwarding) (came : List Packet) →
        f.pieces ≡ pieces_from (first + count_of before) parts → first + count_of before + count_of parts ≤ 2 ^ 62
        → AreFrom senders parts → AreWithin parts came →
        sent_on values senders f came
        ≡ datagrams_at (numbered first (datagrams (relayed values (before ++ parts ++ later))))
        (numbers_of senders f came) }
    ensures aside { (values : ExtensionValues → ExtensionValues) (senders : ℕ → ℕ → Content) (first : ℕ)
        (before parts later : List Part) (f : Forwarding) (came : List Packet) →
        f.pieces ≡ pieces_from (first + count_of before) parts → first + count_of before + count_of parts ≤ 2 ^ 62
        → AreFrom (bare_senders senders) parts → AreWithin parts came →
        map bare_sent (sent_on values senders f came)
        ≡ datagrams_at (numbered first (datagrams (relayed no_values (before ++ parts ++ later))))
        (numbers_of senders f came) }
    ensures between { (senders : ℕ → ℕ → Content) (out : ℕ) (parts : List Part) (f : Forwarding)
        (came : List Packet) →
        f.pieces ≡ pieces_from out parts → out + count_of parts ≤ 2 ^ 62 → AreFrom senders parts
        → AreWithin parts came → AreBetween out (out + count_of parts) (numbers_of senders f came) }
    ensures apart { (senders : ℕ → ℕ → Content) (out : ℕ) (parts : List Part) (f : Forwarding) (p q : Packet)
        (a b : Placed) →
        f.pieces ≡ pieces_from out parts → out + count_of parts ≤ 2 ^ 62 → AreFrom senders parts
        → AreWithin parts (p ∷ q ∷ []) → place_of senders f p ≡ Some a → place_of senders f q ≡ Some b
        → a.number ≡ b.number → (p.source ≡ q.source) × (p.number ≡ q.number) }
    ensures next { (senders : ℕ → ℕ → Content) (out : ℕ) (parts : List Part) (f : Forwarding) (last : Packet)
        (at : Placed) (xs ys : List Packet) →
        f.pieces ≡ pieces_from out parts → out + count_of parts ≤ 2 ^ 62 → AreFrom senders parts
        → AreWithin parts (xs ++ last ∷ ys) → f.next ≤ out + count_of parts → place_of senders f last ≡ Some at
        → at.number + 1 ≡ out + count_of parts →
        (after_all senders f (xs ++ last ∷ ys)).next ≡ out + count_of parts }
    ensures ends { (out from : ℕ) (parts : List Part) (p : Part) (f : Forwarding) →
        f.pieces ≡ pieces_from out (parts ++ p ∷ []) → out + count_of (parts ++ p ∷ []) < 2 ^ 62
        → f.next ≤ out + count_of (parts ++ p ∷ []) → from ≡ p.first + count_in p →
        ((ended f from).next ≡ out + count_of (parts ++ p ∷ []))
        × (start_of (ended f from) ≡ out + count_of (parts ++ p ∷ [])) }
    ensures stays { (senders : ℕ → ℕ → Content) (f : Forwarding) (came : List Packet) →
        (after_all senders f came).pieces ≡ f.pieces }
    ensures switches { (out number time at : ℕ) (parts : List Part) (q : Part) (f : Forwarding) →
        f.pieces ≡ pieces_from out parts → start_of f ≡ out + count_of parts → q.first ≡ number
        → q.shift ≡ shift_to time at →
        (switched f q.source number time at).pieces ≡ kept (pieces_from out (parts ++ q ∷ [])) }
    ensures skips { (out number : ℕ) (parts : List Part) (p q : Part) (f : Forwarding) →
        f.pieces ≡ pieces_from out (parts ++ p ∷ []) → start_of f ≡ out + count_of (parts ++ p ∷ [])
        → q.first ≡ number → q.source ≡ p.source → q.shift ≡ p.shift →
        (skipped f number).pieces ≡ kept (pieces_from out (parts ++ p ∷ q ∷ [])) }
    ensures passes { (out number : ℕ) (parts : List Part) (p q : Part) (f : Forwarding) →
        f.pieces ≡ pieces_from out (parts ++ p ∷ []) → f.next ≡ out + count_of (parts ++ p ∷ [])
        → out + count_of (parts ++ p ∷ []) < 2 ^ 62 → number ≡ p.first + count_in p → number < 2 ^ 62
        → q.first ≡ number + 1 → q.source ≡ p.source → q.shift ≡ p.shift →
        ((passed_empty f p.source number).pieces ≡ kept (pieces_from out (parts ++ p ∷ q ∷ [])))
        × ((passed_empty f p.source number).next ≡ f.next) }
    ensures keeps { (out : ℕ) (p : Part) (parts : List Part) →
        (kept (pieces_from out (p ∷ parts)) ≡ pieces_from out (p ∷ parts))
        ⊎ (kept (pieces_from out (p ∷ parts)) ≡ pieces_from (out + count_in p) parts) }
    ensures keeps_many { (ps : List Piece) →
        (kept ps ≡ ps) ⊎ ((kept ps ≡ drop 1 ps) × (64 ≤ length (kept ps))) }
    ensures newest { (ps : List Piece) (p : Piece) (source number time : ℕ) → is_in p (2 ^ 62) source number ≡ true →
        placed_in (ps ++ p ∷ []) source number time
        ≡ Some (record { number = number_in p number; time = shifted p.shift time }) }
    ensures one_free { (f : Forwarding) → f.whole ≡ false → f.next < 2 ^ 62 → start_of f ≡ f.next + 1 }
    ensures none_free { (f : Forwarding) → f.whole ≡ true → start_of f ≡ f.next }
{}

/// A receiver of what is sent on: under every sane schedule it answers a legal selection of the parts' units (`legal`),
/// and under a tame one exactly these (`exact`), with the times and values under which they are sent on. The same holds
/// values aside if each datagram has its own values of header extensions (`legal_aside`, `exact_aside`). No frame is
/// put together between the sources and it, and each source may be of its own encoder.
pub fn relayed_laws()
    ensures legal { (format : Format) (holding : Holding) (first : ℕ) (values : ExtensionValues → ExtensionValues)
        (parts : List Part) (turns : List Turn) →
        let samples = relayed values parts in
        let events = map (event_of (numbered first (datagrams samples))) turns in
        AreRead format parts → first + count_of parts ≤ 2 ^ 62 → IsSane first (count_of parts) [] turns →
        IsLegal (canonical_units first samples) (heard format (fresh holding) events) }
    ensures exact { (format : Format) (holding : Holding) (first : ℕ) (values : ExtensionValues → ExtensionValues)
        (parts : List Part) (turns : List Turn) →
        let samples = relayed values parts in
        let events = map (event_of (numbered first (datagrams samples))) (turns ++ Ask ∷ []) in
        let sizes = frame_sizes format samples in
        AreRead format parts → first + count_of parts ≤ 2 ^ 62 →
        IsTame first (count_of parts) holding (first_size sizes) [] first sizes (turns ++ Ask ∷ []) →
        EndsSilent (heard format (fresh holding) events) →
        map timed_unit (handed_out (heard format (fresh holding) events))
        ≡ map (λ c. Ok (whole_unit c)) (canonical_units first samples) }
    ensures legal_aside { (format : Format) (holding : Holding) (first : ℕ) (parts : List Part) (sender : Sender)
        (turns : List Turn) →
        let samples = relayed no_values parts in
        AreAside first (count_of parts) sender (numbered first (datagrams samples)) → AreRead format parts
        → first + count_of parts ≤ 2 ^ 62 → IsSane first (count_of parts) [] turns →
        IsLegal (canonical_units first samples)
        (map bare_answer (heard format (fresh holding) (map (event_of sender) turns))) }
    ensures exact_aside { (format : Format) (holding : Holding) (first : ℕ) (parts : List Part) (sender : Sender)
        (turns : List Turn) →
        let samples = relayed no_values parts in
        let answers = heard format (fresh holding) (map (event_of sender) (turns ++ Ask ∷ [])) in
        let sizes = frame_sizes format samples in
        AreAside first (count_of parts) sender (numbered first (datagrams samples)) → AreRead format parts
        → first + count_of parts ≤ 2 ^ 62
        → IsTame first (count_of parts) holding (first_size sizes) [] first sizes (turns ++ Ask ∷ [])
        → EndsSilent answers →
        map timed_unit (handed_out (map bare_answer answers))
        ≡ map (λ c. Ok (whole_unit c)) (canonical_units first samples) }
{}

//! What holds of every run.

ghost use Rattle.std.specs.Prelude.{◌≡◌, ℕ, ◌+◌, ◌^◌, ◌≤◌, List, [], ◌∷◌, ◌++◌, length, map, replicate, suc, Ok};
ghost use Rattle.std.specs.Prelude.{◌≢◌, ◌<◌, None};
ghost use Rattle.payload_core_base.specs.Format.{Format};
ghost use Rattle.payload_core_buffer.specs.Buffered.{Holding};
ghost use Rattle.payload_core_buffer.specs.Frames.{complete_frames};
ghost use Rattle.rtp_media_schedules.specs.Turns.{Sender, Turn, AreGoodArrivals, Arrive, Ask, event_of};
ghost use Rattle.rtp_media_schedules.specs.SentSamples.{timed_unit};
ghost use Rattle.payload_core_buffer.specs.Steps.{Answer};
ghost use Rattle.rtp_media_schedules.specs.Hearing.{after_events, EndsSilent, fresh, handed_out, heard, Poll};
ghost use Rattle.rtp_media_schedules.specs.Hearing.{Stream, poll_answer, polled};
ghost use Rattle.rtp_media_schedules.specs.Drains.{HeldTurn, heard_at, holding_back, turn_at, turn_of};
ghost use Rattle.rtp_media_schedules.specs.Legal.{IsLegal, IsSelection};
ghost use Rattle.rtp_media_schedules.specs.Orders.{IsSane, IsTame, first_size};
ghost use Rattle.rtp_media_schedules.specs.Samples.{AreSentAs, SentSample, canonical_units, datagrams, frame_sizes};
ghost use Rattle.rtp_media_schedules.specs.Samples.{packets_of, whole_unit};
ghost use Rattle.rtp_media_schedules.specs.TrueNumbers.{AreTrueNumbers, arrived};
ghost use Rattle.rtp_media_schedules.specs.Sending.{Canonical, numbered};

/// Under every sane schedule the answers are a legal selection of the canonical units, for every format.
pub fn legal_under_sane_schedule()
    ensures { (format : Format) (holding : Holding) (first : ℕ) (samples : List SentSample) (turns : List Turn) →
        let events = map (event_of (numbered first (datagrams samples))) turns in
        AreSentAs format samples → first + length (packets_of samples) ≤ 2 ^ 62
        → IsSane first (length (packets_of samples)) [] turns →
        IsLegal (canonical_units first samples) (heard format (fresh holding) events) }
{}

/// The same if each poll has its own hold-back (a drain: none; otherwise as before): polls and
/// drains in any order answer a legal selection. If every poll has the stream's own hold-back, they
/// are its polls.
pub fn legal_with_drains()
    ensures legal { (format : Format) (holding : Holding) (first : ℕ) (samples : List SentSample)
        (turns : List HeldTurn) →
        AreSentAs format samples → first + length (packets_of samples) ≤ 2 ^ 62
        → IsSane first (length (packets_of samples)) [] (map turn_of turns) →
        IsLegal (canonical_units first samples)
        (heard_at format (numbered first (datagrams samples)) (fresh holding) turns) }
    ensures polls { (format : Format) (sender : Sender) (s : Stream) (turns : List Turn) →
        heard_at format sender s (map (turn_at s.holding.hold_back) turns)
        ≡ heard format s (map (event_of sender) turns) }
{}

/// A legal selection has strictly increasing indices, one for each unit handed out, such that the
/// unit is the canonical unit with that index, or a suffix of its parts; and no fault is returned.
pub fn selections_have_places()
    ensures { (units : List Canonical) (answers : List Answer) → IsLegal units answers → IsSelection units answers }
{}

/// Under a tame schedule that ends by a poll that returns None the answers are exactly the canonical units.
pub fn exact_under_tame_schedule()
    ensures { (format : Format) (holding : Holding) (first : ℕ) (samples : List SentSample) (turns : List Turn) →
        let events = map (event_of (numbered first (datagrams samples))) (turns ++ Ask ∷ []) in
        let sizes = frame_sizes format samples in
        AreSentAs format samples → first + length (packets_of samples) ≤ 2 ^ 62 →
        IsTame first (length (packets_of samples)) holding (first_size sizes) [] first sizes (turns ++ Ask ∷ []) →
        EndsSilent (heard format (fresh holding) events) →
        map timed_unit (handed_out (heard format (fresh holding) events))
        ≡ map (λ c. Ok (whole_unit c)) (canonical_units first samples) }
{}

/// If all datagrams come, no more than may be held, each at least once and the first time before
/// any whose number is 1,024 or more above it, then polling until None gives exactly the canonical
/// units, whatever the hold-back.
pub fn exact_after_full_arrival()
    ensures { (format : Format) (holding : Holding) (first polls : ℕ) (samples : List SentSample) (arrivals : List ℕ) →
        let events = map (event_of (numbered first (datagrams samples)))
        (map Arrive arrivals ++ replicate (suc polls) Ask) in
        AreSentAs format samples → first + length (packets_of samples) ≤ 2 ^ 62 →
        length (packets_of samples) ≤ holding.held →
        AreGoodArrivals first (length (packets_of samples)) [] arrivals →
        EndsSilent (heard format (fresh holding) events) →
        map timed_unit (handed_out (heard format (fresh holding) events))
        ≡ map (λ c. Ok (whole_unit c)) (canonical_units first samples) }
{}

/// Under every sane schedule the window matches what came, every held packet is the sender's with
/// that number, and the low bits of the next arrival stand for its number.
pub fn true_numbers()
    ensures { (format : Format) (sender : Sender) (holding : Holding) (first count : ℕ) (turns : List Turn) →
        first + count ≤ 2 ^ 62 → IsSane first count [] turns →
        AreTrueNumbers sender first count (arrived [] turns)
        (after_events format (fresh holding) (map (event_of sender) turns)) }
{}

/// Polling ends: None is returned after at most as many polls as packets are held.
pub fn polls_come_to_an_end()
    ensures { (format : Format) (s : Stream) → EndsSilent (heard format s (replicate (suc (length s.held)) Poll)) }
{}

/// A poll that returns a unit or a fault leaves fewer packets held, and a drain returns None only if no frame is
/// complete.
pub fn poll_laws()
    ensures fewer { (format : Format) (s : Stream) → poll_answer format s ≢ Ok None
        → length (polled format s).held < length s.held }
    ensures none { (format : Format) (s : Stream) → poll_answer format (holding_back 0 s) ≡ Ok None
        → complete_frames format s.held ≡ [] }
{}

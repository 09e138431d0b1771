//! What holds whatever the values of header extensions are.

ghost use Rattle.std.specs.Prelude.{◌≡◌, ℕ, ◌+◌, ◌^◌, ◌≤◌, List, [], ◌∷◌, ◌++◌, length, map, Ok};
ghost use Rattle.payload_core_base.specs.Format.{Format};
ghost use Rattle.payload_core_buffer.specs.Buffered.{Holding};
ghost use Rattle.rtp_media_schedules.specs.Bare.{AreAside, bare_answer, bare_event, bare_stream};
ghost use Rattle.rtp_media_schedules.specs.Hearing.{EndsSilent, Event, Stream, fresh, handed_out, heard};
ghost use Rattle.rtp_media_schedules.specs.Legal.{IsLegal};
ghost use Rattle.rtp_media_schedules.specs.Orders.{IsSane, IsTame, first_size};
ghost use Rattle.rtp_media_schedules.specs.Samples.{AreSentAs, SentSample, canonical_units, datagrams, frame_sizes};
ghost use Rattle.rtp_media_schedules.specs.Samples.{packets_of, whole_unit};
ghost use Rattle.rtp_media_schedules.specs.Sending.{numbered};
ghost use Rattle.rtp_media_schedules.specs.SentSamples.{timed_unit};
ghost use Rattle.rtp_media_schedules.specs.Turns.{Ask, Sender, Turn, event_of};

/// A stream decides nothing by the values of header extensions: values aside, it answers what it would answer without
/// them (`same`). So a sender whose datagrams have values of their own each, as numbers for the whole transport and
/// times of sending, is answered as one without: a legal selection of its samples' units (`legal`), under a tame
/// schedule exactly these (`exact`), values aside.
pub fn bare_laws()
    ensures same { (format : Format) (s : Stream) (events : List Event) →
        map bare_answer (heard format s events) ≡ heard format (bare_stream s) (map bare_event events) }
    ensures legal { (format : Format) (holding : Holding) (first : ℕ) (samples : List SentSample) (sender : Sender)
        (turns : List Turn) →
        let events = map (event_of sender) turns in
        AreAside first (length (packets_of samples)) sender (numbered first (datagrams samples)) →
        AreSentAs format samples → first + length (packets_of samples) ≤ 2 ^ 62
        → IsSane first (length (packets_of samples)) [] turns →
        IsLegal (canonical_units first samples) (map bare_answer (heard format (fresh holding) events)) }
    ensures exact { (format : Format) (holding : Holding) (first : ℕ) (samples : List SentSample) (sender : Sender)
        (turns : List Turn) →
        let events = map (event_of sender) (turns ++ Ask ∷ []) in
        let sizes = frame_sizes format samples in
        AreAside first (length (packets_of samples)) sender (numbered first (datagrams samples)) →
        AreSentAs format samples → first + length (packets_of samples) ≤ 2 ^ 62 →
        IsTame first (length (packets_of samples)) holding (first_size sizes) [] first sizes (turns ++ Ask ∷ []) →
        EndsSilent (heard format (fresh holding) events) →
        map timed_unit (handed_out (map bare_answer (heard format (fresh holding) events)))
        ≡ map (λ c. Ok (whole_unit c)) (canonical_units first samples) }
{}

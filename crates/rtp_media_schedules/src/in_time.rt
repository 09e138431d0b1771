//! What a stream answers while no frame is late.

ghost use Rattle.std.specs.Prelude.{◌≡◌, ℕ, ◌+◌, ◌^◌, ◌<◌, ◌≤◌, List, [], length, map};
ghost use Rattle.payload_core_base.specs.Format.{Format};
ghost use Rattle.payload_core_buffer.specs.Buffered.{Holding};
ghost use Rattle.rtp_media_schedules.specs.Hearing.{fresh, heard};
ghost use Rattle.rtp_media_schedules.specs.InTime.{IsInOrder, IsInTime, round_by_round, rounds, timed_answer};
ghost use Rattle.rtp_media_schedules.specs.InTime.{when_come};
ghost use Rattle.std.specs.List.{AllByRecursion};
ghost use Rattle.rtp_media_schedules.specs.Orders.{IsTame, first_size};
ghost use Rattle.rtp_media_schedules.specs.Samples.{AreSentAs, SentSample, canonical_units, datagrams, frame_sizes};
ghost use Rattle.rtp_media_schedules.specs.Samples.{packets_of, whole_unit};
ghost use Rattle.rtp_media_schedules.specs.Sending.{numbered};
ghost use Rattle.rtp_media_schedules.specs.Turns.{Turn, event_of};

/// For every hold-back: a poll returns the next unit if all its datagrams came, and None otherwise. So it is as long as
/// each frame comes whole before more frames have ended than the stream holds back (`answers`); and if datagrams come
/// in order, however often each is repeated (`in_order`); and under every tame schedule (`tame`).
pub fn prompt_in_time()
    ensures answers { (format : Format) (holding : Holding) (first : ℕ) (samples : List SentSample)
        (turns : List Turn) →
        let sizes = frame_sizes format samples in
        AreSentAs format samples → first + length (packets_of samples) ≤ 2 ^ 62
        → IsInTime first (length (packets_of samples)) holding [] first sizes turns →
        map timed_answer (heard format (fresh holding) (map (event_of (numbered first (datagrams samples))) turns))
        ≡ when_come [] first sizes (map whole_unit (canonical_units first samples)) turns }
    ensures in_order { (format : Format) (holding : Holding) (first : ℕ) (samples : List SentSample)
        (turns : List Turn) →
        let sizes = frame_sizes format samples in
        AreSentAs format samples → first + length (packets_of samples) ≤ 2 ^ 62
        → IsInOrder first (length (packets_of samples)) holding.held [] first sizes turns →
        map timed_answer (heard format (fresh holding) (map (event_of (numbered first (datagrams samples))) turns))
        ≡ when_come [] first sizes (map whole_unit (canonical_units first samples)) turns }
    ensures tame { (format : Format) (holding : Holding) (first : ℕ) (samples : List SentSample)
        (turns : List Turn) →
        let sizes = frame_sizes format samples in
        AreSentAs format samples → first + length (packets_of samples) ≤ 2 ^ 62
        → IsTame first (length (packets_of samples)) holding (first_size sizes) [] first sizes turns →
        map timed_answer (heard format (fresh holding) (map (event_of (numbered first (datagrams samples))) turns))
        ≡ when_come [] first sizes (map whole_unit (canonical_units first samples)) turns }
{}

/// A receiver's loop, for every hold-back: after each datagram it polls, once or several times. If datagrams come in
/// order, a frame's unit comes at the first poll after the frame's last datagram, and every other poll returns None.
pub fn in_rounds()
    ensures { (format : Format) (holding : Holding) (first count : ℕ) (more : ℕ → ℕ) (samples : List SentSample) →
        let sizes = frame_sizes format samples in
        AreSentAs format samples → first + length (packets_of samples) ≤ 2 ^ 62 → first < 65536
        → count ≤ length (packets_of samples) → AllByRecursion (λ z. z ≤ holding.held) sizes →
        map timed_answer (heard format (fresh holding)
        (map (event_of (numbered first (datagrams samples))) (rounds more first count)))
        ≡ round_by_round more first first sizes (map whole_unit (canonical_units first samples)) count }
{}

//! What a stream answers though datagrams are lost or late.

ghost use Rattle.std.specs.Prelude.{◌≡◌, ℕ, ◌+◌, ◌^◌, ◌<◌, ◌≤◌, List, [], ◌∷◌, length, map, true, false, Ok, Err};
ghost use Rattle.std.specs.Prelude.{None, Some};
ghost use Rattle.payload_core_base.specs.Format.{Format};
ghost use Rattle.payload_core_base.specs.declared.error.PacketError.{PacketError};
ghost use Rattle.payload_core_buffer.specs.Buffered.{Holding};
ghost use Rattle.payload_core_buffer.specs.Steps.{Answer, MediaUnit};
ghost use Rattle.rtp_media_schedules.specs.Hearing.{fresh, heard};
ghost use Rattle.rtp_media_schedules.specs.InTime.{ended_frames, hold_back_at};
ghost use Rattle.rtp_media_schedules.specs.Losses.{Follows, whole_frames};
ghost use Rattle.rtp_media_schedules.specs.Orders.{IsSane, has_come};
ghost use Rattle.rtp_media_schedules.specs.Samples.{AreSentAs, SentSample, canonical_units, datagrams, frame_sizes};
ghost use Rattle.rtp_media_schedules.specs.Samples.{packets_of};
ghost use Rattle.rtp_media_schedules.specs.Sending.{Canonical, numbered};
ghost use Rattle.rtp_media_schedules.specs.Turns.{Ask, Turn, event_of};

/// Whatever datagrams are lost, and for every hold-back: a poll returns None only if the next frame lacks a datagram
/// and no more frames came whole than the stream holds back. A frame is skipped only if it lacks a datagram and more
/// frames after it have ended than the stream holds back. A frame that came whole is handed out whole. So it is under
/// every sane schedule, as long as no more datagrams wait than the stream may hold.
pub fn nothing_withheld()
    ensures { (format : Format) (holding : Holding) (first : ℕ) (samples : List SentSample) (turns : List Turn) →
        AreSentAs format samples → first + length (packets_of samples) ≤ 2 ^ 62
        → IsSane first (length (packets_of samples)) [] turns →
        Follows first (length (packets_of samples)) holding [] first (frame_sizes format samples)
        (canonical_units first samples) turns
        (heard format (fresh holding) (map (event_of (numbered first (datagrams samples))) turns)) }
{}

/// What `nothing_withheld` refuses. A poll that returns None though the next frame came whole (`silent`): a stream does
/// so that hands out nothing, hands frames out one poll late, or keeps the last frame back. A poll that returns None
/// though more frames came whole than the stream holds back (`withheld`): a stream does so that holds one frame more
/// back. A poll that skips a frame that came whole (`skipped`), or skips one before more frames after it have ended
/// than the stream holds back (`skipped_early`); one that hands out a part of the next frame before more frames have
/// ended than that (`too_early`); and a fault.
pub fn not_followed()
    ensures silent { (first count : ℕ) (holding : Holding) (past : List ℕ) (next size : ℕ) (sizes : List ℕ)
        (cs : List Canonical) (turns : List Turn) (os : List Answer) → has_come past next size ≡ true
        → Follows first count holding past next (size ∷ sizes) cs (Ask ∷ turns) (Ok None ∷ os) → ⊥ }
    ensures withheld { (first count : ℕ) (holding : Holding) (past : List ℕ) (next size : ℕ) (sizes : List ℕ)
        (cs : List Canonical) (turns : List Turn) (os : List Answer) →
        hold_back_at first holding.hold_back next < whole_frames past next (size ∷ sizes)
        → Follows first count holding past next (size ∷ sizes) cs (Ask ∷ turns) (Ok None ∷ os) → ⊥ }
    ensures skipped { (first count : ℕ) (holding : Holding) (past : List ℕ) (next size : ℕ) (sizes : List ℕ)
        (c : Canonical) (cs : List Canonical) (u : MediaUnit) (turns : List Turn) (os : List Answer) →
        has_come past next size ≡ true → c.end ≤ u.first
        → Follows first count holding past next (size ∷ sizes) (c ∷ cs) (Ask ∷ turns) (Ok (Some u) ∷ os) → ⊥ }
    ensures skipped_early { (first count : ℕ) (holding : Holding) (past : List ℕ) (next size : ℕ) (sizes : List ℕ)
        (c : Canonical) (cs : List Canonical) (u : MediaUnit) (turns : List Turn) (os : List Answer) →
        ended_frames past (next + size) sizes ≤ hold_back_at first holding.hold_back next → c.end ≤ u.first
        → Follows first count holding past next (size ∷ sizes) (c ∷ cs) (Ask ∷ turns) (Ok (Some u) ∷ os) → ⊥ }
    ensures too_early { (first count : ℕ) (holding : Holding) (past : List ℕ) (next size : ℕ) (sizes : List ℕ)
        (cs : List Canonical) (u : MediaUnit) (turns : List Turn) (os : List Answer) →
        has_come past next size ≡ false
        → ended_frames past next (size ∷ sizes) ≤ hold_back_at first holding.hold_back next
        → Follows first count holding past next (size ∷ sizes) cs (Ask ∷ turns) (Ok (Some u) ∷ os) → ⊥ }
    ensures fault { (first count : ℕ) (holding : Holding) (past : List ℕ) (next : ℕ) (sizes : List ℕ)
        (cs : List Canonical) (e : PacketError) (turns : List Turn) (os : List Answer) →
        Follows first count holding past next sizes cs (Ask ∷ turns) (Err e ∷ os) → ⊥ }
{}

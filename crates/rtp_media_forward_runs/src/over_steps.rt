//! What holds of every run of a forwarder and of the stream that hears what it sends on.

ghost use Rattle.std.specs.Prelude.{◌≡◌, ℕ, ◌+◌, ◌^◌, ◌≤◌, List, [], ◌∷◌, ◌++◌, map, Ok};
ghost use Rattle.rtp_wire.specs.declared.values.ExtensionValues.{ExtensionValues};
ghost use Rattle.rtp_media_schedules.specs.Hearing.{Content, EndsSilent, fresh, handed_out, heard};
ghost use Rattle.payload_core_buffer.specs.Buffered.{Holding};
ghost use Rattle.rtp_media_schedules.specs.Legal.{IsLegal};
ghost use Rattle.rtp_media_schedules.specs.Orders.{IsSane, IsTame, first_size};
ghost use Rattle.rtp_media_schedules.specs.SentSamples.{timed_unit};
ghost use Rattle.rtp_media_schedules.specs.Samples.{canonical_units, datagrams, frame_sizes, whole_unit};
ghost use Rattle.rtp_media_schedules.specs.Sending.{numbered};
ghost use Rattle.rtp_media_schedules.specs.Turns.{Ask, Turn};
ghost use Rattle.rtp_media_streams.specs.Rows.{format_of};
ghost use Rattle.rtp_media_streams.specs.Sending.{Sending};
ghost use Rattle.rtp_media_forward.specs.Forwarding.{nothing_from};
ghost use Rattle.rtp_media_forward.specs.Relayed.{AreFrom, AreRead, Part, count_of, relayed};
ghost use Rattle.rtp_media_forward.specs.Steps.{IsRun, Step, numbers_in};
ghost use Rattle.rtp_media_forward_runs.specs.ForwardedRuns.{AreWritable};
ghost use Rattle.rtp_media_forward_runs.specs.Hops.{AreHeardAs, IsPlain, heard_of, numbered_turns, receiver_of};
ghost use Rattle.rtp_media_forward_runs.specs.Hops.{values_by};
ghost use Rattle.rtp_media_forward_runs.specs.Steps.{datagrams_in};
ghost use Rattle.rtp_media_forward_runs.specs.Virtual.{numbered_datagrams, payloads_of, virtual_datagrams};

use crate::over_hops::hops_laws;
use rtp_media_forward::steps_law;

/// A whole run of a forwarder, with its switches, and what `send_packet` makes of it: the datagrams that leave are,
/// byte for byte, those of one sender of all parts at their numbers (`bytes`), and the receiving stream hears them so
/// (`heard`). Under every schedule of them that is sane by their numbers its answers are a legal selection of the
/// parts' units (`legal`), and under a tame one exactly these (`exact`).
pub fn steps_over_hops_law()
    ensures bytes { (s : Sending) (own : ExtensionValues → ExtensionValues) (senders : ℕ → ℕ → Content) (first : ℕ)
        (parts : List Part) (steps : List Step) →
        AreFrom senders parts → IsRun senders first [] (nothing_from first) parts steps →
        datagrams_in s own senders (nothing_from first) steps
        ≡ numbered_datagrams first (virtual_datagrams s own first parts)
        (numbers_in senders (nothing_from first) steps) }
    ensures heard { (s : Sending) (holding : Holding) (own : ExtensionValues → ExtensionValues)
        (senders : ℕ → ℕ → Content) (first : ℕ) (parts : List Part) (steps : List Step) →
        IsPlain s → AreWritable (payloads_of (relayed own parts)) → AreFrom senders parts
        → IsRun senders first [] (nothing_from first) parts steps →
        AreHeardAs (receiver_of holding s) (numbered first (datagrams (relayed (values_by s own) parts)))
        (datagrams_in s own senders (nothing_from first) steps) (numbers_in senders (nothing_from first) steps) }
    ensures legal { (s : Sending) (holding : Holding) (own : ExtensionValues → ExtensionValues)
        (senders : ℕ → ℕ → Content) (first : ℕ) (parts : List Part) (steps : List Step) (turns : List Turn) →
        let samples = relayed (values_by s own) parts in
        let left = datagrams_in s own senders (nothing_from first) steps in
        let numbers = numbers_in senders (nothing_from first) steps in
        IsPlain s → AreWritable (payloads_of (relayed own parts)) → AreFrom senders parts
        → IsRun senders first [] (nothing_from first) parts steps → AreRead (format_of s.row) parts
        → first + count_of parts ≤ 2 ^ 62 → IsSane first (count_of parts) [] (numbered_turns numbers turns) →
        IsLegal (canonical_units first samples)
        (heard (format_of s.row) (fresh holding) (heard_of (receiver_of holding s) left turns)) }
    ensures exact { (s : Sending) (holding : Holding) (own : ExtensionValues → ExtensionValues)
        (senders : ℕ → ℕ → Content) (first : ℕ) (parts : List Part) (steps : List Step) (turns : List Turn) →
        let samples = relayed (values_by s own) parts in
        let sizes = frame_sizes (format_of s.row) samples in
        let left = datagrams_in s own senders (nothing_from first) steps in
        let numbers = numbers_in senders (nothing_from first) steps in
        let answers = heard (format_of s.row) (fresh holding)
        (heard_of (receiver_of holding s) left (turns ++ Ask ∷ [])) in
        IsPlain s → AreWritable (payloads_of (relayed own parts)) → AreFrom senders parts
        → IsRun senders first [] (nothing_from first) parts steps → AreRead (format_of s.row) parts
        → first + count_of parts ≤ 2 ^ 62
        → IsTame first (count_of parts) holding (first_size sizes) [] first sizes
        (numbered_turns numbers (turns ++ Ask ∷ [])) → EndsSilent answers →
        map timed_unit (handed_out answers) ≡ map (λ c. Ok (whole_unit c)) (canonical_units first samples) }
{
    hops_laws();
    steps_law();
}

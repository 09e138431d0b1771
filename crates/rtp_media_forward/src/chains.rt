//! What holds of streams that one forwarder after another sends on.

ghost use Rattle.std.specs.Prelude.{◌≡◌, ℕ, ◌+◌, ◌^◌, ◌≤◌, List, [], ◌∷◌, ◌++◌, map, Ok};
ghost use Rattle.payload_core_base.specs.Format.{Format};
ghost use Rattle.rtp_wire.specs.declared.values.ExtensionValues.{ExtensionValues};
ghost use Rattle.rtp_media_schedules.specs.Hearing.{EndsSilent, fresh, handed_out, heard};
ghost use Rattle.payload_core_buffer.specs.Buffered.{Holding};
ghost use Rattle.rtp_media_schedules.specs.Legal.{IsLegal};
ghost use Rattle.rtp_media_schedules.specs.Orders.{IsSane, IsTame, first_size};
ghost use Rattle.rtp_media_schedules.specs.SentSamples.{timed_unit};
ghost use Rattle.rtp_media_schedules.specs.Samples.{canonical_units, datagrams, frame_sizes, whole_unit};
ghost use Rattle.rtp_media_schedules.specs.Sending.{numbered};
ghost use Rattle.rtp_media_schedules.specs.Turns.{Ask, Turn, event_of};
ghost use Rattle.rtp_media_forward.specs.Chains.{Link, moved, over_links, shift_over, values_over};
ghost use Rattle.rtp_media_forward.specs.Relayed.{AreRead, Part, count_in, count_of, relayed, relayed_samples};

/// Relayed samples are samples again. A part of them is sent on as the parts that they come from, with both shifts and
/// both changes of values (`again`), and is read as they are (`read`, `count`); so any number of forwarders one after
/// the other is one (`links`), and a receiver after the last of them answers a legal selection of the first parts'
/// units (`legal`), and under a tame schedule exactly these (`exact`).
pub fn chain_laws()
    ensures again { (own values : ExtensionValues → ExtensionValues) (parts : List Part) (p : Part) →
        p.samples ≡ relayed values parts →
        relayed_samples own p ≡ relayed (λ v. own (values v)) (map (moved p.shift) parts) }
    ensures read { (format : Format) (values : ExtensionValues → ExtensionValues) (parts : List Part) (p : Part) →
        p.samples ≡ relayed values parts → AreRead format parts → AreRead format (p ∷ []) }
    ensures count { (values : ExtensionValues → ExtensionValues) (parts : List Part) (p : Part) →
        p.samples ≡ relayed values parts → count_in p ≡ count_of parts }
    ensures links { (links : List Link) (values : ExtensionValues → ExtensionValues) (parts : List Part) →
        over_links links (relayed values parts)
        ≡ relayed (λ v. values_over links (values v)) (map (moved (shift_over links)) parts) }
    ensures legal { (format : Format) (holding : Holding) (first : ℕ) (values : ExtensionValues → ExtensionValues)
        (parts : List Part) (links : List Link) (turns : List Turn) →
        let samples = over_links links (relayed values parts) in
        let events = map (event_of (numbered first (datagrams samples))) turns in
        AreRead format parts → first + count_of parts ≤ 2 ^ 62 → IsSane first (count_of parts) [] turns →
        IsLegal (canonical_units first samples) (heard format (fresh holding) events) }
    ensures exact { (format : Format) (holding : Holding) (first : ℕ) (values : ExtensionValues → ExtensionValues)
        (parts : List Part) (links : List Link) (turns : List Turn) →
        let samples = over_links links (relayed values parts) in
        let events = map (event_of (numbered first (datagrams samples))) (turns ++ Ask ∷ []) in
        let sizes = frame_sizes format samples in
        AreRead format parts → first + count_of parts ≤ 2 ^ 62 →
        IsTame first (count_of parts) holding (first_size sizes) [] first sizes (turns ++ Ask ∷ []) →
        EndsSilent (heard format (fresh holding) events) →
        map timed_unit (handed_out (heard format (fresh holding) events))
        ≡ map (λ c. Ok (whole_unit c)) (canonical_units first samples) }
{}

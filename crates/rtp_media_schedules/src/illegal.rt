//! What no legal selection of a run's units is: the definition, tried at hand-made answers.

ghost use Rattle.std.specs.Prelude.{◌≡◌, ◌≢◌, ◌<◌, ◌≤◌, ℕ, List, [], ◌∷◌, Err, Ok, Some};
ghost use Rattle.payload_core_base.specs.declared.error.PacketError.{PacketError};
ghost use Rattle.payload_core_buffer.specs.Steps.{Answer, MediaUnit};
ghost use Rattle.rtp_media_schedules.specs.Legal.{IsLegal};
ghost use Rattle.rtp_media_schedules.specs.Sending.{Canonical};

/// A selection isn't legal if it hands a unit out twice; hands out a later unit before an earlier
/// one; hands out a unit that spans the datagrams of two samples; hands out the beginning of a unit
/// without its last part; or if a poll returns a fault.
pub fn not_legal()
    ensures twice { (c : Canonical) (u v : MediaUnit)
        → IsLegal (c ∷ []) (Ok (Some u) ∷ Ok (Some v) ∷ []) → ⊥ }
    ensures out_of_order { (c d : Canonical) (u v : MediaUnit) → c.end ≤ d.first → d.first ≤ u.first → v.last < c.end
        → IsLegal (c ∷ d ∷ []) (Ok (Some u) ∷ Ok (Some v) ∷ []) → ⊥ }
    ensures of_two_samples { (c d : Canonical) (u : MediaUnit) → c.end ≤ d.first → u.first < c.end → c.end ≤ u.last
        → IsLegal (c ∷ d ∷ []) (Ok (Some u) ∷ []) → ⊥ }
    ensures without_its_end { (c : Canonical) (u : MediaUnit) (front end : ℕ) → front ≢ end
        → c.parts ≡ (front ∷ []) ∷ (end ∷ []) ∷ [] → u.bytes ≡ front ∷ []
        → IsLegal (c ∷ []) (Ok (Some u) ∷ []) → ⊥ }
    ensures fault { (cs : List Canonical) (e : PacketError) (os : List Answer) → IsLegal cs (Err e ∷ os) → ⊥ }
{}

//! What holds of whole runs of a forwarder.

ghost use Rattle.std.specs.Prelude.{◌≡◌, ℕ, ◌+◌, List, [], map};
ghost use Rattle.rtp_wire.specs.declared.values.ExtensionValues.{ExtensionValues};
ghost use Rattle.rtp_media_schedules.specs.Hearing.{Content};
ghost use Rattle.rtp_media_schedules.specs.Samples.{datagrams};
ghost use Rattle.rtp_media_schedules.specs.Sending.{numbered};
ghost use Rattle.rtp_media_forward.specs.Forwarding.{nothing_from};
ghost use Rattle.rtp_media_forward.specs.Relayed.{AreFrom, Part, count_of, relayed};
ghost use Rattle.rtp_media_forward.specs.Relaying.{AreBetween, bare_senders, bare_sent, datagrams_at, no_values};
ghost use Rattle.rtp_media_forward.specs.Steps.{AreAsInRun, IsRun, Step, numbers_in, sent_in};

/// A whole run of a forwarder, of packets that come in any order and of its calls between them: what is sent on are
/// datagrams of one stream, which sends the samples of all parts one part after the other (`sends`), at numbers of
/// theirs (`between`); values aside even if each datagram has its own values of header extensions (`aside`). It is
/// enough that the datagrams that come are those of the parts' samples: a part's last frame may lack the others, and
/// the number that is left free after it is that of one of these (`cut`, `cut_aside`). So a receiver never joins
/// packets of two parts to one frame, and answers a legal selection of the parts' units.
pub fn steps_law()
    ensures sends { (values : ExtensionValues → ExtensionValues) (senders : ℕ → ℕ → Content) (first : ℕ)
        (parts : List Part) (steps : List Step) →
        AreFrom senders parts → IsRun senders first [] (nothing_from first) parts steps →
        sent_in values senders (nothing_from first) steps
        ≡ datagrams_at (numbered first (datagrams (relayed values parts)))
        (numbers_in senders (nothing_from first) steps) }
    ensures aside { (values : ExtensionValues → ExtensionValues) (senders : ℕ → ℕ → Content) (first : ℕ)
        (parts : List Part) (steps : List Step) →
        AreFrom (bare_senders senders) parts → IsRun senders first [] (nothing_from first) parts steps →
        map bare_sent (sent_in values senders (nothing_from first) steps)
        ≡ datagrams_at (numbered first (datagrams (relayed no_values parts)))
        (numbers_in senders (nothing_from first) steps) }
    ensures cut { (values : ExtensionValues → ExtensionValues) (senders : ℕ → ℕ → Content) (first : ℕ)
        (parts : List Part) (steps : List Step) →
        AreAsInRun senders parts steps → IsRun senders first [] (nothing_from first) parts steps →
        (sent_in values senders (nothing_from first) steps
        ≡ datagrams_at (numbered first (datagrams (relayed values parts)))
        (numbers_in senders (nothing_from first) steps))
        × AreBetween first (first + count_of parts) (numbers_in senders (nothing_from first) steps) }
    ensures cut_aside { (values : ExtensionValues → ExtensionValues) (senders : ℕ → ℕ → Content) (first : ℕ)
        (parts : List Part) (steps : List Step) →
        AreAsInRun (bare_senders senders) parts steps → IsRun senders first [] (nothing_from first) parts steps →
        map bare_sent (sent_in values senders (nothing_from first) steps)
        ≡ datagrams_at (numbered first (datagrams (relayed no_values parts)))
        (numbers_in senders (nothing_from first) steps) }
    ensures between { (senders : ℕ → ℕ → Content) (first : ℕ) (parts : List Part) (steps : List Step) →
        AreFrom senders parts → IsRun senders first [] (nothing_from first) parts steps →
        AreBetween first (first + count_of parts) (numbers_in senders (nothing_from first) steps) }
{}

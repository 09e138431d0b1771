//! Where payloads are sent to.

ghost use Rattle.payload_core_base.specs.Outgoing.{Outgoing, outgoing};
ghost use Rattle.std.specs.Prelude.{◌≡◌, ◌++◌, ◌∷◌, [], IfErr, List, OnErr, OnOk};

use crate::error::PacketError;
use rtp_wire::ExtensionValues;

/// Takes the payloads of packets, one after the other.
///
/// After success a sink has just one payload more, and after lack of memory none: so say its two laws.
pub trait PacketSink {
    /// What a sink records for a payload it took.
    ghost Entry: { Type 0 };

    /// What it has of all that it took, in order.
    ghost entries: { Self → List Entry };

    /// What the sink has of the next payload, which is unaltered, with its marker, time and values.
    ghost becomes: { Self → Outgoing → Entry → Type 0 };

    /// The sink before, a payload with what it is sent with, and the sink after it was taken.
    ghost takes: { Self → Outgoing → Self → Type 0 };

    /// The sink before and after a payload was refused, which isn't sent.
    ghost keeps: { Self → Self → Type 0 };

    /// Takes one payload, unaltered, with its marker, its RTP time and the values of its header extensions.
    ///
    /// # Errors
    /// `Memory` alone, and then nothing was sent.
    fn send(
        &mut self,
        payload: &[u8],
        marker: bool,
        time: u32,
        values: &ExtensionValues,
    ) -> Result<(), PacketError>
        ensures taken { OnOk result (takes self.old (outgoing payload.now marker time values.now) self.new) }
        ensures kept { OnErr result (keeps self.old self.new) }
        ensures memory { IfErr result (λ e. e ≡ PacketError.Memory) };

    /// A sink that took a payload has that one more.
    ghost one_more: { (old : Self) (o : Outgoing) (new : Self) → takes old o new → (e : Entry) × becomes old o e
        × (entries new ≡ entries old ++ e ∷ []) };

    /// One that refused a payload has none more.
    ghost none_more: { (old new : Self) → keeps old new → entries new ≡ entries old };
}

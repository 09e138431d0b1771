//! Cutting samples into packets.

ghost use Rattle.payload_core_base.specs.Packing.{Packing, RefusesSample, Sender, Sends, SendsWith};
ghost use Rattle.std.specs.Prelude.{◌≡◌, ◌∷◌, [], IfErr, IfOk, OnErr, false, map, true};

use crate::error::PacketError;
use std::alloc::Global;

/// Cuts samples into the payloads of packets.
///
/// The packets of a sample and the state after it are a function of the sample, the limit and the state
/// before it.
pub trait Packetizer {
    /// How samples are cut, which no call changes.
    ghost packing: { Self → Packing };

    /// The state kept between samples.
    ghost sender: { Self → Sender };

    /// The payloads of a sample, each of at most `mtu` bytes, in order. An empty sample has none.
    ///
    /// # Errors
    /// Why the format can't carry the sample, or `Memory`, if a payload or their list could not grow. Either changes
    /// nothing.
    fn packetize(
        &mut self,
        alloc: Global,
        mtu: usize,
        bytes: &[u8],
    ) -> Result<Vec<Vec<u8>>, PacketError>
        ensures packing { packing self.new ≡ packing self.old }
        ensures packets { let sent = (packing self.old).pack (sender self.old) mtu bytes.now in
            IfOk result (λ ps. Sends sent (map (λ p. p.items) ps.items) (sender self.new)) }
        ensures refused { let sent = (packing self.old).pack (sender self.old) mtu bytes.now in
            IfErr result (RefusesSample sent) }
        ensures unchanged { OnErr result (sender self.new ≡ sender self.old) }
    {
        self.packetize_with_prefix(alloc, &[], mtu, bytes)
    }

    /// The payloads that `packetize` makes of a sample, each with these bytes in front of it, such as a header.
    ///
    /// # Errors
    /// Those of `packetize`.
    fn packetize_with_prefix(
        &mut self,
        alloc: Global,
        prefix: &[u8],
        mtu: usize,
        bytes: &[u8],
    ) -> Result<Vec<Vec<u8>>, PacketError>
        ensures packing { packing self.new ≡ packing self.old }
        ensures packets { let sent = (packing self.old).pack (sender self.old) mtu bytes.now in
            IfOk result (λ ps. SendsWith prefix.now sent (map (λ p. p.items) ps.items) (sender self.new)) }
        ensures refused { let sent = (packing self.old).pack (sender self.old) mtu bytes.now in
            IfErr result (RefusesSample sent) }
        ensures unchanged { OnErr result (sender self.new ≡ sender self.old) };

    /// The marker bit of a packet, given the previous packet of its sample, if any, and whether it
    /// is the sample's last.
    fn is_marker(&mut self, bytes: &[u8], _previous: Option<&[u8]>, last: bool) -> bool
        ensures marker { result ≡ (packing self.old).marks bytes.now last }
        ensures packing { packing self.new ≡ packing self.old }
        ensures sender { sender self.new ≡ sender self.old };

    /// Whether a sample is known to be the only payload that `packetize` makes of it, without
    /// changing the state, so that its bytes can be sent as they are; false by default.
    fn is_own_payload(&self, mtu: usize, bytes: &[u8]) -> bool
        ensures own { let sent = (packing self.now).pack (sender self.now) mtu bytes.now in
            result ≡ true → Sends sent (bytes.now ∷ []) (sender self.now) }
    {
        false
    }

    /// Whether a marker tells the start of a talkspurt: of no format here.
    fn marks_talkspurt(&self) -> bool
        ensures { result ≡ false }
    {
        false
    }

    /// Whether lost packets may be asked for again: of every format here.
    fn nackable(&self) -> bool
        ensures { result ≡ true }
    {
        true
    }
}

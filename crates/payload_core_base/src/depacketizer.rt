//! Reading packets.

ghost use Rattle.payload_core_base.specs.Format.{Format, Fragment, Gives, IsPlain, Refuses};
ghost use Rattle.std.specs.Prelude.{◌≡◌, IfErr, None, OnErr, OnOk, true};

use crate::error::PacketError;
use crate::extra::CodecExtra;

/// Puts the packets of a unit together again.
///
/// What a packet gives is a function of the packet, the open fragment and the extra before it; head and
/// tail are functions of packet and marker alone.
pub trait Depacketizer {
    /// The format that is read, which no call changes.
    ghost format: { Self → Format };

    /// The fragment that is open.
    ghost fragment: { Self → Fragment };

    /// A hint of how many bytes packets of this size may give; no format here knows.
    fn out_size_hint(&self, _packets_size: usize) -> Option<usize>
        ensures { result ≡ None }
    {
        None
    }

    /// Reads a packet: writes its bytes after those of `out`, and tells what it knows in `extra`.
    ///
    /// # Errors
    /// Why the format refuses the packet, or `Memory`, which comes only if `out` or the fragment could not grow.
    /// Either changes neither the depacketizer nor `out` nor `extra`.
    fn depacketize(
        &mut self,
        packet: &[u8],
        out: &mut Vec<u8>,
        extra: &mut CodecExtra,
    ) -> Result<(), PacketError>
        ensures format { format self.new ≡ format self.old }
        ensures read { let reading = (format self.old).read (fragment self.old) extra.old packet.now in
            OnOk result (Gives reading out.old.items out.new.items extra.new (fragment self.new)) }
        ensures refused { let reading = (format self.old).read (fragment self.old) extra.old packet.now in
            IfErr result (Refuses reading) }
        ensures unchanged { OnErr result ((fragment self.new ≡ fragment self.old) × (out.new.items ≡ out.old.items)
            × (extra.new ≡ extra.old)) };

    /// Whether each packet that isn't empty is a unit as it is.
    fn is_plain(&self) -> bool
        ensures { result ≡ true → IsPlain (format self.now) }
    {
        false
    }

    /// Whether a unit can begin with this packet.
    fn is_partition_head(&self, packet: &[u8]) -> bool
        ensures { result ≡ (format self.now).head packet.now };

    /// Whether a unit ends with this packet, given its marker bit.
    fn is_partition_tail(&self, marker: bool, packet: &[u8]) -> bool
        ensures { result ≡ (format self.now).tail marker packet.now };
}

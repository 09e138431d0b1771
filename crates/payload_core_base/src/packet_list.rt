//! A sink that collects packets.

ghost use Rattle.std.specs.Prelude.{◌≡◌, [], map};

use crate::error::PacketError;
use crate::sink::PacketSink;
use rtp_wire::ExtensionValues;
use std::alloc::Global;
use std::marker::Model;

/// A sent payload with its marker bit, timestamp and header extension values.
pub struct SentPacket {
    /// The bytes of the payload.
    pub payload: Vec<u8>,
    /// The marker bit.
    pub marker: bool,
    /// The RTP time.
    pub time: u32,
    /// The values of the header extensions.
    pub values: ExtensionValues,
}

/// Written by hand, so that crates that drop this type need no proof about its fields.
impl Drop for SentPacket {
    fn drop(self) {
        let SentPacket {
            payload: _payload,
            marker: _marker,
            time: _time,
            values: _values,
        } = self;
    }
}

/// A sink that collects the packets that it is sent.
#[derive(Drop)]
pub struct PacketList {
    packets: Vec<SentPacket>,
}

impl Model for PacketList {
    ghost use Rattle.payload_core_base.specs.Outgoing.{Outgoing};
    ghost use Rattle.payload_core_base.specs.Lists.{outgoing_code, outgoing_of};
    ghost use Rattle.std.specs.Coded.{coded_list};
    ghost use Rattle.std.specs.Prelude.{List, map};

    ghost Value = { List Outgoing };

    ghost coded = { coded_list outgoing_code };

    ghost view = { λ l. map outgoing_of l.packets.items };
}

impl PacketList {
    ghost use Rattle.payload_core_base.specs.Lists.{outgoing_of};

    /// A sink that was sent nothing, which takes memory from `alloc` for what it will be sent.
    pub fn new(alloc: Global) -> Self
        ensures { result ≡ [] }
    {
        PacketList {
            packets: Vec::new(alloc),
        }
    }

    /// The packets so far, in order.
    pub fn packets(&self) -> &[SentPacket]
        ensures { map outgoing_of result.now ≡ self.now }
    {
        &self.packets
    }

    /// The packets, in order.
    pub fn into_packets(self) -> Vec<SentPacket>
        ensures { map outgoing_of result.items ≡ self }
    {
        self.packets
    }
}

/// Takes each packet as it is: just one more after success, and none after lack of memory.
impl PacketSink for PacketList {
    ghost use Rattle.payload_core_base.specs.Outgoing.{Outgoing};
    ghost use Rattle.std.specs.Prelude.{◌++◌, ◌∷◌, [], refl};

    ghost Entry = { Outgoing };

    ghost entries = { λ l. l };

    ghost becomes = { λ _ o e. e ≡ o };

    ghost one_more = { λ old o new taken. (o, refl, taken) };

    ghost none_more = { λ old new kept. kept };

    ghost takes = { λ old o new. new ≡ old ++ o ∷ [] };

    ghost keeps = { λ old new. new ≡ old };

    fn send(
        &mut self,
        payload: &[u8],
        marker: bool,
        time: u32,
        values: &ExtensionValues,
    ) -> Result<(), PacketError> {
        let payload = Vec::from_slice(*self.packets.allocator(), payload)?;
        self.packets.push(SentPacket {
            payload,
            marker,
            time,
            values: *values,
        })?;
        Ok(())
    }
}

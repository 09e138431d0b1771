//! A packet sink that adds redundancy.

ghost use Rattle.payload_core_audio.specs.RedSinks.{BecomesWrapped, KeepsWrapped, TakesWrapped, wrapped_more};
ghost use Rattle.payload_core_audio.specs.RedSinks.{wrapped_none};
ghost use Rattle.std.specs.Prelude.{◌≡◌};

use crate::sender::RedSender;
use payload_core_base::{PacketError, PacketSink};
use rtp_wire::ExtensionValues;

/// Wraps each payload beside older ones, and hands it to an inner sink with its marker, time and values.
///
/// If memory runs out, the inner sink takes nothing, and the payload isn't kept for later ones.
#[derive(Drop)]
pub struct RedSink<S> {
    sink: S,
    sender: RedSender,
    pt: u8,
    budget: usize,
}

impl<S> RedSink<S> {
    /// A sink that wraps payloads of this type within the budget in bytes.
    pub fn new(sink: S, sender: RedSender, pt: u8, budget: usize) -> Self
        ensures { result ≡ record { sink = sink; sender = sender; pt = pt; budget = budget } }
    {
        RedSink {
            sink,
            sender,
            pt,
            budget,
        }
    }

    /// The inner sink, and the sender with the payloads that were wrapped.
    pub fn into_parts(self) -> (S, RedSender)
        ensures sink { result.0 ≡ self.sink }
        ensures sender { result.1 ≡ self.sender }
    {
        (self.sink, self.sender)
    }
}

impl<S: PacketSink> PacketSink for RedSink<S> {
    ghost Entry = { S.Entry };

    ghost entries = { λ s. S.entries s.sink };

    ghost becomes = { BecomesWrapped S.becomes };

    ghost one_more = { wrapped_more S.entries S.becomes S.takes S.one_more };

    ghost none_more = { wrapped_none S.entries S.keeps S.none_more };

    ghost takes = { TakesWrapped S.takes };

    ghost keeps = { KeepsWrapped S.keeps };

    fn send(
        &mut self,
        payload: &[u8],
        marker: bool,
        time: u32,
        values: &ExtensionValues,
    ) -> Result<(), PacketError> {
        let sent = self.sender.prepare(self.pt, payload, time, self.budget)?;
        if let Err(e) = self.sink.send(&sent, marker, time, values) {
            self.sender.forget();
            return Err(e);
        }
        self.sender.settle();
        Ok(())
    }
}

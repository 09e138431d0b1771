//! Sending samples through a packet sink.

ghost use Rattle.payload_core_base.specs.Outgoing.{TakesAll, TakesFirst, all_outgoing, outgoing};
ghost use Rattle.payload_core_base.specs.Packing.{RefusesSample};
ghost use Rattle.payload_core_base.specs.Sending.{HasSent, StopsSending, outgoing_from};
ghost use Rattle.std.specs.Prelude.{◌≡◌, ◌≢◌, ◌+◌, ◌≤◌, ◌⊎◌, Err, IfErr, OnErr, OnOk, map, true, vec_len};

use crate::error::PacketError;
use crate::packetizer::Packetizer;
use crate::sink::PacketSink;
use rtp_wire::ExtensionValues;
use std::alloc::Global;

/// Cuts samples into packets and hands these to a sink.
#[derive(Drop)]
pub struct Payloader<P> {
    packetizer: P,
}

/// Hands packets on to the sink, in order.
fn send_all<P: Packetizer, S: PacketSink>(
    packetizer: &mut P,
    sink: &mut S,
    packets: &[Vec<u8>],
    time: u32,
    values: &ExtensionValues,
) -> Result<(), PacketError>
    ensures packing { P.packing packetizer.new ≡ P.packing packetizer.old }
    ensures sender { P.sender packetizer.new ≡ P.sender packetizer.old }
    ensures sent { let all = outgoing_from (P.packing packetizer.old) (map (λ p. p.items) packets.now) time
        values.now in
        OnOk result (TakesAll S.takes sink.old all sink.new) }
    ensures stopped { let all = outgoing_from (P.packing packetizer.old) (map (λ p. p.items) packets.now) time
        values.now in
        OnErr result (TakesFirst S.takes S.keeps sink.old all sink.new) }
    ensures memory { IfErr result (λ e. e ≡ PacketError.Memory) }
{
    let mut previous: Option<&[u8]> = None;
    for (i, packet) in packets.iter().enumerate() {
        let last = i + 1 == packets.len();
        let marker = packetizer.is_marker(packet, previous, last);
        if let Err(e) = sink.send(packet, marker, time, values) {
            return Err(e);
        }
        previous = Some(packet);
    }
    Ok(())
}

/// Hands a sample on to the sink as its one packet.
fn send_own<P: Packetizer, S: PacketSink>(
    packetizer: &mut P,
    sink: &mut S,
    sample: &[u8],
    time: u32,
    values: &ExtensionValues,
) -> Result<(), PacketError>
    ensures packing { P.packing packetizer.new ≡ P.packing packetizer.old }
    ensures sender { P.sender packetizer.new ≡ P.sender packetizer.old }
    ensures sent { let marker = (P.packing packetizer.old).marks sample.now true in
        OnOk result (S.takes sink.old (outgoing sample.now marker time values.now) sink.new) }
    ensures stopped { OnErr result (S.keeps sink.old sink.new) }
    ensures memory { IfErr result (λ e. e ≡ PacketError.Memory) }
{
    let marker = packetizer.is_marker(sample, None, true);
    sink.send(sample, marker, time, values)
}

impl<P: Packetizer> Payloader<P> {
    ghost use Rattle.payload_core_base.specs.Payloaders.{packetizer_of};

    /// Sends with this packetizer.
    pub fn new(packetizer: P) -> Self
        ensures { packetizer_of result ≡ packetizer }
    {
        Payloader { packetizer }
    }

    /// Cuts a sample into packets of at most `mtu` bytes, and hands them to the sink in order, with their
    /// markers, the RTP time and the values.
    ///
    /// # Errors
    /// Why the packetizer refuses the sample, which sends nothing and changes nothing; or `Memory`, if either that
    /// holds, or the sink took the first packets of the sample alone.
    pub fn push_sample<S: PacketSink>(
        &mut self,
        alloc: Global,
        sink: &mut S,
        mtu: usize,
        time: u32,
        bytes: &[u8],
        values: &ExtensionValues,
    ) -> Result<(), PacketError>
        ensures packing { P.packing (packetizer_of self.new) ≡ P.packing (packetizer_of self.old) }
        ensures sent { let packing = P.packing (packetizer_of self.old) in
            let sent = packing.pack (P.sender (packetizer_of self.old)) mtu bytes.now in
            let after = P.sender (packetizer_of self.new) in
            OnOk result (HasSent S.takes packing sent time values.now sink.old sink.new after) }
        ensures refused { let before = P.sender (packetizer_of self.old) in
            let sent = (P.packing (packetizer_of self.old)).pack before mtu bytes.now in
            let unsent = (sink.new ≡ sink.old) × (P.sender (packetizer_of self.new) ≡ before) in
            IfErr result (λ e. e ≢ PacketError.Memory → (sent ≡ Err e) × unsent) }
        ensures memory { let packing = P.packing (packetizer_of self.old) in
            let sent = packing.pack (P.sender (packetizer_of self.old)) mtu bytes.now in
            let after = P.sender (packetizer_of self.new) in
            let unsent = (sink.new ≡ sink.old) × (after ≡ P.sender (packetizer_of self.old)) in
            let stopped = StopsSending S.takes S.keeps packing sent time values.now sink.old sink.new after in
            IfErr result (λ e. e ≡ PacketError.Memory → unsent ⊎ stopped) }
    {
        if self.packetizer.is_own_payload(mtu, bytes) {
            return send_own(&mut self.packetizer, sink, bytes, time, values);
        }
        let packets = match self.packetizer.packetize(alloc, mtu, bytes) {
            Ok(packets) => packets,
            Err(e) => return Err(e),
        };
        send_all(&mut self.packetizer, sink, &packets, time, values)
    }
}

//! Making datagrams of samples.

ghost use Rattle.std.specs.Prelude.{◌≡◌, ◌≢◌, ◌<◌, ◌≤◌, ◌^◌, ◌-◌, OnOk, ◌∷◌, [], IfErr, IfOk, false, length, map};
ghost use Rattle.std.specs.Prelude.{slice_index};
ghost use Rattle.rtp_media_streams.specs.Made.{IsMade, IsMadeRedundant, datagrams_with, header_with, numbered};
ghost use Rattle.rtp_media_streams.specs.Made.{without_prefix};
ghost use Rattle.rtp_media_streams.specs.Redundant.{kept_after, wraps};
ghost use Rattle.payload_core_base.specs.Packing.{RefusesSample, with_prefix};
ghost use Rattle.payload_core_base.specs.Sending.{outgoing_from};

use crate::datagram::Datagram;
use crate::spare::{Spare, emptied};
use crate::stamp::Stamp;
use payload_core_audio::RedSender;
use payload_core_base::{PacketError, Packetizer};
use rtp_wire::ExtensionValues;
use std::alloc::{AllocError, Global};

/// What the datagrams of a sample share, and the number of the first.
#[derive(Drop)]
pub(crate) struct Making<'a> {
    pub alloc: Global,
    pub stamp: &'a Stamp,
    pub first: u64,
    pub time: u32,
    pub values: &'a ExtensionValues,
    ghost numbers: { first < 2 ^ 62 },
}

/// Writes a number and a marker into a datagram whose header has number 0 and no marker.
fn write_number(datagram: &mut Vec<u8>, number: u64, marker: bool)
    requires fixed { 4 ≤ length datagram.old.items }
    requires unmarked { slice_index datagram.old.items 1 < 128 }
    ensures { datagram.new.items ≡ numbered number marker datagram.old.items }
{
    let low = (number % 65536) as u16;
    if marker {
        datagram[1] += 128;
    }
    datagram[2] = (low / 256) as u8;
    datagram[3] = (low % 256) as u8;
}

/// A list of one datagram, in this memory.
fn one(list: Vec<Datagram>, datagram: Vec<u8>) -> Result<Vec<Datagram>, AllocError>
    ensures { IfOk result (λ ds. ds.items ≡ datagram.items ∷ []) }
{
    let mut datagrams = emptied(list, 1)?;
    datagrams.push(Datagram::from_vec(datagram))?;
    Ok(datagrams)
}

impl Making<'_> {
    /// The datagrams of packets that have the header of number 0 without a marker in front.
    fn number_all<P: Packetizer>(
        &self,
        packetizer: &mut P,
        header: &[u8],
        packets: Vec<Vec<u8>>,
        list: Vec<Datagram>,
    ) -> Result<Vec<Datagram>, AllocError>
        requires header { header.now ≡ header_with self.now.stamp.now 0 false self.now.time self.now.values.now }
        requires packets { let ps = map (λ p. p.items) packets.items in
            ps ≡ with_prefix header.now (without_prefix header.now ps) }
        ensures packing { P.packing packetizer.new ≡ P.packing packetizer.old }
        ensures sender { P.sender packetizer.new ≡ P.sender packetizer.old }
        ensures made { let ps = without_prefix header.now (map (λ p. p.items) packets.items) in
            let all = outgoing_from (P.packing packetizer.old) ps self.now.time self.now.values.now in
            IfOk result (λ ds. ds.items ≡ datagrams_with self.now.stamp.now self.now.first all) }
    {
        let count = packets.len();
        let mut datagrams = emptied(list, count)?;
        for packet in packets {
            let mut packet = packet;
            let last = datagrams.len() + 1 == count;
            let marker = packetizer.is_marker(&packet[header.len()..], None, last);
            write_number(&mut packet, self.first + datagrams.len() as u64, marker);
            datagrams.push(Datagram::from_vec(packet))?;
        }
        Ok(datagrams)
    }

    /// The datagrams of packets, each after the older payloads that a packet of `mtu` bytes has room for.
    fn wrap_all<P: Packetizer>(
        &self,
        packetizer: &mut P,
        sender: &mut RedSender,
        pt: u8,
        mtu: usize,
        packets: &[Vec<u8>],
        spare: Spare,
    ) -> Result<Vec<Datagram>, AllocError>
        ensures packing { P.packing packetizer.new ≡ P.packing packetizer.old }
        ensures sender { P.sender packetizer.new ≡ P.sender packetizer.old }
        ensures made { let all = outgoing_from (P.packing packetizer.old) (map (λ p. p.items) packets.now)
            self.now.time self.now.values.now in
            IfOk result (λ ds. ds.items ≡ datagrams_with self.now.stamp.now self.now.first (wraps pt mtu sender.old
            all)) }
        ensures kept { let all = outgoing_from (P.packing packetizer.old) (map (λ p. p.items) packets.now)
            self.now.time self.now.values.now in
            OnOk result (sender.new ≡ kept_after pt sender.old all) }
    {
        let Spare { list, bytes } = spare;
        let header = self
            .stamp
            .header_bytes(bytes, 0, 0, false, self.time, self.values)?;
        let mut datagrams = emptied(list, packets.len())?;
        for (i, packet) in packets.iter().enumerate() {
            let marker = packetizer.is_marker(packet, None, i + 1 == packets.len());
            let mut datagram = sender.wrap_with_prefix(&header, pt, packet, self.time, mtu)?;
            write_number(&mut datagram, self.first + i as u64, marker);
            datagrams.push(Datagram::from_vec(datagram))?;
        }
        Ok(datagrams)
    }

    /// The datagrams of a sample, each payload of at most `mtu` bytes.
    ///
    /// # Errors
    /// Why the packetizer refuses the sample, and then nothing has changed; or `Memory`.
    pub fn plain<P: Packetizer>(
        &self,
        packetizer: &mut P,
        mtu: usize,
        sample: &[u8],
        spare: Spare,
    ) -> Result<Vec<Datagram>, PacketError>
        ensures packing { P.packing packetizer.new ≡ P.packing packetizer.old }
        ensures made { let packing = P.packing packetizer.old in
            let sent = packing.pack (P.sender packetizer.old) mtu sample.now in
            IfOk result (λ ds. IsMade self.now.stamp.now self.now.first packing sent self.now.time self.now.values.now
            ds.items (P.sender packetizer.new)) }
        ensures refused { let sent = (P.packing packetizer.old).pack (P.sender packetizer.old) mtu sample.now in
            IfErr result (RefusesSample sent) }
        ensures unchanged { IfErr result (λ e. e ≢ PacketError.Memory
            → P.sender packetizer.new ≡ P.sender packetizer.old) }
    {
        if packetizer.is_own_payload(mtu, sample) {
            return Ok(self.own(packetizer, sample, spare)?);
        }
        let Spare { list, bytes } = spare;
        let header = self
            .stamp
            .header_bytes(bytes, 0, 0, false, self.time, self.values)?;
        let header = header.as_slice();
        let packets = packetizer.packetize_with_prefix(self.alloc, header, mtu, sample)?;
        Ok(self.number_all(packetizer, header, packets, list)?)
    }

    /// The datagram of a sample that is its own payload.
    fn own<P: Packetizer>(
        &self,
        packetizer: &mut P,
        sample: &[u8],
        spare: Spare,
    ) -> Result<Vec<Datagram>, AllocError>
        ensures packing { P.packing packetizer.new ≡ P.packing packetizer.old }
        ensures sender { P.sender packetizer.new ≡ P.sender packetizer.old }
        ensures made { let all = outgoing_from (P.packing packetizer.old) (sample.now ∷ []) self.now.time
            self.now.values.now in
            IfOk result (λ ds. ds.items ≡ datagrams_with self.now.stamp.now self.now.first all) }
    {
        let Spare { list, bytes } = spare;
        let marker = packetizer.is_marker(sample, None, true);
        let mut datagram = self.stamp.header_bytes(
            bytes,
            sample.len(),
            self.first,
            marker,
            self.time,
            self.values,
        )?;
        datagram.extend_from_slice(sample)?;
        one(list, datagram)
    }

    /// The datagram of a sample that is its own payload, after the older payloads that there is room for.
    fn wrap_own<P: Packetizer>(
        &self,
        packetizer: &mut P,
        sender: &mut RedSender,
        pt: u8,
        mtu: usize,
        sample: &[u8],
        spare: Spare,
    ) -> Result<Vec<Datagram>, AllocError>
        ensures packing { P.packing packetizer.new ≡ P.packing packetizer.old }
        ensures sender { P.sender packetizer.new ≡ P.sender packetizer.old }
        ensures made { let all = outgoing_from (P.packing packetizer.old) (sample.now ∷ []) self.now.time
            self.now.values.now in
            IfOk result (λ ds. ds.items ≡ datagrams_with self.now.stamp.now self.now.first (wraps pt mtu sender.old
            all)) }
        ensures kept { let all = outgoing_from (P.packing packetizer.old) (sample.now ∷ []) self.now.time
            self.now.values.now in
            OnOk result (sender.new ≡ kept_after pt sender.old all) }
    {
        let Spare { list, bytes } = spare;
        let marker = packetizer.is_marker(sample, None, true);
        let header = self
            .stamp
            .header_bytes(bytes, 0, self.first, marker, self.time, self.values)?;
        let datagram = sender.wrap_with_prefix(&header, pt, sample, self.time, mtu)?;
        one(list, datagram)
    }

    /// The datagrams of a sample, each payload of at most `mtu` bytes, with the older ones that there is room for.
    ///
    /// # Conditions
    /// `mtu` is at least 1.
    ///
    /// # Errors
    /// Why the packetizer refuses the sample, and then nothing has changed; or `Memory`.
    pub fn redundant<P: Packetizer>(
        &self,
        packetizer: &mut P,
        sender: &mut RedSender,
        pt: u8,
        mtu: usize,
        sample: &[u8],
        spare: Spare,
    ) -> Result<Vec<Datagram>, PacketError>
        requires mtu { 0 < mtu }
        ensures packing { P.packing packetizer.new ≡ P.packing packetizer.old }
        ensures made { let packing = P.packing packetizer.old in
            let sent = packing.pack (P.sender packetizer.old) (mtu - 1) sample.now in
            IfOk result (λ ds. IsMadeRedundant self.now.stamp.now self.now.first packing sent self.now.time
            self.now.values.now pt mtu sender.old sender.new ds.items (P.sender packetizer.new)) }
        ensures refused { let sent = (P.packing packetizer.old).pack (P.sender packetizer.old) (mtu - 1) sample.now in
            IfErr result (RefusesSample sent) }
        ensures unchanged { IfErr result (λ e. e ≢ PacketError.Memory
            → P.sender packetizer.new ≡ P.sender packetizer.old) }
        ensures kept { IfErr result (λ e. e ≢ PacketError.Memory → sender.new ≡ sender.old) }
    {
        if packetizer.is_own_payload(mtu - 1, sample) {
            return Ok(self.wrap_own(packetizer, sender, pt, mtu, sample, spare)?);
        }
        let packets = packetizer.packetize(self.alloc, mtu - 1, sample)?;
        Ok(self.wrap_all(packetizer, sender, pt, mtu, &packets, spare)?)
    }
}

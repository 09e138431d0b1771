//! Samples that a stream sends.

ghost use Rattle.std.specs.Prelude.{◌≡◌, ◌≢◌, ◌<◌, ◌^◌, [], Some, None, OnOk, OnErr, IfOk, IfErr};
ghost use Rattle.rtp_media_streams.specs.SendSteps.{SendsBy, left_in, returned, send_step};
ghost use Rattle.rtp_media_streams.specs.Sending.{datagrams_from, packed, payload_refusal, payloads_at};
ghost use Rattle.rtp_media_streams.specs.Sending.{refusal_before_payload, sent, still_kept, timestamp, wire_payloads};
ghost use Rattle.rtp_media_streams.specs.Sending.{with_next};

use super::{END_OF_NUMBERS, SendingStream};
use crate::datagram::Datagram;
use crate::errors::SampleError;
use crate::making::Making;
use crate::row_format::rtp_rate_of;
use crate::spare::Spare;
use payload_core_base::{PacketError, Packetizer};
use rtp_wire::{ExtensionValues, MediaTime};
use std::mem;

impl SendingStream {
    /// The datagrams of a sample, each of at most `limit` bytes with a payload of at most `mtu`: its
    /// packets one after the other, under consecutive numbers and one timestamp, each with all values
    /// that the stream's map has a number for. With redundancy a packet is one byte shorter at most, and
    /// follows older ones. A sample without packets has none and uses no number.
    ///
    /// # Errors
    /// The first that holds of `StreamFailed`, `TimeTooLarge`, `LimitTooSmall` and `Payload` (the codec
    /// doesn't take the sample), which change nothing; or `Memory`, and the stream sends no more.
    pub fn push_sample(
        &mut self,
        time: MediaTime,
        bytes: &[u8],
        values: &ExtensionValues,
    ) -> Result<Vec<Datagram>, SampleError>
        ensures sends { SendsBy (send_step self.old time values.now bytes.now) self.new (returned result) }
    {
        let mut datagrams = Vec::new(self.alloc);
        self.push_sample_into(time, bytes, values, &mut datagrams)?;
        Ok(datagrams)
    }

    /// The datagrams of a sample, as [`SendingStream::push_sample`] gives them, in place of what a list has. The memory
    /// of the list is used again, and that of its last datagram for a sample that is one payload, without redundancy:
    /// a caller that hands the same list over each time then asks for no memory.
    ///
    /// # Errors
    /// Those of [`SendingStream::push_sample`]; the list is then empty.
    pub fn push_sample_into(
        &mut self,
        time: MediaTime,
        bytes: &[u8],
        values: &ExtensionValues,
        datagrams: &mut Vec<Datagram>,
    ) -> Result<(), SampleError>
        ensures sends { SendsBy (send_step self.old time values.now bytes.now) self.new
            (left_in datagrams.new.items result) }
        ensures empty { OnErr result (datagrams.new.items ≡ []) }
    {
        let earlier = mem::replace(datagrams, Vec::new(self.alloc));
        let spare = Spare::from_datagrams(self.alloc, earlier);
        *datagrams = self.sent_in(time, bytes, values, spare)?;
        Ok(())
    }

    /// The datagrams of a sample, in this memory.
    fn sent_in(
        &mut self,
        time: MediaTime,
        bytes: &[u8],
        values: &ExtensionValues,
        spare: Spare,
    ) -> Result<Vec<Datagram>, SampleError>
        ensures sends { SendsBy (send_step self.old time values.now bytes.now) self.new (returned result) }
    {
        let time = self.timestamp(time, values)?;
        match self.datagrams(time, bytes, values, spare) {
            Ok(datagrams) => {
                self.next += datagrams.len() as u64;
                Ok(datagrams)
            }
            Err(e) => match e {
                PacketError::Memory => {
                    self.failed = true;
                    Err(SampleError::Memory)
                }
                refusal => Err(SampleError::Payload(refusal)),
            },
        }
    }

    /// The timestamp of a sample, or why it is refused whatever its bytes are.
    fn timestamp(&self, time: MediaTime, values: &ExtensionValues) -> Result<u32, SampleError>
        ensures word { IfOk result (λ word. word ≡ timestamp self.now time) }
        ensures accepted { OnOk result (refusal_before_payload self.now time values.now ≡ None) }
        ensures next { OnOk result (self.now.next < 2 ^ 62) }
        ensures refused { IfErr result (λ e. (e ≢ SampleError.Memory)
            × (refusal_before_payload self.now time values.now ≡ Some e)) }
    {
        if self.failed || self.next >= END_OF_NUMBERS {
            return Err(SampleError::StreamFailed);
        }
        let rate = rtp_rate_of(self.row.codec, self.row.clock_rate);
        let time = time.checked_rebase(rate).ok_or(SampleError::TimeTooLarge)?;
        let header_len = self.stamp.two_byte_len(values);
        if self.limit < header_len || self.limit - header_len < self.mtu {
            return Err(SampleError::LimitTooSmall);
        }
        Ok((time.numer() % 0x1_0000_0000) as u32)
    }

    /// The datagrams of a sample of this timestamp, in this memory.
    fn datagrams(
        &mut self,
        time: u32,
        bytes: &[u8],
        values: &ExtensionValues,
        spare: Spare,
    ) -> Result<Vec<Datagram>, PacketError>
        requires { self.old.next < 2 ^ 62 }
        ensures sent { IfOk result (λ ds. ds.items
            ≡ datagrams_from self.old self.old.next (wire_payloads self.old
            (payloads_at self.old time values.now bytes.now))) }
        ensures kept { let kept = still_kept self.old.types.pt self.old.redundancy
            (payloads_at self.old time values.now bytes.now) in
            OnOk result (self.new ≡ with_next self.old self.old.next (sent self.old bytes.now).sender kept) }
        ensures accepted { OnOk result (payload_refusal (packed self.old bytes.now) ≡ None) }
        ensures refused { IfErr result (λ e. e ≢ PacketError.Memory → payload_refusal (packed self.old bytes.now)
            ≡ Some (SampleError.Payload e)) }
        ensures unchanged { IfErr result (λ e. e ≢ PacketError.Memory → self.new ≡ self.old) }
        ensures others { self.new ≡ with_next self.old self.old.next self.new.packetizer self.new.redundancy }
    {
        let making = Making {
            alloc: self.alloc,
            stamp: &self.stamp,
            first: self.next,
            time,
            values,
        };
        let Some(sender) = &mut self.redundancy else {
            return making.plain(&mut self.packetizer, self.mtu, bytes, spare);
        };
        let pt = self.types.pt.get();
        making.redundant(&mut self.packetizer, sender, pt, self.mtu, bytes, spare)
    }
}

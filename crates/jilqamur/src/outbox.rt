//! A sending stream by codec.

ghost use Rattle.std.specs.Prelude.{◌≡◌, ◌≢◌, length, IfOk, IfErr, OnOk};
ghost use Rattle.std.specs.List.{slice_get};
ghost use Rattle.jilqamur.specs.Codes.{ok, nothing};
ghost use Rattle.jilqamur.specs.Copies.{IsFetched};
ghost use Rattle.jilqamur.specs.Outboxes.{new_outbox, is_out_of_range, sender_outcome, Pushes};

use crate::answers::sample_code;
use crate::codes;
use crate::format::{WireFormat, read_format};
use crate::stream_fetch::datagram_at;
use crate::values::if_given;
use rtp_media_streams::{Datagram, PayloadTypes, SendingStream};
use rtp_wire::{ExtensionMap, ExtensionValues, MediaTime, Pt, Ssrc};
use std::alloc::Global;
use std::marker::Model;

/// How a sending stream by codec numbers and cuts its samples.
#[repr(C)]
#[derive(Clone, Copy, Drop)]
pub struct WireSender {
    /// The stream's source.
    pub ssrc: u32,
    /// The payload type, 0 to 127.
    pub payload_type: u8,
    /// The first sequence number.
    pub first: u64,
    /// The most bytes of a payload, at least 1.
    pub mtu: usize,
    /// The maximum datagram size in bytes.
    pub limit: usize,
    /// Whether VP8's frames have picture ids (RFC 7741 4.2); VP9's always do.
    pub has_picture_id: bool,
    /// The first picture id, at most 32,767; without `has_picture_id` VP9 begins at 0.
    pub picture_id: u16,
    /// Whether payloads use the options that browsers need.
    pub for_browsers: bool,
}

/// A sending stream, and the datagrams that its last sample left.
#[derive(Drop)]
pub struct Outbox {
    stream: SendingStream,
    datagrams: Vec<Datagram>,
}

impl Model for Outbox {
    ghost use Rattle.jilqamur.specs.Outboxes.{OutboxState};

    ghost Value = { OutboxState };

    ghost view = { λ p. record { stream = p.stream; datagrams = p.datagrams.items } };
}

fn is_out_of_range(sender: &WireSender) -> bool
    ensures { result ≡ is_out_of_range sender.now }
{
    sender.payload_type > 127 || sender.mtu == 0 || sender.picture_id > 32767
}

impl Outbox {
    /// A stream that sent nothing, without header extensions; else `OUT_OF_RANGE` for numbers out of their ranges, or
    /// why the format is none.
    ///
    /// # Errors
    ///
    /// `OUT_OF_RANGE` for numbers out of their ranges; else why the format is none, as `read_format` says it.
    pub fn new(
        alloc: Global,
        sender: &WireSender,
        format: &WireFormat,
        codec: &[u8],
    ) -> Result<Outbox, u32>
        ensures new { IfOk result (λ p. p ≡ new_outbox sender.now format.now codec.now) }
        ensures accepted { OnOk result (sender_outcome sender.now format.now codec.now ≡ ok) }
        ensures refused { IfErr result (λ code. code ≡ sender_outcome sender.now format.now codec.now) }
        ensures refusal { IfErr result (λ code. code ≢ ok) }
    {
        if is_out_of_range(sender) {
            return Err(codes::OUT_OF_RANGE);
        }
        let row = match read_format(format, codec) {
            Ok(row) => row,
            Err(code) => return Err(code),
        };
        let types = PayloadTypes {
            pt: Pt::from(sender.payload_type),
            red: None,
            repair: None,
        };
        let stream = SendingStream::new(
            alloc,
            Ssrc::from(sender.ssrc),
            types,
            ExtensionMap::empty(),
            row,
            if_given(sender.has_picture_id, sender.picture_id),
            sender.for_browsers,
            sender.first,
            sender.mtu,
            sender.limit,
        );
        Ok(Outbox {
            stream,
            datagrams: Vec::new(alloc),
        })
    }

    /// Sends a sample under a time in ticks of the stream's clock, and returns `OK`: its datagrams are left to be
    /// fetched in place of those before, and `count` is how many there are. Else the first that holds of
    /// `STREAM_FAILED`, `TIME_TOO_LARGE`, `LIMIT_TOO_SMALL` and `PAYLOAD`, and nothing has changed; or `MEMORY`, and
    /// the stream sends no more.
    pub fn push_sample(&mut self, ticks: u64, sample: &[u8], count: &mut usize) -> u32
        ensures answer { Pushes self.old ticks sample.now result self.new }
        ensures count { count.new ≡ length self.new.datagrams }
    {
        let time = MediaTime::new(ticks, self.stream.clock_rate());
        let answer = self
            .stream
            .push_sample(time, sample, &ExtensionValues::absent());
        let code = match answer {
            Ok(sent) => {
                self.datagrams = sent;
                codes::OK
            }
            Err(error) => sample_code(error),
        };
        *count = self.datagrams.len();
        code
    }

    /// Copies the datagram with this index (from 0) left by the last sample, and returns `OK`; or
    /// `TOO_SMALL`, leaving the buffer unchanged, with `needed` its length in bytes. `NOTHING` if
    /// there is no such datagram.
    pub fn datagram(&self, index: usize, buffer: &mut [u8], needed: &mut usize) -> u32
        ensures bytes { IsFetched (slice_get self.now.datagrams index) buffer.old result needed.new buffer.new }
        ensures nothing { result ≡ nothing → needed.new ≡ needed.old }
    {
        datagram_at(&self.datagrams, index, buffer, needed)
    }
}

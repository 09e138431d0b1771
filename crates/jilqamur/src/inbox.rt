//! A receiving stream by codec.

ghost use Rattle.std.specs.Prelude.{◌≡◌, ◌≢◌, IfOk, IfErr, OnErr, OnOk};
ghost use Rattle.payload_core_buffer.specs.Buffered.{holding_of};
ghost use Rattle.rtp_media_streams.specs.Missing.{missing};
ghost use Rattle.rtp_media_streams.specs.Receiving.{arrived, taken_number, with_stream};
ghost use Rattle.rtp_wire.specs.Values.{absent};
ghost use Rattle.jilqamur.specs.Codes.{ok};
ghost use Rattle.jilqamur.specs.Formats.{inbox_outcome};
ghost use Rattle.jilqamur.specs.Inboxes.{new_inbox, passed_inbox, limited_inbox, Takes, Polls, Drains};

use crate::answers::poll_code;
use crate::codes;
use crate::format::{WireFormat, read_format};
use payload_core_buffer::{Unit, is_valid_capacity};
use rtp_media_streams::{PayloadTypes, Placed, ReceivingStream};
use rtp_wire::{ExtensionMap, Pt, SeqNo, Ssrc};
use std::alloc::{AllocError, Global};
use std::marker::Model;

/// A receiving stream, and the unit that a poll left last.
#[derive(Drop)]
pub struct Inbox {
    stream: ReceivingStream,
    unit: Option<Unit>,
}

impl Model for Inbox {
    ghost use Rattle.jilqamur.specs.Inboxes.{InboxState};
    ghost use Rattle.std.specs.Prelude.{◌≡◌};
    ghost use Rattle.rtp_wire.specs.Maps.{empty_map};
    ghost use Rattle.rtp_wire.specs.Replay.{window_code};
    ghost use Rattle.std.specs.Coded.{codes};

    ghost Value = { InboxState };

    ghost coded = { Prim.hlevel (codes, window_code) };

    ghost view = { λ p. record { stream = p.stream; unit = p.unit } };

    ghost invariant = { λ p. p.stream.map ≡ empty_map };
}

impl Inbox {
    /// A stream that took nothing. Past a missing packet a unit is handed out only once more than `hold_back` frames
    /// are complete. At most `held` packets wait.
    ///
    /// # Errors
    ///
    /// `OUT_OF_RANGE` if `held` isn't 4,096 to 16,384, or why the format is none, as `read_format` says it.
    pub fn new(
        alloc: Global,
        format: &WireFormat,
        codec: &[u8],
        hold_back: usize,
        held: usize,
    ) -> Result<Inbox, u32>
        ensures new { IfOk result (λ p. p ≡ new_inbox format.now codec.now (holding_of hold_back held)) }
        ensures accepted { OnOk result (inbox_outcome format.now codec.now held ≡ ok) }
        ensures refused { IfErr result (λ code. code ≡ inbox_outcome format.now codec.now held) }
        ensures refusal { IfErr result (λ code. code ≢ ok) }
    {
        if !is_valid_capacity(held) {
            return Err(codes::OUT_OF_RANGE);
        }
        let row = match read_format(format, codec) {
            Ok(row) => row,
            Err(code) => return Err(code),
        };
        let types = PayloadTypes {
            pt: Pt::from(0),
            red: None,
            repair: None,
        };
        let exts = ExtensionMap::empty();
        let ssrc = Ssrc::from(0);
        let stream = ReceivingStream::new(alloc, ssrc, types, exts, row, hold_back, held);
        Ok(Inbox { stream, unit: None })
    }

    /// A payload without a header, so that nothing of it is read as values of header extensions.
    fn take(
        &mut self,
        low: u16,
        time: u32,
        marker: bool,
        payload: &[u8],
    ) -> Result<Option<SeqNo>, AllocError>
        ensures answer { IfOk result (λ taken. taken ≡ taken_number self.old.stream.stream low) }
        ensures after { OnOk result (self.new.stream ≡ with_stream self.old.stream
            (arrived self.old.stream.stream low time marker absent payload.now)) }
        ensures unchanged { OnErr result (self.new.stream ≡ self.old.stream) }
        ensures unit { self.new.unit ≡ self.old.unit }
    {
        let placed = Placed {
            low,
            time,
            marker,
            start: 0,
            end: payload.len(),
        };
        self.stream.receive(&placed, payload)
    }

    /// Takes a packet by the low 16 bits of its number, its timestamp, marker bit and payload
    /// (maybe empty), and returns `OK`: `number` is its widened number, which is recorded.
    /// `REFUSED` if it came before, or is 1,024 or more below the greatest; or `MEMORY`; then
    /// nothing has changed.
    pub fn push(
        &mut self,
        low: u16,
        time: u32,
        marker: bool,
        payload: &[u8],
        number: &mut u64,
    ) -> u32
        ensures answer { Takes self.old low time marker payload.now result number.new self.new }
        ensures number { result ≢ ok → number.new ≡ number.old }
    {
        match self.take(low, time, marker, payload) {
            Ok(Some(taken)) => {
                *number = taken.get();
                codes::OK
            }
            Ok(None) => codes::REFUSED,
            Err(_) => codes::MEMORY,
        }
    }

    /// Returns `OK` if a unit is ready, which is left to be fetched. `NOTHING` if none is, `PAYLOAD` if a
    /// packet of the next frame is refused, which is then done with, or `MEMORY`, and the frame stays.
    pub fn poll(&mut self) -> u32
        ensures answer { Polls self.old result self.new }
        ensures kept { result ≢ ok → self.new.unit ≡ self.old.unit }
    {
        let answer = self.stream.poll();
        poll_code(answer, &mut self.unit)
    }

    /// The same, whether or not a packet before the lowest complete unit is missing.
    pub fn drain(&mut self) -> u32
        ensures answer { Drains self.old result self.new }
        ensures kept { result ≢ ok → self.new.unit ≡ self.old.unit }
    {
        let answer = self.stream.drain();
        poll_code(answer, &mut self.unit)
    }

    /// Is done with all numbers up to this one, as [`ReceivingStream::pass_to`] says.
    pub fn pass_to(&mut self, number: SeqNo)
        ensures { self.new ≡ passed_inbox number self.old }
    {
        self.stream.pass_to(number);
    }

    /// Keeps what waits within a limit of bytes, as [`ReceivingStream::keep_within`] says.
    pub fn keep_within(&mut self, bytes: usize)
        ensures { self.new ≡ limited_inbox bytes self.old }
    {
        self.stream.keep_within(bytes);
    }

    /// The missing numbers, as [`ReceivingStream::missing`] says.
    ///
    /// # Errors
    ///
    /// Out of memory for the list.
    pub fn missing(&self) -> Result<Vec<SeqNo>, AllocError>
        ensures { IfOk result (λ numbers. numbers.items ≡ missing self.now.stream.stream) }
    {
        self.stream.missing()
    }

    /// The unit that a poll left last.
    pub fn left(&self) -> &Option<Unit>
        ensures { result.now ≡ self.now.unit }
    {
        &self.unit
    }
}

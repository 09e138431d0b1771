//! Receiving streams.

ghost use Rattle.std.specs.Prelude.{◌≡◌, ◌≤◌, IfErr, IfOk, IfSome, MatchOption, slice_range, vec_len, OnErr, OnOk};
ghost use Rattle.std.specs.Prelude.{None, Some, false, length, true};
ghost use Rattle.h26x_payload.specs.Codings.{has_format};
ghost use Rattle.rtp_wire.specs.Header.{has_extension_in, header_in};
ghost use Rattle.rtp_wire.specs.Maps.{empty_map};
ghost use Rattle.rtp_wire.specs.Replay.{greatest_in, is_accepted, recorded_in};
ghost use Rattle.rtp_wire.specs.Widening.{widened};
ghost use Rattle.payload_core_buffer.specs.Buffered.{holding_of, is_valid_capacity, pushed};
ghost use Rattle.rtp_media_schedules.specs.Hearing.{content_of, packet_of};
ghost use Rattle.payload_core_buffer.specs.Steps.{AnswersBy, as_answer};
ghost use Rattle.rtp_media_streams.specs.Polls.{IsPolled, IsPolledSome, drain_step, found, poll_step};
ghost use Rattle.rtp_media_streams.specs.Receiving.{arrived, brought, conflicts_with, is_own, opened_receiver};
ghost use Rattle.rtp_media_streams.specs.Receiving.{number_taken, stream_of, taken_number, values_read};
ghost use Rattle.rtp_media_streams.specs.Receiving.{with_stream};
ghost use Rattle.rtp_media_streams.specs.Rows.{format_of};

mod missing;

use crate::codecs::depacketizer_for;
use crate::errors::PollFault;
use crate::payload::locate_payload;
use crate::row_format::RowFormat;
use crate::types::PayloadTypes;
use h26x_payload::{CodecDepacketizer, NotBoxed};
use payload_core_base::{Depacketizer, PacketError};
use payload_core_buffer::{DepacketizingBuffer, HeldMeta, KeptValues, Unit};
use rtp_wire::{
    ExtensionMap, ExtensionValues, Pt, RtpHeader, SeqNo, SeqNoWindow, Ssrc, extend_u16,
};
use std::alloc::{AllocError, AllocFailed, Global};
use std::marker::Model;

/// A datagram of a stream's own as it arrives: what its header tells, and where in it the payload is.
#[derive(Clone, Copy, Debug, Drop)]
pub struct Arrival {
    /// The low 16 bits of its number.
    pub low: u16,
    /// Its timestamp, in ticks of the payload type's clock (RFC 3550 5.1).
    pub time: u32,
    /// Its marker.
    pub marker: bool,
    /// The values of its header extensions.
    pub ext_vals: ExtensionValues,
    /// Where its payload begins.
    pub start: usize,
    /// The place after the payload's last byte.
    pub end: usize,
}

/// Where in a datagram of a stream's own its payload is, and what its header tells but for header extensions.
#[derive(Clone, Copy, Debug, Drop)]
pub struct Placed {
    /// The low 16 bits of its number.
    pub low: u16,
    /// Its timestamp, in ticks of the payload type's clock (RFC 3550 5.1).
    pub time: u32,
    /// Its marker.
    pub marker: bool,
    /// Where its payload begins.
    pub start: usize,
    /// The place after the payload's last byte.
    pub end: usize,
}

impl Placed {
    /// What is held of it under a number, with these values.
    #[inline]
    fn meta(&self, number: SeqNo, ext_vals: KeptValues) -> HeldMeta
        ensures { result ≡ record {
          seq_no = number;
          time = self.now.time;
          marker = self.now.marker;
          ext_vals = ext_vals;
        } }
    {
        HeldMeta {
            seq_no: number,
            time: self.time,
            marker: self.marker,
            ext_vals,
        }
    }

    /// It with the values of its header extensions.
    pub fn with_values(&self, ext_vals: ExtensionValues) -> Arrival
        ensures { result ≡ record {
          low = self.now.low;
          time = self.now.time;
          marker = self.now.marker;
          ext_vals = ext_vals;
          start = self.now.start;
          end = self.now.end;
        } }
    {
        Arrival {
            low: self.low,
            time: self.time,
            marker: self.marker,
            ext_vals,
            start: self.start,
            end: self.end,
        }
    }
}

/// A receiving stream: its window and the packets that wait.
pub struct ReceivingStream {
    alloc: Global,
    ssrc: Ssrc,
    types: PayloadTypes,
    exts: ExtensionMap,
    row: RowFormat,
    window: Option<SeqNoWindow>,
    buffer: DepacketizingBuffer<CodecDepacketizer<NotBoxed>>,
}

/// Written by hand, so that crates that drop this type need no proof about its fields.
impl Drop for ReceivingStream {
    fn drop(self) {
        let ReceivingStream {
            alloc: _alloc,
            ssrc: _ssrc,
            types: _types,
            exts: _exts,
            row: _row,
            window: _window,
            buffer: _buffer,
        } = self;
    }
}

impl Model for ReceivingStream {
    ghost use Rattle.std.specs.Prelude.{◌≡◌, true};
    ghost use Rattle.h26x_payload.specs.Codings.{has_format};
    ghost use Rattle.rtp_media_streams.specs.Receiving.{Receiving, stream_of};
    ghost use Rattle.rtp_media_streams.specs.Rows.{format_of};
    ghost use Rattle.rtp_wire.specs.Replay.{window_code};
    ghost use Rattle.std.specs.Coded.{codes};

    ghost Value = { Receiving };

    ghost coded = { Prim.hlevel (codes, window_code) };

    ghost view = { λ r. record {
      ssrc = r.ssrc;
      types = r.types;
      map = r.exts;
      row = r.row;
      stream = stream_of r.window r.buffer
          (⟦<CodecDepacketizer<NotBoxed> as Depacketizer>⟧.fragment r.buffer.depacketizer);
    } };

    ghost invariant = { λ r. (⟦<CodecDepacketizer<NotBoxed> as Depacketizer>⟧.format r.buffer.depacketizer
        ≡ format_of r.row) × (has_format r.row.codec ≡ true) };
}

/// The number that these 16 bits stand for; before the first number they stand for themselves.
#[inline]
fn number_of(window: &Option<SeqNoWindow>, low: u16) -> SeqNo
    ensures { result ≡ widened (greatest_in window.now) low }
{
    match window {
        None => SeqNo::from(extend_u16(None, low)),
        Some(window) => SeqNo::from(extend_u16(Some(window.max_seq().get()), low)),
    }
}

/// Whether a number is new; the first one is.
#[inline]
fn accepts(window: &Option<SeqNoWindow>, number: SeqNo) -> bool
    ensures { result ≡ is_accepted window.now number }
{
    match window {
        None => true,
        Some(window) => window.accepts(number),
    }
}

/// Records a number; the first one makes the window.
#[inline]
fn record(window: &mut Option<SeqNoWindow>, number: SeqNo)
    ensures { window.new ≡ Some (recorded_in window.old number) }
{
    match window {
        None => *window = Some(SeqNoWindow::new(number)),
        Some(window) => window.update(number),
    }
}

/// Holds a part of these bytes as a datagram's payload under a number; the only refusal is lack of memory, which hands
/// the bytes back.
#[inline]
fn hold(
    buffer: &mut DepacketizingBuffer<CodecDepacketizer<NotBoxed>>,
    meta: HeldMeta,
    bytes: Vec<u8>,
    start: usize,
    end: usize,
) -> Result<(), AllocFailed<Vec<u8>>>
    requires in_order { start ≤ end }
    requires within { end ≤ vec_len bytes }
    ensures held { OnOk result (buffer.new ≡ record buffer.old {
      held = pushed buffer.old.holding.held buffer.old.cutoff buffer.old.held
          (packet_of meta.seq_no (content_of meta.time meta.marker meta.ext_vals
          (slice_range bytes.items start end)));
    }) }
    ensures unchanged { OnErr result (buffer.new ≡ buffer.old) }
    ensures handed_back { IfErr result (λ e. e.value ≡ bytes) }
{
    buffer.push_kept(meta, bytes, start, end)
}

/// Whether a datagram says in its first byte that its header has no extensions (RFC 3550 5.1).
#[inline]
fn lacks_extension(datagram: &[u8]) -> bool
    ensures { result ≡ true → has_extension_in datagram.now ≡ false }
{
    if datagram.is_empty() {
        return false;
    }
    datagram[0] / 16 % 2 != 1
}

/// What the buffer handed out, as a poll says it.
#[inline]
fn handed_out(popped: Result<Option<Unit>, PacketError>) -> Result<Option<Unit>, PollFault>
    ensures { found result ≡ as_answer (λ u. u) popped }
{
    match popped {
        Ok(unit) => Ok(unit),
        Err(PacketError::Memory) => Err(PollFault::Memory),
        Err(fault) => Err(PollFault::Payload(fault)),
    }
}

impl ReceivingStream {
    /// A stream of this SSRC, these payload types, this map of header extensions and this row that heard
    /// nothing. Past a missing packet a frame is handed out only once more than `hold_back` frames are
    /// complete. At most `held` packets wait.
    ///
    /// # Conditions
    /// The row's codec has a payload format: it is none of Rtx, Red, Null and Unknown. `held` is 4,096 to 16,384.
    pub fn new(
        alloc: Global,
        ssrc: Ssrc,
        types: PayloadTypes,
        exts: ExtensionMap,
        row: RowFormat,
        hold_back: usize,
        held: usize,
    ) -> Self
        requires format { has_format row.codec ≡ true }
        requires held { is_valid_capacity held ≡ true }
        ensures { result ≡ opened_receiver ssrc types exts row (holding_of hold_back held) }
    {
        let depacketizer = depacketizer_for(alloc, &row);
        ReceivingStream {
            alloc,
            ssrc,
            types,
            exts,
            row,
            window: None,
            buffer: DepacketizingBuffer::new(alloc, depacketizer, hold_back, held),
        }
    }

    /// Its SSRC.
    pub fn ssrc(&self) -> Ssrc
        ensures { result ≡ self.now.ssrc }
    {
        self.ssrc
    }

    /// Its payload types.
    pub fn types(&self) -> PayloadTypes
        ensures { result ≡ self.now.types }
    {
        self.types
    }

    /// Whether datagrams of this SSRC and payload type are its own.
    pub fn is_own(&self, ssrc: Ssrc, pt: Pt) -> bool
        ensures { result ≡ is_own self.now ssrc pt }
    {
        self.types.is_key(self.ssrc, ssrc, pt)
    }

    /// Whether its datagrams could be those of another stream of this SSRC and these payload types.
    pub fn conflicts_with(&self, ssrc: Ssrc, types: &PayloadTypes) -> bool
        ensures { result ≡ conflicts_with self.now ssrc types.now }
    {
        self.types.share_key(self.ssrc, ssrc, types)
    }

    /// A datagram of its own as it arrives: the 16 bits of a number, the place of the payload without padding (RFC 3550
    /// 5.1) and, under the RED type, without redundancy (RFC 2198), and what the header tells; a repair brings the
    /// number and the payload that it wraps (RFC 4588 4). None if the padding doesn't fit, redundancy can't be read,
    /// its primary payload has another type, or there is no byte.
    ///
    /// # Conditions
    /// The header is the one in front of the datagram, read without values of header extensions.
    #[inline]
    pub fn placed(&self, header: &RtpHeader, datagram: &[u8]) -> Option<Placed>
        requires { header_in empty_map datagram.now ≡ Some header.now }
        ensures brings { MatchOption result (brought self.now.ssrc self.now.types header.now datagram.now ≡ None)
            (λ a. brought self.now.ssrc self.now.types header.now datagram.now
            ≡ Some (record { number = a.low; payload = slice_range datagram.now a.start a.end })) }
        ensures told { IfSome result (λ a. (a.time ≡ header.now.timestamp) × (a.marker ≡ header.now.marker)) }
        ensures within { IfSome result (λ a. (a.start ≤ a.end) × (a.end ≤ length datagram.now)) }
    {
        let brought = locate_payload(self.ssrc, &self.types, header, datagram)?;
        Some(Placed {
            low: brought.number,
            time: header.timestamp,
            marker: header.marker,
            start: brought.start,
            end: brought.end,
        })
    }

    /// The values that the stream's map of header extensions reads in a datagram; none if no header is in front of it.
    pub fn values_of(&self, datagram: &[u8]) -> ExtensionValues
        ensures { result ≡ values_read self.now.map datagram.now }
    {
        match RtpHeader::parse_values(datagram, &self.exts) {
            Some(values) => values,
            None => ExtensionValues::absent(),
        }
    }

    /// The values that are read in a datagram, as they are kept.
    #[inline]
    fn values_kept(&self, datagram: &[u8]) -> Result<KeptValues, AllocError>
        ensures { IfOk result (λ k. k ≡ values_read self.now.map datagram.now) }
    {
        if lacks_extension(datagram) {
            return Ok(KeptValues::none());
        }
        KeptValues::new(self.alloc, &self.values_of(datagram))
    }

    /// Takes one datagram of its own in, and returns its widened number; None if that is refused. The payload may be
    /// empty: it is then held as any other, and its format says at a poll what it makes of it. The payload alone is
    /// copied, once, if its number is new.
    ///
    /// # Conditions
    /// The payload's place is within the datagram.
    ///
    /// # Errors
    /// Out of memory for the packet, which changes nothing.
    #[inline]
    pub fn receive(&mut self, placed: &Placed, datagram: &[u8]) -> Result<Option<SeqNo>, AllocError>
        requires in_order { placed.now.start ≤ placed.now.end }
        requires within { placed.now.end ≤ length datagram.now }
        ensures answer { IfOk result (λ taken. taken ≡ taken_number self.old.stream placed.now.low) }
        ensures after { OnOk result (self.new ≡ with_stream self.old (arrived self.old.stream placed.now.low
            placed.now.time placed.now.marker (values_read self.old.map datagram.now)
            (slice_range datagram.now placed.now.start placed.now.end))) }
        ensures unchanged { OnErr result (self.new ≡ self.old) }
    {
        let number = number_of(&self.window, placed.low);
        if !accepts(&self.window, number) {
            return Ok(None);
        }
        let payload = Vec::from_slice(self.alloc, &datagram[placed.start..placed.end])?;
        let end = payload.len();
        let meta = placed.meta(number, self.values_kept(datagram)?);
        hold(&mut self.buffer, meta, payload, 0, end)?;
        record(&mut self.window, number);
        Ok(Some(number))
    }

    /// Takes one datagram of its own in without a copy, as [`ReceivingStream::receive`].
    ///
    /// # Conditions
    /// The payload's place is within the datagram.
    ///
    /// # Errors
    /// Out of memory for the packet, which changes nothing and hands the datagram back.
    pub fn receive_owned(
        &mut self,
        placed: &Placed,
        datagram: Vec<u8>,
    ) -> Result<Option<SeqNo>, AllocFailed<Vec<u8>>>
        requires in_order { placed.now.start ≤ placed.now.end }
        requires within { placed.now.end ≤ vec_len datagram }
        ensures answer { IfOk result (λ taken. taken ≡ taken_number self.old.stream placed.now.low) }
        ensures after { OnOk result (self.new ≡ with_stream self.old (arrived self.old.stream placed.now.low
            placed.now.time placed.now.marker (values_read self.old.map datagram.items)
            (slice_range datagram.items placed.now.start placed.now.end))) }
        ensures unchanged { OnErr result (self.new ≡ self.old) }
        ensures handed_back { IfErr result (λ e. e.value ≡ datagram) }
    {
        let number = number_of(&self.window, placed.low);
        if !accepts(&self.window, number) {
            return Ok(None);
        }
        let Ok(ext_vals) = self.values_kept(&datagram) else {
            return Err(AllocFailed { value: datagram });
        };
        let meta = placed.meta(number, ext_vals);
        hold(&mut self.buffer, meta, datagram, placed.start, placed.end)?;
        record(&mut self.window, number);
        Ok(Some(number))
    }

    /// Takes the number alone of one datagram of its own, and returns it widened; None if that is refused. For a
    /// datagram that is sent on: nothing is held, and no unit will have it.
    pub fn take_number(&mut self, low: u16) -> Option<SeqNo>
        ensures answer { result ≡ taken_number self.old.stream low }
        ensures after { self.new ≡ with_stream self.old (number_taken self.old.stream low) }
    {
        let number = number_of(&self.window, low);
        if !accepts(&self.window, number) {
            return None;
        }
        record(&mut self.window, number);
        Some(number)
    }

    /// Hands out the next unit, if one is ready.
    ///
    /// # Errors
    /// `PollFault::Payload` if a packet of the next frame is refused, which is then done with, or
    /// `PollFault::Memory`, only if a frame is ready, which stays; some of its packets may have been read.
    #[inline]
    pub fn poll(&mut self) -> Result<Option<Unit>, PollFault>
        ensures answers { AnswersBy (poll_step self.old) self.new (found result) }
    {
        handed_out(self.buffer.unit_at(self.buffer.hold_back()))
    }

    /// Hands out the lowest complete unit, whether or not a datagram before it is missing: a poll that holds no
    /// complete frame back. For the end of a stream, when nothing more will come; None if no frame is complete.
    ///
    /// # Errors
    /// Those of [`ReceivingStream::poll`].
    pub fn drain(&mut self) -> Result<Option<Unit>, PollFault>
        ensures answers { AnswersBy (drain_step self.old) self.new (found result) }
    {
        handed_out(self.buffer.unit_at(0))
    }

    /// Polls until no unit is ready or memory for one runs out, and returns what the polls returned, in
    /// order.
    ///
    /// # Errors
    /// Out of memory for that list: what was polled is lost, and nothing else changes.
    pub fn poll_all(&mut self) -> Result<Vec<Result<Unit, PollFault>>, AllocError>
        ensures polled { IfOk result (λ answers. IsPolled poll_step self.old answers.items self.new) }
        ensures some { OnErr result (IsPolledSome poll_step self.old self.new) }
    {
        let mut answers = Vec::new(self.alloc);
        loop {
            match self.poll() {
                Ok(None) => return Ok(answers),
                Ok(Some(unit)) => answers.push(Ok(unit))?,
                Err(PollFault::Payload(error)) => answers.push(Err(PollFault::Payload(error)))?,
                Err(PollFault::Memory) => {
                    answers.push(Err(PollFault::Memory))?;
                    return Ok(answers);
                }
            }
        }
    }
}

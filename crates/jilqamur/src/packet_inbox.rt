//! A depacketizer of a codec, after a buffer.

ghost use Rattle.std.specs.Prelude.{◌≡◌, ◌≢◌, IfOk, IfErr, OnOk};
ghost use Rattle.jilqamur.specs.Codes.{ok, memory, nothing};
ghost use Rattle.jilqamur.specs.Copies.{IsFetched};
ghost use Rattle.payload_core_buffer.specs.Buffered.{holding_of};
ghost use Rattle.rtp_media_streams.specs.Rows.{format_of};
ghost use Rattle.jilqamur.specs.Formats.{inbox_outcome};
ghost use Rattle.jilqamur.specs.PacketInboxes.{new_packet_inbox, behind_push, PopsAt, pop_code, unit_behind};
ghost use Rattle.jilqamur.specs.PacketInboxes.{bytes_of, IsToldOf};

use crate::codes;
use crate::copying::copy_out;
use crate::faults::fault_code;
use crate::format::{WireFormat, read_format};
use crate::payload_unit::{PayloadUnit, WireUnit};
use h26x_payload::{CodecDepacketizer, NotBoxed};
use payload_core_base::{Depacketizer, PacketError};
use payload_core_buffer::{Depacketized, DepacketizingBuffer, RtpMeta, is_valid_capacity};
use rtp_media_streams::{RowFormat, depacketizer_for};
use rtp_wire::{ExtensionValues, SeqNo};
use std::alloc::Global;
use std::marker::Model;

/// A depacketizer after its buffer, and the unit that was popped last.
#[derive(Drop)]
pub struct PacketInbox {
    format: RowFormat,
    buffer: DepacketizingBuffer<CodecDepacketizer<NotBoxed>>,
    unit: Option<PayloadUnit>,
}

impl Model for PacketInbox {
    ghost use Rattle.std.specs.Prelude.{◌≡◌};
    ghost use Rattle.rtp_media_streams.specs.Rows.{format_of};
    ghost use Rattle.jilqamur.specs.PacketInboxes.{PacketInboxState};

    ghost Value = { PacketInboxState };

    ghost view = { λ p. record {
      format = p.format;
      holding = p.buffer.holding;
      held = p.buffer.held;
      cutoff = p.buffer.cutoff;
      fragment = ⟦<CodecDepacketizer<NotBoxed> as Depacketizer>⟧.fragment p.buffer.depacketizer;
      unit = p.unit;
    } };

    ghost invariant = { λ p. ⟦<CodecDepacketizer<NotBoxed> as Depacketizer>⟧.format p.buffer.depacketizer
        ≡ format_of p.format };
}

/// Keeps the unit of a pop, if there is one, and returns the pop's number.
fn pop_code(
    popped: Result<Option<Depacketized>, PacketError>,
    unit: &mut Option<PayloadUnit>,
) -> u32
    ensures code { result ≡ pop_code popped }
    ensures unit { unit.new ≡ unit_behind popped unit.old }
    ensures kept { result ≢ ok → unit.new ≡ unit.old }
{
    match popped {
        Ok(None) => codes::NOTHING,
        Ok(Some(frame)) => {
            *unit = Some(PayloadUnit::from_frame(frame));
            codes::OK
        }
        Err(error) => fault_code(error),
    }
}

impl PacketInbox {
    /// A depacketizer that took nothing. Past a missing packet a unit is handed out only once more than `hold_back`
    /// frames are complete. At most `held` packets wait.
    ///
    /// # Errors
    ///
    /// `OUT_OF_RANGE` if `held` isn't 4,096 to 16,384, or why the format is none, as `read_format` says it.
    pub fn new(
        alloc: Global,
        format: &WireFormat,
        codec: &[u8],
        hold_back: usize,
        held: usize,
    ) -> Result<PacketInbox, u32>
        ensures new { IfOk result (λ p. p ≡ new_packet_inbox format.now codec.now (holding_of hold_back held)) }
        ensures accepted { OnOk result (inbox_outcome format.now codec.now held ≡ ok) }
        ensures refused { IfErr result (λ code. code ≡ inbox_outcome format.now codec.now held) }
        ensures refusal { IfErr result (λ code. code ≢ ok) }
    {
        if !is_valid_capacity(held) {
            return Err(codes::OUT_OF_RANGE);
        }
        let format = match read_format(format, codec) {
            Ok(format) => format,
            Err(code) => return Err(code),
        };
        let depacketizer = depacketizer_for(alloc, &format);
        Ok(PacketInbox {
            format,
            buffer: DepacketizingBuffer::new(alloc, depacketizer, hold_back, held),
            unit: None,
        })
    }

    /// Takes a packet by its widened number, timestamp, marker bit and payload, and returns `OK`;
    /// or `MEMORY`, and nothing has changed. A number already held, or not above that of the last
    /// unit, is dropped; if too many packets wait, the one with the lowest number is dropped.
    pub fn push(&mut self, number: u64, time: u32, marker: bool, payload: &[u8]) -> u32
        ensures outcome { result ≢ memory → result ≡ ok }
        ensures taken { result ≡ ok → self.new ≡ behind_push self.old number time marker payload.now }
        ensures kept { result ≢ ok → self.new ≡ self.old }
    {
        let meta = RtpMeta {
            seq_no: SeqNo::from(number),
            time,
            marker,
            ext_vals: ExtensionValues::absent(),
        };
        match self.buffer.push(meta, payload) {
            Ok(()) => codes::OK,
            Err(_) => codes::MEMORY,
        }
    }

    /// Returns `OK` if a unit is due; it is left to be fetched. `NOTHING` if none is; the error
    /// number of a packet of the next frame that is refused (the frame is then dropped); or
    /// `MEMORY`, and the frame stays.
    pub fn pop(&mut self) -> u32
        ensures answer { PopsAt self.old.holding.hold_back self.old result self.new }
        ensures kept { result ≢ ok → self.new.unit ≡ self.old.unit }
    {
        let popped = self.buffer.pop();
        pop_code(popped, &mut self.unit)
    }

    /// The same, even if a packet before the first complete frame is missing.
    pub fn drain(&mut self) -> u32
        ensures answer { PopsAt 0 self.old result self.new }
        ensures kept { result ≢ ok → self.new.unit ≡ self.old.unit }
    {
        let popped = self.buffer.drain();
        pop_code(popped, &mut self.unit)
    }

    /// Copies the bytes of the unit that was popped last, and returns `OK`, or `TOO_SMALL`, and the buffer is
    /// unchanged; `needed` is their count, and `told` what is told beside. `NOTHING` before the first unit.
    pub fn unit(&self, buffer: &mut [u8], needed: &mut usize, told: &mut WireUnit) -> u32
        ensures bytes { IsFetched (bytes_of self.now.unit) buffer.old result needed.new buffer.new }
        ensures told { IsToldOf self.now.unit told.new }
        ensures nothing { result ≡ nothing → (needed.new ≡ needed.old) × (told.new ≡ told.old) }
    {
        match &self.unit {
            None => codes::NOTHING,
            Some(unit) => {
                *told = unit.told();
                copy_out(unit.bytes(), buffer, needed)
            }
        }
    }
}

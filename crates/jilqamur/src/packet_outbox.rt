//! A packetizer of a codec.

ghost use Rattle.std.specs.Prelude.{◌≡◌, ◌≢◌, ◌+◌, ◌==◌, length, map, IfOk, IfErr, OnOk, MatchOption};
ghost use Rattle.std.specs.List.{slice_get};
ghost use Rattle.h26x_payload.specs.Codings.{has_format};
ghost use Rattle.jilqamur.specs.Codes.{ok, memory, nothing};
ghost use Rattle.jilqamur.specs.Copies.{IsFetched};
ghost use Rattle.rtp_media_streams.specs.Rows.{packing_of};
ghost use Rattle.jilqamur.specs.PacketOutboxes.{new_packet_outbox, is_out_of_range, packetizer_outcome, cut};
ghost use Rattle.jilqamur.specs.PacketOutboxes.{after_cut, cut_outcome, packing_in};

use crate::codes;
use crate::copying::copy_out;
use crate::faults::fault_code;
use crate::format::{WireFormat, read_format};
use crate::values::if_given;
use h26x_payload::{CodecPacketizer, NotBoxed};
use payload_core_base::Packetizer;
use rtp_media_streams::{RowFormat, packetizer_for};
use std::alloc::Global;
use std::marker::Model;

/// How a packetizer counts pictures, and which forms it writes.
#[repr(C)]
#[derive(Clone, Copy, Drop)]
pub struct WirePacketizer {
    /// Whether VP8's frames have picture ids; VP9's always do.
    pub has_picture_id: bool,
    /// The first picture id, at most 32,767; without it VP9 begins at 0.
    pub picture_id: u16,
    /// Whether payloads use the options that browsers need.
    pub for_browsers: bool,
}

/// A packetizer, and the packets that its last sample left.
#[derive(Drop)]
pub struct PacketOutbox {
    alloc: Global,
    format: RowFormat,
    has_id: bool,
    for_browsers: bool,
    packetizer: CodecPacketizer<NotBoxed>,
    packets: Vec<Vec<u8>>,
}

impl Model for PacketOutbox {
    ghost use Rattle.std.specs.Prelude.{◌≡◌, map};
    ghost use Rattle.rtp_media_streams.specs.Rows.{packing_of};
    ghost use Rattle.jilqamur.specs.PacketOutboxes.{PacketOutboxState};

    ghost Value = { PacketOutboxState };

    ghost view = { λ p. record {
      format = p.format;
      has_id = p.has_id;
      for_browsers = p.for_browsers;
      sender = ⟦<CodecPacketizer<NotBoxed> as Packetizer>⟧.sender p.packetizer;
      packets = map (λ packet. packet.items) p.packets.items;
    } };

    ghost invariant = { λ p. ⟦<CodecPacketizer<NotBoxed> as Packetizer>⟧.packing p.packetizer
        ≡ packing_of p.format p.has_id p.for_browsers };
}

fn is_out_of_range(params: &WirePacketizer) -> bool
    ensures { result ≡ is_out_of_range params.now }
{
    params.picture_id > 32767
}

/// The marker of the packet at a place among those of its sample.
fn marker_at(
    packetizer: &mut CodecPacketizer<NotBoxed>,
    packets: &[Vec<u8>],
    index: usize,
    packet: &[u8],
) -> bool
    ensures marker { result ≡ (⟦<CodecPacketizer<NotBoxed> as Packetizer>⟧.packing packetizer.old).marks packet.now
        (index + 1 == length packets.now) }
    ensures packing { ⟦<CodecPacketizer<NotBoxed> as Packetizer>⟧.packing packetizer.new
        ≡ ⟦<CodecPacketizer<NotBoxed> as Packetizer>⟧.packing packetizer.old }
    ensures sender { ⟦<CodecPacketizer<NotBoxed> as Packetizer>⟧.sender packetizer.new
        ≡ ⟦<CodecPacketizer<NotBoxed> as Packetizer>⟧.sender packetizer.old }
{
    let previous = match index.checked_sub(1) {
        Some(before) => packets.get(before).map(|packet| packet.as_slice()),
        None => None,
    };
    let last = packets.len() > 0 && index == packets.len() - 1;
    packetizer.is_marker(packet, previous, last)
}

impl PacketOutbox {
    /// A packetizer that cut nothing; else `OUT_OF_RANGE` for a picture id out of its range, or why the format is none.
    ///
    /// # Errors
    ///
    /// `OUT_OF_RANGE` for a picture id out of its range; else why the format is none, as `read_format` says it.
    pub fn new(
        alloc: Global,
        params: &WirePacketizer,
        format: &WireFormat,
        codec: &[u8],
    ) -> Result<PacketOutbox, u32>
        ensures new { IfOk result (λ p. p ≡ new_packet_outbox params.now format.now codec.now) }
        ensures accepted { OnOk result (packetizer_outcome params.now format.now codec.now ≡ ok) }
        ensures refused { IfErr result (λ code. code ≡ packetizer_outcome params.now format.now codec.now) }
        ensures refusal { IfErr result (λ code. code ≢ ok) }
    {
        if is_out_of_range(params) {
            return Err(codes::OUT_OF_RANGE);
        }
        let format = match read_format(format, codec) {
            Ok(format) => format,
            Err(code) => return Err(code),
        };
        let picture_id = if_given(params.has_picture_id, params.picture_id);
        let packetizer = packetizer_for(&format, picture_id, params.for_browsers);
        Ok(PacketOutbox {
            alloc,
            format,
            has_id: picture_id.is_some(),
            for_browsers: params.for_browsers,
            packetizer,
            packets: Vec::new(alloc),
        })
    }

    /// Cuts a sample, and keeps its packets.
    fn cut(&mut self, mtu: usize, sample: &[u8]) -> u32
        ensures outcome { result ≢ memory → result ≡ cut_outcome (cut self.old mtu sample.now) }
        ensures after { result ≢ memory → self.new ≡ after_cut self.old (cut self.old mtu sample.now) }
        ensures kept { result ≢ ok → self.new ≡ self.old }
    {
        match self.packetizer.packetize(self.alloc, mtu, sample) {
            Ok(packets) => {
                self.packets = packets;
                codes::OK
            }
            Err(error) => fault_code(error),
        }
    }

    /// Cuts a sample into packets of at most `mtu` bytes, and returns `OK`: they are left to be fetched in place of
    /// those before, and `count` is how many there are. Else the number of why the codec refuses the sample, or
    /// `MEMORY`, and nothing has changed.
    pub fn packetize(&mut self, mtu: usize, sample: &[u8], count: &mut usize) -> u32
        ensures outcome { result ≢ memory → result ≡ cut_outcome (cut self.old mtu sample.now) }
        ensures after { result ≢ memory → self.new ≡ after_cut self.old (cut self.old mtu sample.now) }
        ensures kept { result ≢ ok → self.new ≡ self.old }
        ensures count { count.new ≡ length self.new.packets }
    {
        let code = self.cut(mtu, sample);
        *count = self.packets.len();
        code
    }

    /// Copies the packet of this place, counted from 0, that the last sample left, and returns `OK`, or `TOO_SMALL`,
    /// and the buffer is unchanged; `needed` is its length in bytes, and `marker` its marker. `NOTHING` if there is
    /// none of that place.
    pub fn packet(
        &mut self,
        index: usize,
        buffer: &mut [u8],
        needed: &mut usize,
        marker: &mut bool,
    ) -> u32
        ensures bytes { IsFetched (slice_get self.old.packets index) buffer.old result needed.new buffer.new }
        ensures marker { MatchOption (slice_get self.old.packets index) (marker.new ≡ marker.old)
            (λ packet. marker.new ≡ (packing_in self.old).marks packet (index + 1 == length self.old.packets)) }
        ensures nothing { result ≡ nothing → needed.new ≡ needed.old }
        ensures unchanged { self.new ≡ self.old }
    {
        let Some(packet) = self.packets.get(index) else {
            return codes::NOTHING;
        };
        *marker = marker_at(&mut self.packetizer, &self.packets, index, packet);
        copy_out(packet, buffer, needed)
    }
}

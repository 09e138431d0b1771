//! A packetizer and a depacketizer that are boxed by their caller.

use crate::formats::Format;
use h26x_payload::{CodecDepacketizer, CodecPacketizer};
use payload_core::{
    Codec, Depacketizer, DepacketizingBuffer, MIN_HELD, PacketList, Payloader, RtpMeta, SentPacket,
};
use rtp_wire::{ExtensionValues, SeqNo};
use words_and_replies::CommandLine;

/// `boxed CODEC NUMBERS LIMIT SAMPLE`: the payloads of a sample by a boxed packetizer, a star after
/// each with the marker bit, and the bytes that a boxed depacketizer gives for them. NUMBERS is
/// `sprop-max-don-diff` for H.265 and H.266: 0 for no decoding order numbers.
pub(crate) fn answer(line: &mut CommandLine<'_>) {
    let codec = Codec::from(line.word());
    let format = Format::new(codec, Some(line.number::<u16>()));
    let sink = send(line, &format);
    receive(line, &format, sink.packets());
}

/// What the sample of the next two words, `LIMIT SAMPLE`, is sent as.
fn send(line: &mut CommandLine<'_>, format: &Format) -> PacketList {
    let mut sink = PacketList::new(line.alloc());
    let limit = line.number::<usize>();
    let sample = line.bytes();
    let Some(packetizer) = format.packetizer() else {
        line.refuse("no payload format");
        return sink;
    };
    let Ok(packetizer) = Box::new(line.alloc(), packetizer) else {
        line.refuse("out of memory");
        return sink;
    };
    let packetizer: CodecPacketizer = CodecPacketizer::Boxed(packetizer);
    let mut payloader = Payloader::new(packetizer);
    let values = ExtensionValues::absent();
    if let Err(fault) = payloader.push_sample(line.alloc(), &mut sink, limit, 0, &sample, &values) {
        line.refuse(fault);
    }
    sink
}

/// The payloads and the bytes of their unit.
fn receive(line: &mut CommandLine<'_>, format: &Format, packets: &[SentPacket]) {
    let Some(depacketizer) = format.depacketizer(line.alloc()) else {
        return;
    };
    let Ok(depacketizer) = Box::new(line.alloc(), depacketizer) else {
        return line.refuse("out of memory");
    };
    let depacketizer: CodecDepacketizer = CodecDepacketizer::Boxed(depacketizer);
    read(line, depacketizer, packets);
}

/// The same by any depacketizer: the prover covers no buffer whose type names a boxed one.
fn read<D: Depacketizer + Drop>(
    line: &mut CommandLine<'_>,
    depacketizer: D,
    packets: &[SentPacket],
) {
    let mut buffer = DepacketizingBuffer::new(line.alloc(), depacketizer, 0, MIN_HELD);
    let mut number: u64 = 0;
    for packet in packets {
        line.put_bytes(packet.payload.as_slice());
        line.put(if packet.marker { "* " } else { " " });
        if let Err(fault) = buffer.push(meta(number, packet), packet.payload.as_slice()) {
            line.refuse(fault);
        }
        number = number.saturating_add(1);
    }
    match buffer.pop() {
        Ok(Some(unit)) => line.put_bytes(unit.bytes.as_slice()),
        Ok(None) => {}
        Err(fault) => line.refuse(fault),
    }
}

/// What is held of a packet.
fn meta(number: u64, packet: &SentPacket) -> RtpMeta {
    RtpMeta {
        seq_no: SeqNo::from(number),
        time: packet.time,
        marker: packet.marker,
        ext_vals: packet.values,
    }
}

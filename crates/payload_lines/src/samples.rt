//! Samples that are packed, and packets that are read and held.

use crate::formats::{Format, Formats};
use h26x_payload::{detect_h264_keyframe, detect_h265_keyframe, detect_h266_keyframe};
use payload_core::{
    Codec, CodecExtra, Depacketized, Depacketizer, PacketError, PacketList, Packetizer, Payloader,
    RtpMeta, SentPacket, detect_av1_keyframe, detect_vp8_keyframe,
};
use rtp_wire::{ExtensionValues, SeqNo};
use std::alloc::Global;
use words_and_replies::CommandLine;

/// `head PACKET`: whether a packet is the head of a frame.
pub(crate) fn head(line: &mut CommandLine<'_>, format: &Format) {
    let packet = line.bytes();
    if let Some(reader) = format.depacketizer(line.alloc()) {
        line.put_whether(reader.is_partition_head(&packet));
    }
}

/// `keyframe PACKET`: whether a packet shows a keyframe of a codec that has a test of that.
pub(crate) fn keyframe(line: &mut CommandLine<'_>, codec: Codec) {
    let packet = line.bytes();
    line.put_whether(match codec {
        Codec::Vp8 => detect_vp8_keyframe(&packet),
        Codec::Av1 => detect_av1_keyframe(&packet),
        Codec::H264 => detect_h264_keyframe(&packet),
        Codec::H265 => detect_h265_keyframe(&packet),
        Codec::H266 => detect_h266_keyframe(&packet),
        _ => false,
    })
}

/// Payloads, parted by blanks, and a star after each that has the marker; a dash stands for none.
fn put_payloads(line: &mut CommandLine<'_>, packets: &[SentPacket]) {
    line.put_where(packets.is_empty(), "- ");
    for sent in packets {
        line.put_bytes(sent.payload.as_slice());
        line.put_where(sent.marker, "*");
        line.put(" ");
    }
}

/// `pack LIMIT SAMPLE`: the payloads that a sample is sent as.
pub(crate) fn pack<P: Packetizer>(line: &mut CommandLine<'_>, payloader: &mut Payloader<P>) {
    let limit = line.number::<usize>();
    let sample = line.bytes();
    if line.is_refused() {
        return;
    }
    let mut sink = PacketList::new(line.alloc());
    let values = ExtensionValues::absent();
    match payloader.push_sample(line.alloc(), &mut sink, limit, 6000, &sample, &values) {
        Ok(()) => put_payloads(line, sink.packets()),
        Err(fault) => line.refuse(fault),
    }
}

/// `read PACKET ..`: the bytes that packets give, one after the other from no open fragment on, and what is told then.
pub(crate) fn read(line: &mut CommandLine<'_>, format: &Format) {
    let mut bytes = Vec::new(line.alloc());
    let mut extra = CodecExtra::None;
    let read = read_all(line, format, &mut bytes, &mut extra);
    line.put_bytes(&bytes);
    line.put(format_args!(" {extra:?}"));
    if let Err(fault) = read {
        line.put(format_args!(", then {fault:?}"));
    }
}

fn read_all(
    line: &mut CommandLine<'_>,
    format: &Format,
    bytes: &mut Vec<u8>,
    extra: &mut CodecExtra,
) -> Result<(), PacketError> {
    let Some(mut reader) = format.depacketizer(line.alloc()) else {
        return Ok(());
    };
    for word in line.rest().split_whitespace() {
        reader.depacketize(&line.bytes_of(word), bytes, extra)?;
    }
    Ok(())
}

/// `push NUMBER TIME PACKET`: the packet is held, with the marker if a star follows it.
pub(crate) fn pushed(line: &mut CommandLine<'_>, formats: &mut Formats) {
    let meta = RtpMeta {
        seq_no: SeqNo::from(line.number::<u64>()),
        time: line.number::<u32>(),
        marker: line.rest().ends_with('*'),
        ext_vals: ExtensionValues::absent(),
    };
    let packet = line.bytes();
    if line.is_refused() {
        return;
    }
    match formats.buffer.push(meta, &packet) {
        Ok(()) => line.put("pushed"),
        Err(fault) => line.refuse(fault),
    }
}

/// The numbers of a unit's first and last packet, its time, its bytes and what is told of it; or that there is none.
pub(crate) fn unit(line: &mut CommandLine<'_>, unit: Result<Option<Depacketized>, PacketError>) {
    match unit {
        Ok(Some(unit)) => {
            let range = unit.seq_range();
            let (first, last) = (range.start().get(), range.end().get());
            line.put(format_args!("{first}..={last} at {}: ", unit.time()));
            line.put_bytes(unit.bytes.as_slice());
            line.put(format_args!(" {:?}", unit.extra))
        }
        Ok(None) => line.put("none"),
        Err(fault) => line.refuse(fault),
    }
}

/// Whether a packet is read from no open fragment on.
fn is_read(alloc: Global, format: &Format, packet: &[u8]) -> bool {
    let mut bytes = Vec::new(alloc);
    let mut extra = CodecExtra::None;
    match format.depacketizer(alloc) {
        Some(mut reader) => reader.depacketize(packet, &mut bytes, &mut extra).is_ok(),
        None => false,
    }
}

/// `short`: how many of the packets of no byte, one and two bytes are read.
pub(crate) fn short_packets(line: &mut CommandLine<'_>, format: &Format) {
    let none = u32::from(is_read(line.alloc(), format, &[]));
    let mut ones: u32 = 0;
    let mut twos: u32 = 0;
    for a in 0..=255u8 {
        ones = ones.saturating_add(u32::from(is_read(line.alloc(), format, &[a])));
        for b in 0..=255u8 {
            twos = twos.saturating_add(u32::from(is_read(line.alloc(), format, &[a, b])));
        }
    }
    line.put(format_args!("{none} of none, {ones} of one byte, {twos} of two"))
}

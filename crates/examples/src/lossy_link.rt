//! A VP8 round trip over a lossy link: frames are cut into packets, some packets are lost, and
//! whole frames come out in order. Uses the crates `anyhow`, `payload_core` and `rtp_wire`, and the
//! module `recorder` beside it.

use crate::recorder::last_frames;
use payload_core::{
    Depacketized, DepacketizingBuffer, MIN_HELD, PacketError, PacketList, Payloader, RtpMeta,
    SentPacket, SeqNo, Vp8Depacketizer, Vp8Packetizer,
};
use rtp_wire::ExtensionValues;
use std::alloc::Global;
use std::io;

/// How many frames are sent.
const FRAMES: u8 = 12;

/// How many complete frames wait for one that is missing.
const HOLD_BACK: usize = 2;

/// Prints which packets are lost, and which frames come out.
pub(crate) fn lossy_link(rt: &HostRuntime) -> anyhow::Result<()> {
    let alloc = rt.alloc();
    let packets = packets(alloc)?;
    let mut buffer = DepacketizingBuffer::new(alloc, Vp8Depacketizer::new(), HOLD_BACK, MIN_HELD);
    for (number, packet) in (0u64..).zip(&packets) {
        if is_lost(number) {
            println!(*rt; "packet {number} is lost")?;
        } else {
            print(rt, &arrive(alloc, &mut buffer, number, packet)?, "")?;
        }
    }
    Ok(print(rt, &last_frames(alloc, &mut buffer)?, ", at the end")?)
}

/// The frames that are due once the packet of this number is there.
fn arrive(
    alloc: Global,
    buffer: &mut DepacketizingBuffer<Vp8Depacketizer>,
    number: u64,
    packet: &SentPacket,
) -> Result<Vec<Depacketized>, PacketError> {
    buffer.push(meta(number, packet), &packet.payload)?;
    let mut frames = Vec::new(alloc);
    buffer.pop_all(&mut frames)?;
    Ok(frames)
}

/// A line for each frame, with this after it.
fn print(rt: &HostRuntime, frames: &[Depacketized], behind: &str) -> io::Result<()> {
    for frame in frames {
        let (time, len) = (frame.time(), frame.bytes.len());
        println!(*rt; "frame at {time}, {len} bytes{behind}")?;
    }
    Ok(())
}

/// The packets of the frames, of at most 1,200 bytes each: one frame of 2,000 bytes and more every 33 milliseconds.
fn packets(alloc: Global) -> Result<Vec<SentPacket>, PacketError> {
    let mut payloader = Payloader::new(Vp8Packetizer::with_picture_id(Some(1)));
    let mut sink = PacketList::new(alloc);
    let values = ExtensionValues::absent();
    for k in 0..FRAMES {
        let frame = vec![in alloc; k; 2000 + 100 * usize::from(k)]?;
        payloader.push_sample(alloc, &mut sink, 1200, 3000 * u32::from(k), &frame, &values)?;
    }
    Ok(sink.into_packets())
}

/// What a receiver reads from the header of the packet of this number.
fn meta(number: u64, packet: &SentPacket) -> RtpMeta {
    RtpMeta {
        seq_no: SeqNo::from(number),
        time: packet.time,
        marker: packet.marker,
        ext_vals: packet.values,
    }
}

/// Every seventh packet.
fn is_lost(number: u64) -> bool {
    number % 7 == 3
}

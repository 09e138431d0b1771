//! The frames of a stream whose datagrams are on lines. Uses the crates `anyhow`, `hex`, `payload_core` and
//! `rtp_wire`, and the module `recorder` beside it.

use crate::recorder::Recorder;
use payload_core::Depacketized;
use rtp_wire::{Pt, Ssrc};
use std::io;

/// Records the datagrams of these lines, and prints the frames in order.
pub(crate) fn record(rt: &HostRuntime, lines: &str) -> anyhow::Result<()> {
    let alloc = rt.alloc();
    let mut recorder = Recorder::new(alloc, Ssrc::from(44), Pt::from(96));
    for line in lines.lines() {
        let taken = recorder.receive(&hex::decode(alloc, line)?)?;
        println!(*rt; "{}", if taken { "taken" } else { "not taken" })?;
        print(rt, &recorder.frames(alloc)?)?;
    }
    Ok(print(rt, &recorder.last_frames(alloc)?)?)
}

/// A line for each frame.
fn print(rt: &HostRuntime, frames: &[Depacketized]) -> io::Result<()> {
    for frame in frames {
        let (numbers, time) = (frame.seq_range(), frame.time());
        let (first, last) = (numbers.start(), numbers.end());
        let bytes = hex::encode(rt.alloc(), &frame.bytes)?;
        println!(*rt; "frame of packets {first} to {last}, time {time}: {bytes}")?;
    }
    Ok(())
}

//! Two ends exchange an offer and an answer, and one sends Opus to the other. Uses the crates `anyhow`, `rtp_media` and
//! `rtp_wire`, and the module `agreeing` beside it.

use crate::agreeing::{agree, opus_end};
use anyhow::ensure;
use rtp_media::{Datagram, End, MIN_HELD, StreamParams};
use rtp_wire::{ExtensionValues, Frequency, MediaTime, Mid, Pt, Ssrc};

/// Sends three samples from one end to the other, and prints what comes of each datagram.
pub(crate) fn send_and_hear(rt: &HostRuntime) -> anyhow::Result<()> {
    let alloc = rt.alloc();
    let mut a = opus_end(alloc, 1)?;
    let mut b = opus_end(alloc, 2)?;
    agree(alloc, &mut a, &mut b)?;
    talk(rt, &mut a, &mut b)
}

/// Opens a stream at both ends, and sends three samples over it.
fn talk(rt: &HostRuntime, a: &mut End, b: &mut End) -> anyhow::Result<()> {
    let tx = open_sender(a)?;
    let rx = b.open_receiver(
        Mid::from("0"),
        Ssrc::from(44),
        Pt::from(111),
        1023,
        MIN_HELD,
    )?;
    for k in 0..3u8 {
        for datagram in &send(a, tx, k)? {
            hear(rt, b, rx, datagram)?;
        }
    }
    Ok(())
}

/// Opens a stream from the end that offered: Opus at payload type 111 of section `0`, by SSRC 44.
fn open_sender(end: &mut End) -> anyhow::Result<usize> {
    let (mid, ssrc, pt) = (Mid::from("0"), Ssrc::from(44), Pt::from(111));
    let params = StreamParams {
        first: 1000,
        mtu: 1200,
        limit: 1400,
        red: None,
        picture_id: None,
        for_browsers: false,
    };
    ensure!(
        params.is_sound(end.agreed_red(mid, pt)),
        "unsound parameters"
    );
    Ok(end.open_sender(mid, ssrc, pt, params)?)
}

/// The datagrams of the next 20 milliseconds of sound.
fn send(end: &mut End, tx: usize, k: u8) -> anyhow::Result<Vec<Datagram>> {
    ensure!(end.is_sender(tx), "no such stream");
    let time = MediaTime::new(960 * u64::from(k), Frequency::FORTY_EIGHT_KHZ);
    Ok(end.push_sample(tx, time, &[k, 2, 3], &ExtensionValues::absent())?)
}

/// Takes a datagram, and prints the unit that is due, if any.
fn hear(rt: &HostRuntime, end: &mut End, rx: usize, datagram: &Datagram) -> anyhow::Result<()> {
    let received = end.receive(datagram.as_slice())?;
    println!(*rt; "{received:?}")?;
    ensure!(end.is_receiver(rx), "no such stream");
    if let Some(unit) = end.poll(rx)? {
        let (time, bytes) = (unit.time(), unit.bytes());
        println!(*rt; "unit at {time}: {bytes:?}")?;
    }
    Ok(())
}

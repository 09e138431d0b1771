//! Two ends agree on Opus by an offer and an answer, and one sends three samples to the other.
#![tactic(auto)]

use anyhow::ensure;
use rtp_media::{
    CodecConfig, Direction, End, ExtensionMap, ExtensionValues, Frequency, MIN_HELD, MediaKind,
    MediaTime, Mid, Pt, SectionSpec, Session, SessionId, Ssrc, StreamParams, are_sound,
};
use std::alloc::{AllocError, Global};

fn main(rt: HostRuntime) -> anyhow::Result<()> {
    let alloc = rt.alloc();
    let (mut a, mut b) = (opus_end(alloc, 1)?, opus_end(alloc, 2)?);
    let (of_a, of_b) = (audio(alloc, 44)?, audio(alloc, 45)?);
    ensure!(are_sound(&of_a) && are_sound(&of_b), "unsound repairs");
    let offer = a.offer(of_a)?; // the two texts are all that travels
    let answer = b.answer(offer.as_str(), of_b)?;
    a.accept(answer.as_str())?;
    let (mid, ssrc, pt) = (Mid::from("0"), Ssrc::from(44), Pt::from(111));
    let params = StreamParams {
        first: 1000,
        mtu: 1200,
        limit: 1400,
        red: None,
        picture_id: None,
        for_browsers: false,
    };
    ensure!(params.is_sound(a.agreed_red(mid, pt)), "unsound");
    let tx = a.open_sender(mid, ssrc, pt, params)?;
    let rx = b.open_receiver(mid, ssrc, pt, 4, MIN_HELD)?;
    for k in 0..3u8 {
        ensure!(a.is_sender(tx), "no such stream");
        let time = MediaTime::new(960 * u64::from(k), Frequency::FORTY_EIGHT_KHZ);
        for datagram in &a.push_sample(tx, time, &[k, 2, 3], &ExtensionValues::absent())? {
            b.receive(datagram.as_slice())?;
            ensure!(b.is_receiver(rx), "no such stream");
            for unit in b.poll_all(rx)? {
                let unit = unit?;
                println!(rt; "at {}: {:?}", unit.time(), unit.bytes())?;
            }
        }
    }
    Ok(())
}

/// An end that has Opus at payload type 111.
fn opus_end(alloc: Global, session: u64) -> anyhow::Result<End> {
    let mut config = CodecConfig::empty(alloc);
    config.enable_opus(true, false)?;
    let session = Session::new(alloc, SessionId::from(session));
    Ok(End::new(alloc, config, session, ExtensionMap::empty())?)
}

/// One section, `0`, of audio in both directions, whose SSRC this is.
fn audio(alloc: Global, ssrc: u32) -> Result<Vec<SectionSpec>, AllocError> {
    let section = SectionSpec {
        mid: Mid::from("0"),
        kind: MediaKind::Audio,
        dir: Direction::SendRecv,
        ssrcs: vec![in alloc; Ssrc::from(ssrc)]?,
        repairs: Vec::new(alloc),
    };
    Ok(vec![in alloc; section]?)
}

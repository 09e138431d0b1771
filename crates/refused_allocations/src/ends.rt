//! Two ends that agree on two sections, as in worked row 25, and streams that are opened.

use crate::asking::{TIMES, print_refused};
use rtp_media::{
    CodecConfig, Direction, End, EndError, ExchangeError, ExtensionMap, MIN_HELD, MediaKind, Mid,
    OpenError, Pt, SectionSpec, Session, SessionId, Ssrc, StreamParams, are_sound, connect,
};
use std::alloc::{AllocError, Global};

/// The rows of an end: VP8 and Opus.
fn rows(alloc: Global) -> Result<CodecConfig, AllocError> {
    let mut config = CodecConfig::empty(alloc);
    config.enable_vp8(true)?;
    config.enable_opus(true, false)?;
    Ok(config)
}

fn made(rt: &HostRuntime, session: u64) -> Option<End> {
    for _ in 0..TIMES {
        let Ok(config) = rows(rt.alloc()) else {
            print_refused(rt);
            continue;
        };
        let session = Session::new(rt.alloc(), SessionId::from(session));
        match End::new(rt.alloc(), config, session, ExtensionMap::empty()) {
            Ok(end) => return Some(end),
            Err(EndError::Memory) => print_refused(rt),
            Err(_) => return None,
        }
    }
    None
}

/// A section that flows both ways, of one SSRC.
fn section(
    alloc: Global,
    mid: &str,
    kind: MediaKind,
    ssrc: u32,
) -> Result<SectionSpec, AllocError> {
    let mut ssrcs = Vec::new(alloc);
    ssrcs.push(Ssrc::from(ssrc))?;
    Ok(SectionSpec {
        mid: Mid::from(mid),
        kind,
        dir: Direction::SendRecv,
        ssrcs,
        repairs: Vec::new(alloc),
    })
}

/// A section of video of an SSRC, and one of audio of the next.
fn sections(alloc: Global, ssrc: u32) -> Result<Vec<SectionSpec>, AllocError> {
    let mut all = Vec::new(alloc);
    all.push(section(alloc, "0", MediaKind::Video, ssrc)?)?;
    all.push(section(alloc, "1", MediaKind::Audio, ssrc.saturating_add(1))?)?;
    Ok(all)
}

fn gathered(rt: &HostRuntime, ssrc: u32) -> Option<Vec<SectionSpec>> {
    for _ in 0..TIMES {
        match sections(rt.alloc(), ssrc) {
            Ok(all) => return Some(all),
            Err(_) => print_refused(rt),
        }
    }
    None
}

/// Ends that agree, and the streams that can be opened then.
pub(crate) fn print_agreement(rt: &HostRuntime) -> Option<()> {
    let (mut a, mut b) = (made(rt, 1)?, made(rt, 2)?);
    print_connected(rt, &mut a, &mut b)?;
    print_sender(rt, &mut a, "0", 44, 96)?;
    print_receiver(rt, &mut b, "0", 44, 96)?;
    print_sender(rt, &mut a, "1", 45, 111)?;
    print_receiver(rt, &mut b, "1", 45, 111)
}

/// A refused exchange is asked again, once a pending offer is given up.
fn print_connected(rt: &HostRuntime, a: &mut End, b: &mut End) -> Option<()> {
    for _ in 0..TIMES {
        let (of_a, of_b) = (gathered(rt, 44)?, gathered(rt, 54)?);
        if !are_sound(of_a.as_slice()) || !are_sound(of_b.as_slice()) {
            return None;
        }
        match connect(a, b, of_a, of_b) {
            Ok((offer, answer)) => {
                let _ = println!(*rt; "{offer}{answer}");
                return Some(());
            }
            Err(ExchangeError::Memory) => print_refused(rt),
            Err(_) => return None,
        }
        let _ = a.withdraw();
    }
    None
}

fn print_sender(rt: &HostRuntime, end: &mut End, mid: &str, ssrc: u32, pt: u8) -> Option<()> {
    let (mid, pt) = (Mid::from(mid), Pt::from(pt));
    for _ in 0..TIMES {
        let params = StreamParams {
            first: 0,
            mtu: 1200,
            limit: 1400,
            red: None,
            picture_id: None,
            for_browsers: false,
        };
        if !params.is_sound(end.agreed_red(mid, pt)) {
            return None;
        }
        match end.open_sender(mid, Ssrc::from(ssrc), pt, params) {
            Ok(stream) => {
                let _ = println!(*rt; "sender {stream}");
                return Some(());
            }
            Err(OpenError::Memory) => print_refused(rt),
            Err(_) => return None,
        }
    }
    None
}

fn print_receiver(rt: &HostRuntime, end: &mut End, mid: &str, ssrc: u32, pt: u8) -> Option<()> {
    for _ in 0..TIMES {
        match end.open_receiver(
            Mid::from(mid),
            Ssrc::from(ssrc),
            Pt::from(pt),
            1023,
            MIN_HELD,
        ) {
            Ok(stream) => {
                let _ = println!(*rt; "receiver {stream}");
                return Some(());
            }
            Err(OpenError::Memory) => print_refused(rt),
            Err(_) => return None,
        }
    }
    None
}

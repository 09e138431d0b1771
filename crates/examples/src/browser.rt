//! An end answers a browser's offer of audio and data: sound both ways, data rejected. Uses the
//! crates `anyhow`, `rtp_media`, `rtp_media_browsers`, `rtp_wire` and `sdp_formats`.

use anyhow::ensure;
use rtp_media::{CodecConfig, End, Session, are_sound};
use rtp_media_browsers::{
    BrowserState, Gathering, SectionRequest, Transport, for_browser, for_end, sections_for,
};
use rtp_wire::{Direction, ExtensionMap, SessionId, Ssrc};
use sdp_formats::{Fingerprint, IceCreds, Listed, Setup, Text};
use std::alloc::{AllocError, Global};

/// The digest of the certificate.
const DIGEST: [u8; 32] = [
    0x1C, 0x9B, 0x0D, 0x4F, 0x6A, 0x2E, 0x88, 0x73, 0xC5, 0xD0, 0x11, 0x4E, 0x9F, 0x3A, 0xA6, 0xB7,
    0xD8, 0x29, 0x0C, 0x5E, 0x4B, 0x6F, 0x70, 0x81, 0xA2, 0xB3, 0xC4, 0xD5, 0xE6, 0xF7, 0x08, 0x19,
];

/// A text of the program's own.
fn text(alloc: Global, text: &str) -> Result<Text, AllocError> {
    Ok(Text::of(String::from_str(alloc, text)?))
}

/// What the transport tells of itself: here one whose certificate and credentials are known beforehand.
fn transport(alloc: Global) -> Result<Transport, AllocError> {
    let ufrag = text(alloc, "F7gI")?;
    let pass = text(alloc, "x9cml/YzichV2+XlhiMu8g")?;
    let hash_func = text(alloc, "sha-256")?;
    let bytes = Listed::of(Vec::from_slice(alloc, &DIGEST)?);
    Ok(Transport {
        creds: IceCreds { ufrag, pass },
        gathering: Gathering::Trickling,
        fingerprint: Fingerprint { hash_func, bytes },
        setup: Setup::Passive,
        is_lite: false,
    })
}

/// Sound both ways, sent under SSRC 44. A section without a request is rejected.
fn requests(alloc: Global) -> Result<Vec<SectionRequest>, AllocError> {
    let sound = SectionRequest::Accept {
        direction: Direction::SendRecv,
        ssrcs: vec![in alloc; Ssrc::from(44)]?,
        repairs: Vec::new(alloc),
    };
    Ok(vec![in alloc; sound]?)
}

/// What the browser gets for its offer. The state lasts as long as the end.
fn answered(
    alloc: Global,
    end: &mut End,
    state: &mut BrowserState,
    offer: &str,
) -> anyhow::Result<String> {
    let requests = requests(alloc)?;
    let handed = for_end(alloc, state, offer, requests.as_slice())?;
    let sections = sections_for(alloc, state, requests.as_slice())?;
    ensure!(are_sound(sections.as_slice()), "unsound repairs");
    let answer = end.answer(handed.as_str(), sections)?;
    let text = for_browser(alloc, state, answer.as_str(), &transport(alloc)?)?;
    end.take_types(text.as_str())?; // its streams go by what each section lists
    Ok(text)
}

/// Prints what a browser gets for its offer, and the name that its transport has.
pub(crate) fn print_answer(rt: &HostRuntime, offer: &str) -> anyhow::Result<()> {
    let alloc = rt.alloc();
    let session = Session::new(alloc, SessionId::from(1));
    let rows = CodecConfig::new_with_defaults(alloc)?;
    let mut end = End::new(alloc, rows, session, ExtensionMap::standard())?;
    let mut state = BrowserState::new(alloc);
    let text = answered(alloc, &mut end, &mut state, offer)?;
    print!(*rt; "{text}")?;
    if let Some(creds) = &state.remote.creds {
        println!(*rt; "the browser's name of ICE is {}", creds.ufrag)?;
    }
    Ok(())
}

//! Two ends that agree. Uses the crates `anyhow`, `rtp_media` and `rtp_wire`.

use anyhow::ensure;
use rtp_media::{CodecConfig, End, MediaKind, SectionSpec, Session, are_sound};
use rtp_wire::{Direction, ExtensionMap, Mid, SessionId, Ssrc};
use std::alloc::{AllocError, Global};

/// An end that has Opus at payload type 111.
pub(crate) fn opus_end(alloc: Global, session: u64) -> anyhow::Result<End> {
    let mut config = CodecConfig::empty(alloc);
    config.enable_opus(true, false)?;
    let session = Session::new(alloc, SessionId::from(session));
    Ok(End::new(alloc, config, session, ExtensionMap::empty())?)
}

/// One audio section `0`, both ways, with this SSRC.
fn audio(alloc: Global, ssrc: u32) -> Result<Vec<SectionSpec>, AllocError> {
    let section = SectionSpec {
        mid: Mid::from("0"),
        kind: MediaKind::Audio,
        dir: Direction::SendRecv,
        ssrcs: vec![in alloc; Ssrc::from(ssrc)]?,
        repairs: Vec::new(alloc),
    };
    Ok(vec![in alloc; section]?)
}

/// Has `a` offer and `b` answer. The two texts are all that travels.
pub(crate) fn agree(alloc: Global, a: &mut End, b: &mut End) -> anyhow::Result<()> {
    let (of_a, of_b) = (audio(alloc, 44)?, audio(alloc, 45)?);
    ensure!(are_sound(&of_a) && are_sound(&of_b), "unsound repairs");
    let offer = a.offer(of_a)?;
    let answer = b.answer(offer.as_str(), of_b)?;
    a.accept(answer.as_str())?;
    Ok(())
}

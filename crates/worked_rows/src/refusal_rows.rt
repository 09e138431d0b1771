//! What refusals carry: which row isn't plain, and that a text isn't read; and what a config says of a type.

use media_types::{Codec, MediaKind};
use rtp_media_exchange::{EndError, Exchange, ExchangeError};
use rtp_media_sections::{SectionSpec, are_sound};
use rtp_wire::{Direction, ExtensionMap, Frequency, Mid, Pt, SessionId, Ssrc};
use sdp_formats_data::{SdpError, Session};
use sdp_formats_rounds::CodecConfig;
use sdp_formats_rows::FormatParams;
use std::alloc::{AllocError, Global};

/// Each row's name, and what came of it.
pub(crate) fn refusal_rows(alloc: Global) -> [(&'static str, Option<bool>); 3] {
    [
        ("the second of two rows is not plain", not_plain(alloc)),
        ("a text without a header", unreadable(alloc)),
        ("rows by type", rows_by_type(alloc)),
    ]
}

/// Opus, and retransmissions as a row of their own, which no end agrees on.
fn not_plain(alloc: Global) -> Option<bool> {
    let refusal = refused_with(alloc, Pt::from(96), None, Codec::Rtx).ok()?;
    Some(matches!(refusal, Some(EndError::RowNotPlain(1))))
}

/// What an exchange of Opus and one more row is refused with.
fn refused_with(
    alloc: Global,
    pt: Pt,
    resend: Option<Pt>,
    codec: Codec,
) -> Result<Option<EndError>, AllocError> {
    let mut config = CodecConfig::empty(alloc);
    config.enable_opus(true, false)?;
    config.add_config(
        pt,
        resend,
        codec,
        Frequency::EIGHT_KHZ,
        None,
        FormatParams::default(),
    )?;
    Ok(made(alloc, config).err())
}

fn made(alloc: Global, config: CodecConfig) -> Result<Exchange, EndError> {
    let session = Session::new(alloc, SessionId::from(1));
    Exchange::new(alloc, config, session, ExtensionMap::empty())
}

/// An exchange of Opus alone.
fn opus(alloc: Global) -> Option<Exchange> {
    let mut config = CodecConfig::empty(alloc);
    config.enable_opus(true, false).ok()?;
    made(alloc, config).ok()
}

/// A section of this name and kind that flows both ways.
fn section(
    alloc: Global,
    mid: &str,
    kind: MediaKind,
    ssrc: u32,
) -> Result<SectionSpec, AllocError> {
    Ok(SectionSpec {
        mid: Mid::from(mid),
        kind,
        dir: Direction::SendRecv,
        ssrcs: vec![in alloc; Ssrc::from(ssrc)]?,
        repairs: Vec::new(alloc),
    })
}

/// Section `0` of audio, and section `1` of video.
fn two_sections(alloc: Global) -> Result<Vec<SectionSpec>, AllocError> {
    let mut sections = vec![in alloc; section(alloc, "0", MediaKind::Audio, 44)?]?;
    sections.push(section(alloc, "1", MediaKind::Video, 46)?)?;
    Ok(sections)
}

/// A text that begins with another line.
fn unreadable(alloc: Global) -> Option<bool> {
    let mut exchange = opus(alloc)?;
    let sections = two_sections(alloc).ok()?;
    if !are_sound(sections.as_slice()) {
        return None;
    }
    match exchange.answer("v=1\r\n", sections) {
        Err(ExchangeError::Unreadable(SdpError::ParseError(_))) => Some(true),
        _ => Some(false),
    }
}

/// For the default rows: the types are known, those of retransmissions aren't, telephone events go up to 16, and Opus
/// matches Opus.
fn rows_by_type(alloc: Global) -> Option<bool> {
    let mut config = CodecConfig::empty(alloc);
    config.enable_opus(true, false).ok()?;
    config
        .add_config(
            Pt::from(101),
            Some(Pt::from(102)),
            Codec::Tele,
            Frequency::EIGHT_KHZ,
            None,
            FormatParams::default(),
        )
        .ok()?;
    let opus = *config.params().first()?;
    let is_matched = matches!(config.match_params(opus), Some(row) if row.pt() == Pt::from(111));
    Some(
        config.has_pt(Pt::from(111))
            && !config.has_pt(Pt::from(110))
            && !config.has_pt(Pt::from(102))
            && config.tele_event_max(Pt::from(101)) == Some(16)
            && config.tele_event_max(Pt::from(111)).is_none()
            && is_matched,
    )
}

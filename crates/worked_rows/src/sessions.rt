//! Exchanges whose session has lines of its own.

use media_types::MediaKind;
use rtp_media_exchange::{EndError, Exchange};
use rtp_media_sections::{SectionSpec, are_sound};
use rtp_wire::{Direction, Extension, ExtensionMap, Mid, SessionId, Ssrc};
use sdp_formats_data::{Session, SessionAttribute};
use sdp_formats_grammar::{Listed, Text};
use sdp_formats_rounds::CodecConfig;
use sdp_formats_values::Bandwidth;
use std::alloc::{AllocError, Global};

/// An offer says the lines of its session, each at its place.
pub(crate) fn offers_say_the_lines_of_the_session(alloc: Global) -> Option<bool> {
    let mut exchange = exchange_with(alloc, SessionAttribute::IceLite).ok()?;
    let sections = sections(alloc).ok()?;
    if !are_sound(sections.as_slice()) {
        return None;
    }
    let offer = exchange.offer(sections).ok()?;
    let front =
        "v=0\r\no=str0m-0.25.0 1 2 IN IP4 0.0.0.0\r\ns=-\r\nb=AS:500\r\nt=0 0\r\na=group:BUNDLE 0\r\na=ice-lite\r\n";
    Some(offer.starts_with(front))
}

/// One section that flows both ways, of SSRC 44.
fn sections(alloc: Global) -> Result<Vec<SectionSpec>, AllocError> {
    let section = SectionSpec {
        mid: Mid::from("0"),
        kind: MediaKind::Audio,
        dir: Direction::SendRecv,
        ssrcs: vec![in alloc; Ssrc::from(44)]?,
        repairs: Vec::new(alloc),
    };
    Ok(vec![in alloc; section]?)
}

/// Lines of unknown kinds, and whether they would be read as a known one.
static LINES: [(&str, bool); 3] = [
    ("ice-lite", true),
    ("x\r\na=ice-lite", true),
    ("x-own:1", false),
];

/// Lines that would be read as others are refused, and no others are.
pub(crate) fn lines_that_would_be_read_otherwise_are_refused(alloc: Global) -> Option<bool> {
    let group = SessionAttribute::Group {
        typ: text(alloc, "BUNDLE").ok()?,
        mids: Listed::new(alloc),
    };
    if !is_refused(alloc, group) || is_refused(alloc, SessionAttribute::AllowMixedExts) {
        return Some(false);
    }
    for (line, is_other) in &LINES {
        let line = text(alloc, line).ok()?;
        if is_refused(alloc, SessionAttribute::Unused(line)) != *is_other {
            return Some(false);
        }
    }
    Some(true)
}

/// Texts of header extensions, and whether a line that has them would be read as another.
static URIS: [(&str, bool); 4] = [
    ("", true),
    ("urn:x y", true),
    ("urn:x\r\na=sendonly", true),
    ("urn:x", false),
];

/// Header extensions whose lines would be read as others are refused, and no others are.
pub(crate) fn extensions_that_would_be_read_otherwise_are_refused(alloc: Global) -> Option<bool> {
    for (uri, is_other) in &URIS {
        let mut exts = ExtensionMap::empty();
        exts.set(1, Extension::from_sdp_uri(alloc, uri).ok()?);
        let mut config = CodecConfig::empty(alloc);
        config.enable_opus(true, false).ok()?;
        let session = Session::new(alloc, SessionId::from(1));
        let made = Exchange::new(alloc, config, session, exts);
        if matches!(made, Err(EndError::NotWritable)) != *is_other {
            return Some(false);
        }
    }
    Some(true)
}

/// Whether no session of an exchange has this attribute.
fn is_refused(alloc: Global, attribute: SessionAttribute) -> bool {
    matches!(exchange_with(alloc, attribute), Err(EndError::NotWritable))
}

/// Exchanges of Opus whose session has this attribute.
fn exchange_with(alloc: Global, attribute: SessionAttribute) -> Result<Exchange, EndError> {
    let session = session_with(alloc, attribute)?;
    let mut config = CodecConfig::empty(alloc);
    config.enable_opus(true, false)?;
    Exchange::new(alloc, config, session, ExtensionMap::empty())
}

/// A session that has a bandwidth and this attribute.
fn session_with(alloc: Global, attribute: SessionAttribute) -> Result<Session, AllocError> {
    let attrs = Listed::of(vec![in alloc; attribute]?);
    let bandwidth = Bandwidth {
        typ: text(alloc, "AS")?,
        val: text(alloc, "500")?,
    };
    Ok(Session {
        id: SessionId::from(1),
        bw: Some(bandwidth),
        attrs,
    })
}

fn text(alloc: Global, text: &str) -> Result<Text, AllocError> {
    Ok(Text::of(String::from_str(alloc, text)?))
}

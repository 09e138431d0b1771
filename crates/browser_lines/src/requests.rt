//! Words for requests and for sections.

use rtp_media::{MediaKind, SectionSpec};
use rtp_media_browsers::{NamedRequest, SectionRequest, Target};
use rtp_wire::{Direction, Mid, Ssrc};
use std::alloc::{AllocError, Global};

/// The SSRCs of words separated by commas, such as `44` or `44+45`, where 45 is the RTX SSRC of 44;
/// none for an empty word, or if one isn't a number.
fn ssrcs(alloc: Global, word: &str) -> Result<Vec<Ssrc>, AllocError> {
    let mut ssrcs = Vec::new(alloc);
    for source in word.split(',') {
        let (number, _) = source.split_once('+').unwrap_or((source, ""));
        if let Ok(ssrc) = number.parse::<u32>() {
            ssrcs.push(Ssrc::from(ssrc))?;
        }
    }
    Ok(ssrcs)
}

/// The (SSRC, RTX SSRC) pairs in such words.
fn repairs(alloc: Global, word: &str) -> Result<Vec<(Ssrc, Ssrc)>, AllocError> {
    let mut repairs = Vec::new(alloc);
    for source in word.split(',') {
        let (number, repair) = source.split_once('+').unwrap_or((source, ""));
        if let (Ok(ssrc), Ok(repair)) = (number.parse::<u32>(), repair.parse::<u32>()) {
            repairs.push((Ssrc::from(ssrc), Ssrc::from(repair)))?;
        }
    }
    Ok(repairs)
}

/// `reject`, or a direction and SSRCs separated by a colon, such as `sendrecv:44,45`.
fn request(alloc: Global, word: &str) -> Result<SectionRequest, AllocError> {
    if word == "reject" {
        return Ok(SectionRequest::Reject);
    }
    let (direction, numbers) = word.split_once(':').unwrap_or((word, ""));
    Ok(SectionRequest::Accept {
        direction: Direction::from(direction),
        ssrcs: ssrcs(alloc, numbers)?,
        repairs: repairs(alloc, numbers)?,
    })
}

/// The requests of words with blanks between.
pub(crate) fn requests(alloc: Global, words: &str) -> Result<Vec<SectionRequest>, AllocError> {
    let mut requests = Vec::new(alloc);
    for word in words.split_whitespace() {
        requests.push(request(alloc, word)?)?;
    }
    Ok(requests)
}

/// A request for `audio`, `video` or a mid, and `=` and the request after it.
fn named_request(alloc: Global, word: &str) -> Result<NamedRequest, AllocError> {
    let (target, rest) = word.split_once('=').unwrap_or((word, ""));
    Ok(NamedRequest {
        target: match target {
            "audio" => Target::Kind(MediaKind::Audio),
            "video" => Target::Kind(MediaKind::Video),
            _ => Target::Mid(Mid::from(target)),
        },
        request: request(alloc, rest)?,
    })
}

/// The requests of words with blanks between, each with what it is for.
pub(crate) fn named_requests(alloc: Global, words: &str) -> Result<Vec<NamedRequest>, AllocError> {
    let mut requests = Vec::new(alloc);
    for word in words.split_whitespace() {
        requests.push(named_request(alloc, word)?)?;
    }
    Ok(requests)
}

/// A section: its name, `audio` or `video`, and direction and SSRCs, with colons between.
fn section(alloc: Global, word: &str) -> Result<SectionSpec, AllocError> {
    let (mid, rest) = word.split_once(':').unwrap_or((word, ""));
    let (kind, rest) = rest.split_once(':').unwrap_or((rest, ""));
    let (direction, numbers) = rest.split_once(':').unwrap_or((rest, ""));
    Ok(SectionSpec {
        mid: Mid::from(mid),
        kind: if kind == "audio" {
            MediaKind::Audio
        } else {
            MediaKind::Video
        },
        dir: Direction::from(direction),
        ssrcs: ssrcs(alloc, numbers)?,
        repairs: repairs(alloc, numbers)?,
    })
}

/// The sections of words with blanks between.
pub(crate) fn sections(alloc: Global, words: &str) -> Result<Vec<SectionSpec>, AllocError> {
    let mut sections = Vec::new(alloc);
    for word in words.split_whitespace() {
        sections.push(section(alloc, word)?)?;
    }
    Ok(sections)
}

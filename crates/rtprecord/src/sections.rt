//! Session texts as they are found: their sections of audio and video over RTP, whatever profile carries them.

use sdp_formats::LineFault;
use std::alloc::{AllocError, Global};
use thiserror::Error;

// The port that a text names if the port isn't known yet (RFC 8829 5.2.1).
const DISCARD: u16 = 9;

/// The session, or a section, of a session text.
#[derive(Drop)]
pub(crate) struct Part<'a> {
    /// The number of its first line in the text, counted from 1.
    pub(crate) number: usize,
    /// Its lines, of a section from its line `m=` on.
    pub(crate) lines: Vec<&'a str>,
}

/// A session text, cut into its sections.
#[derive(Drop)]
pub(crate) struct SessionText<'a> {
    /// How many lines are before the line `v=`, as what a program prints with it.
    pub(crate) passed_over: usize,
    /// The session, then each section.
    pub(crate) parts: Vec<Part<'a>>,
}

/// Why a section is passed over.
#[derive(Clone, Copy, Debug, Drop, Error)]
pub(crate) enum SectionFault {
    #[error("its line can't be read")]
    LineUnread,
    #[error("it is of neither audio nor video")]
    NoMedia,
    #[error("its profile isn't RTP over UDP")]
    NotRtp,
    #[error("none of its payload types is known")]
    NoneKnown,
    #[error("its payload types can't be read")]
    TypesUnread,
    #[error("it is {0}")]
    Faulty(LineFault),
}

/// What a line `m=` says (RFC 8866 5.14).
#[derive(Clone, Copy)]
pub(crate) struct MediaHead<'a> {
    pub(crate) kind: &'a str,
    pub(crate) port: u16,
    /// How many ports there are, each two above the one before.
    pub(crate) count: u16,
    pub(crate) profile: &'a str,
    /// The payload types, with a blank between them.
    pub(crate) types: &'a str,
}

/// UDP ports of a section.
#[derive(Clone, Copy)]
pub(crate) struct Ports {
    pub(crate) first: u16,
    pub(crate) count: u16,
}

impl Ports {
    /// Whether a port is one of them.
    pub(crate) fn has(self, port: u16) -> bool {
        let Some(above) = port.checked_sub(self.first) else {
            return false;
        };
        above % 2 == 0 && above / 2 < self.count
    }
}

/// Cuts a text into its sections; None if no line begins with `v=`.
pub(crate) fn cut<'a>(alloc: Global, text: &'a str) -> Result<Option<SessionText<'a>>, AllocError> {
    let mut passed_over = 0usize;
    let mut parts: Vec<Part<'a>> = Vec::new(alloc);
    for (before, line) in text.lines().enumerate() {
        let line = line.trim();
        let is_first = parts.is_empty();
        if is_first && !line.starts_with("v=") {
            passed_over = passed_over.saturating_add(1);
            continue;
        }
        if is_first || line.starts_with("m=") {
            let number = before.saturating_add(1);
            let lines = Vec::new(alloc);
            parts.push(Part { number, lines })?;
        }
        if let Some(part) = parts.last_mut() {
            part.lines.push(line)?;
        }
    }
    if parts.is_empty() {
        return Ok(None);
    }
    Ok(Some(SessionText { passed_over, parts }))
}

/// What a line `m=` says; None if it isn't one.
pub(crate) fn head_of(line: &str) -> Option<MediaHead<'_>> {
    let (kind, rest) = line.strip_prefix("m=")?.split_once(' ')?;
    let (ports, rest) = rest.split_once(' ')?;
    let (profile, types) = rest.split_once(' ')?;
    let (port, count) = ports.split_once('/').unwrap_or((ports, "1"));
    Some(MediaHead {
        kind,
        port: port.parse::<u16>().ok()?,
        count: count.parse::<u16>().ok()?,
        profile,
        types,
    })
}

impl MediaHead<'_> {
    /// Whether it is of audio or video.
    pub(crate) fn is_media(&self) -> bool {
        matches!(self.kind, "audio" | "video")
    }

    /// Whether it is RTP over UDP (RFC 3551, RFC 4585, RFC 3711, RFC 5124, RFC 5764).
    pub(crate) fn is_rtp(&self) -> bool {
        let profile = self
            .profile
            .strip_prefix("UDP/TLS/")
            .unwrap_or(self.profile);
        matches!(profile, "RTP/AVP" | "RTP/AVPF" | "RTP/SAVP" | "RTP/SAVPF")
    }

    /// Whether its payloads are encrypted on the network (RFC 3711).
    pub(crate) fn is_secure(&self) -> bool {
        self.profile.contains("SAVP")
    }
}

/// Whether one of the lines begins so.
pub(crate) fn any_begins(lines: &[&str], with: &str) -> bool {
    lines.iter().any(|line| line.starts_with(with))
}

/// The ports of a section's packets; None if the text doesn't say them, as of a section that ICE finds a path for
/// (RFC 8839), that is bundled with others (RFC 9143), or whose port is agreed later (RFC 7826 4.3).
pub(crate) fn ports_of(head: &MediaHead<'_>, session: &[&str], section: &[&str]) -> Option<Ports> {
    let finds_path = any_begins(session, "a=ice-ufrag:") || any_begins(section, "a=ice-ufrag:");
    let is_bundled = any_begins(session, "a=group:BUNDLE");
    if finds_path || is_bundled || head.port == 0 || head.port == DISCARD {
        return None;
    }
    Some(Ports {
        first: head.port,
        count: head.count,
    })
}

/// Whether a section is refused: its port is 0, it isn't offered in a bundle only, and nothing says how it is asked for
/// (RFC 3264 6, RFC 9143 6, RFC 7826 4.3).
pub(crate) fn is_refused(head: &MediaHead<'_>, session: &[&str], section: &[&str]) -> bool {
    let is_asked_for = any_begins(session, "a=control:") || any_begins(section, "a=control:");
    let is_bundle_only = section.iter().any(|line| *line == "a=bundle-only");
    head.port == 0 && !is_asked_for && !is_bundle_only
}

/// Whether a payload type is static, and known (RFC 3551 6).
fn is_static(number: &str) -> bool {
    matches!(number, "0" | "8" | "9" | "13")
}

/// The payload type that a line `a=rtpmap` is of.
fn mapped_type(line: &str) -> Option<&str> {
    let (number, _map) = line.strip_prefix("a=rtpmap:")?.split_once(' ')?;
    Some(number)
}

/// Whether a line of a section maps a type.
fn is_mapped(number: &str, section: &[&str]) -> bool {
    section.iter().any(|line| mapped_type(line) == Some(number))
}

/// A text of one section with the payload types of another, as a browser would write it.
pub(crate) fn as_browsers_write(
    alloc: Global,
    head: &MediaHead<'_>,
    section: &[&str],
) -> Result<String, AllocError> {
    let mut text = String::from_str(alloc, "v=0\r\no=- 0 0 IN IP4 0.0.0.0\r\ns=-\r\nt=0 0\r\nm=")?;
    text.push_str(head.kind)?;
    text.push_str(" 9 UDP/TLS/RTP/SAVPF")?;
    for number in head.types.split_whitespace() {
        if is_static(number) || is_mapped(number, section) {
            text.push_str(" ")?;
            text.push_str(number)?;
        }
    }
    text.push_str("\r\na=mid:0\r\na=sendrecv\r\n")?;
    for line in section {
        if line.starts_with("a=rtpmap:") || line.starts_with("a=fmtp:") {
            text.push_str(line)?;
            text.push_str("\r\n")?;
        }
    }
    Ok(text)
}

/// The sources of a line that groups a stream with its repairs (RFC 5576 4.2, RFC 4588 8.6).
pub(crate) fn repaired_pair(line: &str) -> Option<(u32, u32)> {
    let (stream, repairs) = line.strip_prefix("a=ssrc-group:FID ")?.split_once(' ')?;
    Some((
        stream.parse::<u32>().ok()?,
        repairs.trim().parse::<u32>().ok()?,
    ))
}

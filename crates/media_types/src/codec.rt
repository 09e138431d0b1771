//! Codecs and kinds of media.

ghost use Rattle.std.specs.Prelude.{◌≡◌, find};
ghost use Rattle.media_types.specs.Codecs.{codec_named, codec_name, is_audio_codec, is_video_codec};
ghost use Rattle.media_types.specs.Codecs.{is_tele_codec, kind_of_codec, kind_name, is_audio_kind};
ghost use Rattle.media_types.specs.Codecs.{is_named, is_video_kind};

use serde::{Deserialize, Serialize};
use std::fmt;

/// A codec or payload format, as `a=rtpmap` names it (RFC 8866 6.6).
#[derive(Clone, Copy, Debug, PartialEq, Eq, Drop, Serialize, Deserialize)]
pub enum Codec {
    /// Opus (RFC 7587).
    Opus,
    /// G.711 with mu-law (RFC 3551 4.5.14).
    PCMU,
    /// G.711 with A-law (RFC 3551 4.5.14).
    PCMA,
    /// G.722 (RFC 3551 4.5.2).
    G722,
    /// Comfort noise (RFC 3389).
    CN,
    /// AMR-WB (RFC 4867).
    AmrWb,
    /// H.264 (RFC 6184).
    H264,
    /// H.265 (RFC 7798).
    H265,
    /// H.266 (RFC 9328).
    H266,
    /// VP8 (RFC 7741).
    Vp8,
    /// VP9 (RFC 9628).
    Vp9,
    /// AV1.
    Av1,
    /// Telephone events (RFC 4733).
    Tele,
    /// Retransmissions (RFC 4588), in place of a codec.
    Rtx,
    /// Redundant audio (RFC 2198), in place of a codec.
    Red,
    /// No codec.
    Null,
    /// A codec of another name.
    Unknown,
}

/// Every codec.
pub const CODECS: [Codec; 17] = [
    Codec::Opus,
    Codec::PCMU,
    Codec::PCMA,
    Codec::G722,
    Codec::CN,
    Codec::AmrWb,
    Codec::H264,
    Codec::H265,
    Codec::H266,
    Codec::Vp8,
    Codec::Vp9,
    Codec::Av1,
    Codec::Tele,
    Codec::Rtx,
    Codec::Red,
    Codec::Null,
    Codec::Unknown,
];

impl Codec {
    /// Whether it codes audio. Telephone events don't.
    pub fn is_audio(&self) -> bool
        ensures { result ≡ is_audio_codec self.now }
    {
        matches!(
            self,
            Codec::Opus | Codec::PCMU | Codec::PCMA | Codec::G722 | Codec::CN | Codec::AmrWb
        )
    }

    /// Whether it codes video.
    pub fn is_video(&self) -> bool
        ensures { result ≡ is_video_codec self.now }
    {
        matches!(
            self,
            Codec::H264 | Codec::H265 | Codec::H266 | Codec::Vp8 | Codec::Vp9 | Codec::Av1
        )
    }

    /// Whether it is telephone events.
    pub fn is_tele(&self) -> bool
        ensures { result ≡ is_tele_codec self.now }
    {
        matches!(self, Codec::Tele)
    }

    /// Audio for audio codecs and telephone events, video otherwise.
    pub fn kind(&self) -> MediaKind
        ensures { result ≡ kind_of_codec self.now }
    {
        if self.is_audio() || self.is_tele() {
            MediaKind::Audio
        } else {
            MediaKind::Video
        }
    }

    /// The name that `a=rtpmap` has for it.
    pub fn as_str(&self) -> &'static str
        ensures { result.now ≡ codec_name self.now }
    {
        match self {
            Codec::Opus => "opus",
            Codec::PCMU => "PCMU",
            Codec::PCMA => "PCMA",
            Codec::G722 => "G722",
            Codec::CN => "CN",
            Codec::AmrWb => "AMR-WB",
            Codec::H264 => "H264",
            Codec::H265 => "H265",
            Codec::H266 => "H266",
            Codec::Vp8 => "VP8",
            Codec::Vp9 => "VP9",
            Codec::Av1 => "AV1",
            Codec::Tele => "telephone-event",
            Codec::Rtx => "rtx",
            Codec::Red => "red",
            Codec::Null => "null",
            Codec::Unknown => "unknown",
        }
    }

    /// Whether the text, in any ASCII case, is the codec's name; no text names `Null` or `Unknown`.
    fn is_named(self, text: &str) -> bool
        ensures { result ≡ is_named text.now self }
    {
        match self {
            Codec::Null | Codec::Unknown => false,
            _ => self.as_str().eq_ignore_ascii_case(text),
        }
    }
}

/// The first of a table whose name the text is.
fn first_named(table: &[Codec], text: &str) -> Option<Codec>
    ensures { result ≡ find (is_named text.now) table.now }
{
    table.iter().copied().find(|codec| codec.is_named(text))
}

/// The codec of a name, in any ASCII case; another text is `Unknown`.
impl From<&str> for Codec {
    ghost from_gives = { λ text codec. codec ≡ codec_named text.now };

    #[tactic(auto, unfolding(crate::specs::Codecs::codec_named))]
    fn from(text: &str) -> Codec {
        first_named(&CODECS, text).unwrap_or(Codec::Unknown)
    }
}

impl fmt::Display for Codec {
    ghost use Rattle.std.specs.Prelude.{Some};

    ghost output = { λ codec. Some (codec_name codec) };

    fn fmt<W: fmt::Write>(&self, f: &mut fmt::Formatter<W>) -> fmt::Result {
        f.write_str(self.as_str())
    }
}

/// Audio or video.
#[derive(Clone, Copy, Debug, PartialEq, Eq, Drop)]
pub enum MediaKind {
    /// Audio, telephone events included.
    Audio,
    /// Video.
    Video,
}

impl MediaKind {
    /// Whether it is audio.
    pub fn is_audio(&self) -> bool
        ensures { result ≡ is_audio_kind self.now }
    {
        matches!(self, MediaKind::Audio)
    }

    /// Whether it is video.
    pub fn is_video(&self) -> bool
        ensures { result ≡ is_video_kind self.now }
    {
        matches!(self, MediaKind::Video)
    }
}

impl fmt::Display for MediaKind {
    ghost use Rattle.std.specs.Prelude.{Some};

    ghost output = { λ kind. Some (kind_name kind) };

    fn fmt<W: fmt::Write>(&self, f: &mut fmt::Formatter<W>) -> fmt::Result {
        match self {
            MediaKind::Audio => f.write_str("audio"),
            MediaKind::Video => f.write_str("video"),
        }
    }
}

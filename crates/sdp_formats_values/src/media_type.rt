//! Kinds of sections, and how they are carried (RFC 8866 5.14).

ghost use Rattle.std.specs.Prelude.{◌≡◌, IfOk};
ghost use Rattle.sdp_formats_values.specs.MediaTypes.{is_channel, is_media, kind_of_type, proto_text};

use media_types::MediaKind;
use sdp_formats_grammar::Text;
use std::alloc::{AllocError, Global};
use std::fmt;

/// What a section carries (RFC 8866 5.14).
#[derive(Debug, Default, PartialEq, Eq, Drop)]
pub enum MediaType {
    /// `audio`
    #[default]
    Audio,
    /// `video`
    Video,
    /// `application`: a channel of data.
    Application,
    /// Anything else.
    Unknown(Text),
}

impl MediaType {
    /// Whether it is audio or video.
    pub fn is_media(&self) -> bool
        ensures { result ≡ is_media self.now }
    {
        matches!(self, MediaType::Audio | MediaType::Video)
    }

    /// The kind of media, of audio and video.
    pub fn kind(&self) -> Option<MediaKind>
        ensures { result ≡ kind_of_type self.now }
    {
        match self {
            MediaType::Audio => Some(MediaKind::Audio),
            MediaType::Video => Some(MediaKind::Video),
            MediaType::Application | MediaType::Unknown(_) => None,
        }
    }

    /// Whether it is a channel of data.
    pub fn is_channel(&self) -> bool
        ensures { result ≡ is_channel self.now }
    {
        matches!(self, MediaType::Application)
    }
}

impl MediaType {
    /// The same value again.
    ///
    /// # Errors
    ///
    /// `AllocError` if memory runs out.
    pub fn clone(&self, alloc: Global) -> Result<MediaType, AllocError>
        ensures { IfOk result (λ copy. copy ≡ self.now) }
    {
        Ok(match self {
            MediaType::Audio => MediaType::Audio,
            MediaType::Video => MediaType::Video,
            MediaType::Application => MediaType::Application,
            MediaType::Unknown(word) => MediaType::Unknown(word.clone(alloc)?),
        })
    }
}

impl fmt::Display for MediaType {
    ghost use Rattle.std.specs.Prelude.{Some};
    ghost use Rattle.sdp_formats_values.specs.MediaTypes.{media_type_text};

    ghost output = { λ t. Some (media_type_text t) };

    fn fmt<W: fmt::Write>(&self, f: &mut fmt::Formatter<W>) -> fmt::Result {
        match self {
            MediaType::Audio => f.write_str("audio"),
            MediaType::Video => f.write_str("video"),
            MediaType::Application => f.write_str("application"),
            MediaType::Unknown(word) => write!(f, "{word}"),
        }
    }
}

/// How a section is carried (RFC 8866 5.14).
#[derive(Clone, Copy, Debug, PartialEq, Eq, Default, Drop)]
pub enum Proto {
    /// `UDP/TLS/RTP/SAVPF`: RTP with feedback, encrypted (RFC 5764 8).
    #[default]
    Srtp,
    /// `UDP/DTLS/SCTP`: data channels (RFC 8841 4).
    Sctp,
}

impl Proto {
    /// The word for it in a session text.
    pub fn proto_line(&self) -> &'static str
        ensures { result.now ≡ proto_text self.now }
    {
        match self {
            Proto::Srtp => "UDP/TLS/RTP/SAVPF",
            Proto::Sctp => "UDP/DTLS/SCTP",
        }
    }
}

impl fmt::Display for Proto {
    ghost use Rattle.std.specs.Prelude.{Some};

    ghost output = { λ p. Some (proto_text p) };

    fn fmt<W: fmt::Write>(&self, f: &mut fmt::Formatter<W>) -> fmt::Result {
        f.write_str(self.proto_line())
    }
}

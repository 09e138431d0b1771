//! The header extensions that there are.

ghost use Rattle.std.specs.Prelude.{◌<◌};
ghost use Rattle.std.specs.Prelude.{◌≡◌, ℕ, List, IfOk, MatchOption, string_bytes, nat_eq};
ghost use Rattle.std.specs.Cmp.{partial_equiv_from_equiv};
ghost use Rattle.std.specs.Cmp.Lexicographic.{pointwise, nat_list_eq_equiv};
ghost use Rattle.std.specs.Cmp.Rules.{comparing};
ghost use Rattle.std.proofs.Common.{rules};
ghost use Rattle.rtp_wire.specs.Kinds.{kind_of, unknown_uri_of, same, uri_of, extension_of};

use std::alloc::{AllocError, Global};
use std::fmt;
use std::marker::Model;

const ABS_SEND_TIME: &str = "http://www.webrtc.org/experiments/rtp-hdrext/abs-send-time";

const ABS_CAPTURE_TIME: &str = "http://www.webrtc.org/experiments/rtp-hdrext/abs-capture-time";

const AUDIO_LEVEL: &str = "urn:ietf:params:rtp-hdrext:ssrc-audio-level";

const VIDEO_ORIENTATION: &str = "urn:3gpp:video-orientation";

const TRANSPORT_CC: &str =
    "http://www.ietf.org/id/draft-holmer-rmcat-transport-wide-cc-extensions-01";

const PLAYOUT_DELAY: &str = "http://www.webrtc.org/experiments/rtp-hdrext/playout-delay";

const VIDEO_CONTENT_TYPE: &str = "http://www.webrtc.org/experiments/rtp-hdrext/video-content-type";

const RTP_STREAM_ID: &str = "urn:ietf:params:rtp-hdrext:sdes:rtp-stream-id";

const REPAIRED_RTP_STREAM_ID: &str = "urn:ietf:params:rtp-hdrext:sdes:repaired-rtp-stream-id";

const RTP_MID: &str = "urn:ietf:params:rtp-hdrext:sdes:mid";

/// The URI of an extension that is not known here.
#[derive(Debug, Drop)]
pub struct Uri {
    text: String,
}

impl Model for Uri {
    ghost use Rattle.std.specs.Prelude.{List, ℕ, string_bytes};

    ghost Value = { List ℕ };

    ghost view = { λ u. string_bytes u.text };
}

impl Uri {
    /// The URI as text.
    pub fn as_str(&self) -> &str
        ensures { result.now ≡ self.now }
    {
        self.text.as_str()
    }
}

impl From<String> for Uri {
    ghost from_gives = { λ text uri. uri ≡ string_bytes text };

    fn from(text: String) -> Uri {
        Uri { text }
    }
}

impl PartialEq for Uri {
    ghost eq = { pointwise nat_eq };

    ghost laws = { partial_equiv_from_equiv nat_list_eq_equiv };

    fn eq(&self, other: &Uri) -> bool {
        self.as_str() == other.as_str()
    }
}

impl Eq for Uri {
    ghost laws = { nat_list_eq_equiv };
}

/// A header extension (RFC 8285 5): a known kind, or another that is named by its URI.
#[derive(PartialEq, Eq, Drop)]
pub enum Extension {
    /// When the packet left: `abs-send-time`.
    AbsoluteSendTime,
    /// When the frame was captured: `abs-capture-time`.
    AbsoluteCaptureTime,
    /// How loud the audio is: `ssrc-audio-level` (RFC 6464).
    AudioLevel,
    /// How the picture is turned: `video-orientation` (3GPP TS 26.114 7.4.5).
    VideoOrientation,
    /// The transport-wide sequence number: `transport-wide-cc`.
    TransportSequenceNumber,
    /// Bounds of the delay until play: `playout-delay`.
    PlayoutDelay,
    /// What the video shows: `video-content-type`.
    VideoContentType,
    /// Which stream of a media section: `sdes:rtp-stream-id` (RFC 8852 4.1).
    RtpStreamId,
    /// Which stream is repaired: `sdes:repaired-rtp-stream-id` (RFC 8852 4.2).
    RepairedRtpStreamId,
    /// Which media section: `sdes:mid` (RFC 9143 15.1).
    RtpMid,
    /// An extension that is not known here: it writes nothing and reads nothing.
    UnknownUri(Uri),
}

impl Extension {
    /// The extension that a URI names (RFC 8285 5).
    ///
    /// # Errors
    /// Out of memory for a copy of the URI, if it names no extension that is known here.
    pub fn from_sdp_uri(alloc: Global, uri: &str) -> Result<Extension, AllocError>
        ensures value { IfOk result (λ ext. ext ≡ extension_of uri.now) }
        ensures back { IfOk result (λ ext. uri_of ext ≡ uri.now) }
    {
        if let Some(known) = Extension::known(uri) {
            return Ok(known);
        }
        Ok(Extension::UnknownUri(Uri::from(String::from_str(alloc, uri)?)))
    }

    /// The known extension that a URI names.
    fn known(uri: &str) -> Option<Extension>
        ensures { MatchOption result (extension_of uri.now ≡ Extension.UnknownUri uri.now)
            (λ ext. ext ≡ extension_of uri.now) }
    {
        Some(match uri {
            ABS_SEND_TIME => Extension::AbsoluteSendTime,
            ABS_CAPTURE_TIME => Extension::AbsoluteCaptureTime,
            AUDIO_LEVEL => Extension::AudioLevel,
            VIDEO_ORIENTATION => Extension::VideoOrientation,
            TRANSPORT_CC => Extension::TransportSequenceNumber,
            PLAYOUT_DELAY => Extension::PlayoutDelay,
            VIDEO_CONTENT_TYPE => Extension::VideoContentType,
            RTP_STREAM_ID => Extension::RtpStreamId,
            REPAIRED_RTP_STREAM_ID => Extension::RepairedRtpStreamId,
            RTP_MID => Extension::RtpMid,
            _ => return None,
        })
    }

    /// The URI of the extension.
    pub fn as_uri(&self) -> &str
        ensures { result.now ≡ uri_of self.now }
    {
        match self {
            Extension::AbsoluteSendTime => ABS_SEND_TIME,
            Extension::AbsoluteCaptureTime => ABS_CAPTURE_TIME,
            Extension::AudioLevel => AUDIO_LEVEL,
            Extension::VideoOrientation => VIDEO_ORIENTATION,
            Extension::TransportSequenceNumber => TRANSPORT_CC,
            Extension::PlayoutDelay => PLAYOUT_DELAY,
            Extension::VideoContentType => VIDEO_CONTENT_TYPE,
            Extension::RtpStreamId => RTP_STREAM_ID,
            Extension::RepairedRtpStreamId => REPAIRED_RTP_STREAM_ID,
            Extension::RtpMid => RTP_MID,
            Extension::UnknownUri(uri) => uri.as_str(),
        }
    }

    /// The same extension again.
    ///
    /// # Errors
    /// `AllocError` if memory for the URI of an unknown one runs out.
    pub fn clone(&self, alloc: Global) -> Result<Extension, AllocError>
        ensures { IfOk result (λ ext. ext ≡ self.now) }
    {
        Ok(match self {
            Extension::AbsoluteSendTime => Extension::AbsoluteSendTime,
            Extension::AbsoluteCaptureTime => Extension::AbsoluteCaptureTime,
            Extension::AudioLevel => Extension::AudioLevel,
            Extension::VideoOrientation => Extension::VideoOrientation,
            Extension::TransportSequenceNumber => Extension::TransportSequenceNumber,
            Extension::PlayoutDelay => Extension::PlayoutDelay,
            Extension::VideoContentType => Extension::VideoContentType,
            Extension::RtpStreamId => Extension::RtpStreamId,
            Extension::RepairedRtpStreamId => Extension::RepairedRtpStreamId,
            Extension::RtpMid => Extension::RtpMid,
            Extension::UnknownUri(uri) => {
                Extension::UnknownUri(Uri::from(String::from_str(alloc, uri.as_str())?))
            }
        })
    }

    /// The number of a known kind; 0 for an unknown one.
    pub fn kind(&self) -> u8
        ensures value { result ≡ kind_of self.now }
        ensures few { result < 11 }
    {
        match self {
            Extension::AbsoluteSendTime => 1,
            Extension::AbsoluteCaptureTime => 2,
            Extension::AudioLevel => 3,
            Extension::VideoOrientation => 4,
            Extension::TransportSequenceNumber => 5,
            Extension::PlayoutDelay => 6,
            Extension::VideoContentType => 7,
            Extension::RtpStreamId => 8,
            Extension::RepairedRtpStreamId => 9,
            Extension::RtpMid => 10,
            Extension::UnknownUri(_) => 0,
        }
    }

    /// The URI of an unknown extension; an empty text for a known one.
    fn unknown_uri(&self) -> &str
        ensures { result.now ≡ unknown_uri_of self.now }
    {
        match self {
            Extension::UnknownUri(uri) => uri.as_str(),
            _ => "",
        }
    }

    /// Whether two extensions are the same: of one kind, or of one URI that is not known.
    pub fn is_same(&self, other: &Extension) -> bool
        ensures { result ≡ same self.now other.now }
    {
        self.kind() == other.kind() && self.unknown_uri() == other.unknown_uri()
    }
}

impl fmt::Display for Extension {
    ghost use Rattle.std.specs.Prelude.{Some};

    ghost output = { λ ext. Some (uri_of ext) };

    fn fmt<W: fmt::Write>(&self, f: &mut fmt::Formatter<W>) -> fmt::Result {
        f.write_str(self.as_uri())
    }
}

/// As it is printed.
impl fmt::Debug for Extension {
    ghost use Rattle.std.specs.Prelude.{Some};

    ghost debug_output = { λ ext. Some (uri_of ext) };

    fn fmt<W: fmt::Write>(&self, f: &mut fmt::Formatter<W>) -> fmt::Result {
        fmt::Display::fmt(self, f)
    }
}

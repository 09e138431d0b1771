//! The session: what is before the first section.

ghost use Rattle.std.specs.Prelude.{◌≡◌, [], None};

use crate::media::MediaLine;
use rtp_wire::{Mid, SessionId};
use sdp_formats_grammar::{Listed, Text};
use sdp_formats_values::{Bandwidth, Candidate, Fingerprint, Setup};
use std::alloc::Global;
use std::fmt;

/// A session text (RFC 8866 5).
#[derive(Debug, PartialEq, Eq, Drop)]
pub struct Sdp {
    /// What is before the first section.
    pub session: Session,
    /// The sections, in order.
    pub media_lines: Listed<MediaLine>,
}

/// What is before the first section.
#[derive(Debug, PartialEq, Eq)]
pub struct Session {
    /// The number of the session (RFC 8866 5.2).
    pub id: SessionId,
    /// The bandwidth, if given (RFC 8866 5.8).
    pub bw: Option<Bandwidth>,
    /// The attributes, in order (RFC 8866 5.13).
    pub attrs: Listed<SessionAttribute>,
}

/// Written by hand, so that crates that drop this type need no proof about its fields.
impl Drop for Session {
    fn drop(self) {
        let Session {
            id: _id,
            bw: _bw,
            attrs: _attrs,
        } = self;
    }
}

impl Session {
    /// A session of this number without bandwidth and attributes.
    pub fn new(alloc: Global, id: SessionId) -> Self
        ensures { result ≡ record { id = id; bw = None; attrs = [] } }
    {
        Session {
            id,
            bw: None,
            attrs: Listed::new(alloc),
        }
    }
}

/// An attribute of the session (RFC 8866 5.13).
#[derive(PartialEq, Eq)]
pub enum SessionAttribute {
    /// `a=group` (RFC 5888 5).
    Group {
        /// What the group means, as `BUNDLE` (RFC 9143).
        typ: Text,
        /// The sections.
        mids: Listed<Mid>,
    },
    /// `a=msid-semantic`
    MsidSemantic {
        /// What the streams mean, as `WMS`.
        semantic: Text,
        /// The streams.
        stream_ids: Listed<Text>,
    },
    /// `a=extmap-allow-mixed` (RFC 8285 6). It is printed; the reader gives `Unused` for it.
    AllowMixedExts,
    /// `a=ice-lite` (RFC 8839 5.3).
    IceLite,
    /// `a=ice-ufrag` (RFC 8839 5.4).
    IceUfrag(Text),
    /// `a=ice-pwd` (RFC 8839 5.4).
    IcePwd(Text),
    /// `a=ice-options` (RFC 8839 5.6).
    IceOptions(Text),
    /// `a=fingerprint` (RFC 8122 5).
    Fingerprint(Fingerprint),
    /// `a=setup` (RFC 4145 4).
    Setup(Setup),
    /// `a=candidate` (RFC 8839 5.1).
    Candidate(Candidate),
    /// `a=end-of-candidates` (RFC 8840 8.2).
    EndOfCandidates,
    /// Any other attribute: what follows `a=`.
    Unused(Text),
}

/// Written by hand, so that crates that drop this type need no proof about its fields.
impl Drop for SessionAttribute {
    fn drop(self) {
        match self {
            Self::Group {
                typ: _typ,
                mids: _mids,
            } => {}
            Self::MsidSemantic {
                semantic: _semantic,
                stream_ids: _stream_ids,
            } => {}
            Self::AllowMixedExts | Self::IceLite | Self::EndOfCandidates => {}
            Self::IceUfrag(_text) | Self::IcePwd(_text) => {}
            Self::IceOptions(_text) | Self::Unused(_text) => {}
            Self::Fingerprint(_fingerprint) => {}
            Self::Setup(_setup) => {}
            Self::Candidate(_candidate) => {}
        }
    }
}

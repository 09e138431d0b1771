//! What a browser is told of an end, beside what the end's own texts say.

use rtp_wire::Mid;
use sdp_formats_grammar::{Listed, Text};
use sdp_formats_values::Msid;

/// What a browser is told of an end in place of what the end's own texts say, which is the same for all ends.
#[derive(Debug)]
pub struct Identity {
    /// The user name of `o=`, a word; `-` for none (RFC 8866 5.2).
    pub user: Text,
    /// The CNAME of the end's sources: a name of the end's own, made anew for each session (RFC 7022 4.2).
    pub cname: Text,
    /// The media streams and tracks of sections (RFC 8830 2).
    pub tracks: Listed<Track>,
}

/// The media stream and track that a section sends.
#[derive(Debug)]
pub struct Track {
    /// The name of the section.
    pub mid: Mid,
    /// Its `a=msid`.
    pub msid: Msid,
}

/// A text for a browser, apart from its version.
#[derive(Debug)]
pub struct Said {
    /// The version of its `o=`.
    pub version: u64,
    /// The text, with version 0.
    pub text: Text,
}

/// Written by hand, so that crates that drop this type need no proof about its fields.
impl Drop for Identity {
    fn drop(self) {
        let Identity {
            user: _user,
            cname: _cname,
            tracks: _tracks,
        } = self;
    }
}

/// Written by hand, so that crates that drop this type need no proof about its fields.
impl Drop for Track {
    fn drop(self) {
        let Track {
            mid: _,
            msid: _msid,
        } = self;
    }
}

/// Written by hand, so that crates that drop this type need no proof about its fields.
impl Drop for Said {
    fn drop(self) {
        let Said {
            version: _,
            text: _text,
        } = self;
    }
}

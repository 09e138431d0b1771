//! The state remembered from a browser's texts.

ghost use Rattle.std.specs.Prelude.{◌≡◌, [], None, false};
ghost use Rattle.rtp_media_browsers.specs.Remotes.{silent};

use crate::identity::{Identity, Said};
use rtp_wire::Mid;
use sdp_formats_data::MediaLine;
use sdp_formats_grammar::Listed;
use sdp_formats_values::{Candidate, Fingerprint, IceCreds, Setup};
use std::alloc::Global;

/// The place of a section in a browser's texts.
#[derive(Debug)]
pub enum Place {
    /// The section of the end with this mid.
    Kept(Mid),
    /// A section that isn't answered, or that was stopped: what the browser gets in its place, with port 0.
    Taken(MediaLine),
    /// The same once port 0 was said and answered: an own offer puts a new section there, if it has one (RFC 8829
    /// 5.2.2).
    Free(MediaLine),
}

/// Written by hand, so that crates that drop this type need no proof about its fields.
impl Drop for Place {
    fn drop(self) {
        match self {
            Self::Kept(_name) => {}
            Self::Taken(_section) | Self::Free(_section) => {}
        }
    }
}

/// What a browser's text tells of its transport: that of the first section that the end sees, or else of the session.
#[derive(Debug)]
pub struct Remote {
    /// The credentials of connectivity checks (RFC 8839 5.4).
    pub creds: Option<IceCreds>,
    /// The fingerprint of the certificate, the preferred one of several (RFC 8122 5).
    pub fingerprint: Option<Fingerprint>,
    /// The DTLS role (RFC 8842 5).
    pub setup: Option<Setup>,
    /// The candidates, in order; each prints as `candidate:` and what `candidate_of` reads (RFC 8839 5.1).
    pub candidates: Listed<Candidate>,
    /// Whether further candidates may come later (RFC 8840 4.1).
    pub is_trickling: bool,
    /// Whether it only answers connectivity checks (ICE-lite, RFC 8839 5.3).
    pub is_lite: bool,
}

/// Written by hand, so that crates that drop this type need no proof about its fields.
impl Drop for Remote {
    fn drop(self) {
        let Remote {
            creds: _creds,
            fingerprint: _fingerprint,
            setup: _setup,
            candidates: _candidates,
            is_trickling: _,
            is_lite: _,
        } = self;
    }
}

impl Remote {
    /// Nothing is said.
    pub(crate) fn silent(alloc: Global) -> Remote
        ensures { result ≡ silent }
    {
        Remote {
            creds: None,
            fingerprint: None,
            setup: None,
            candidates: Listed::new(alloc),
            is_trickling: false,
            is_lite: false,
        }
    }
}

/// What is remembered of a browser's texts for the life of the end: the sections that the end never
/// sees keep their places in all later texts (RFC 8829 5.2.2).
#[derive(Debug)]
pub struct BrowserState {
    /// The places of the sections, in the browser's order.
    pub places: Listed<Place>,
    /// The sections of the end, in the order of its texts and each as the end was handed it last. None of them ever
    /// leaves: one that the browser or the end stopped stays, inactive (RFC 3264 8).
    pub sections: Listed<MediaLine>,
    /// Whether the browser's last offer lets one-byte and two-byte header extensions be mixed (RFC 8285 6).
    pub allows_mixed: bool,
    /// What the browser's last text tells of its transport.
    pub remote: Remote,
    /// This end's DTLS role, once it was answered: `Active` if this end opens the connection (RFC
    /// 8842 5).
    pub setup: Option<Setup>,
    /// Whether an offer of the browser waits for what the end answers.
    pub is_answering: bool,
    /// What the browser is told of the end in place of what the end's own texts say; set it before the first text.
    pub identity: Option<Identity>,
    /// The last text for the browser.
    pub said: Option<Said>,
}

/// Written by hand, so that crates that drop this type need no proof about its fields.
impl Drop for BrowserState {
    fn drop(self) {
        let BrowserState {
            places: _places,
            sections: _sections,
            allows_mixed: _,
            remote: _remote,
            setup: _,
            is_answering: _,
            identity: _identity,
            said: _said,
        } = self;
    }
}

impl BrowserState {
    /// That of an end before its first exchange: there is no section.
    pub fn new(alloc: Global) -> BrowserState
        ensures { result ≡ record {
          places = [];
          sections = [];
          allows_mixed = false;
          remote = silent;
          setup = None;
          is_answering = false;
          identity = None;
          said = None;
        } }
    {
        BrowserState {
            places: Listed::new(alloc),
            sections: Listed::new(alloc),
            allows_mixed: false,
            remote: Remote::silent(alloc),
            setup: None,
            is_answering: false,
            identity: None,
            said: None,
        }
    }
}

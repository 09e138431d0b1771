//! What an SDP says at session level, or else in its first section that says it.

ghost use Rattle.std.specs.Prelude.{◌≡◌, map};
ghost use Rattle.std.specs.Option.{option_copied};
ghost use Rattle.sdp_formats_data.specs.Creds.{creds_view};
ghost use Rattle.sdp_formats_data.specs.Transport.{creds_of, first_listed, prints_of, section_creds};
ghost use Rattle.sdp_formats_data.specs.Transport.{section_prints, section_setup, setup_of};
ghost use Rattle.sdp_formats_data.specs.Preference.{IsPreferred};
ghost use Rattle.sdp_formats_data.specs.Lookups.{first_of};

use crate::media::MediaLine;
use crate::session::Sdp;
use sdp_formats_grammar::Text;
use sdp_formats_values::{Fingerprint, Setup};

fn first_fingerprint(sections: &[MediaLine]) -> Option<&Fingerprint>
    ensures { IsPreferred (first_listed (map section_prints sections.now)) (option_copied result) }
{
    for section in sections {
        if let Some(value) = section.fingerprint() {
            return Some(value);
        }
    }
    None
}

fn first_creds(sections: &[MediaLine]) -> Option<(&Text, &Text)>
    ensures { creds_view result ≡ first_of section_creds sections.now }
{
    for section in sections {
        if let Some(value) = section.ice_creds() {
            return Some(value);
        }
    }
    None
}

fn first_setup(sections: &[MediaLine]) -> Option<Setup>
    ensures { result ≡ first_of section_setup sections.now }
{
    for section in sections {
        if let Some(value) = section.setup() {
            return Some(value);
        }
    }
    None
}

impl Sdp {
    /// The fingerprint of the certificate: the preferred one of the session's, or else of its first section that has
    /// any (RFC 8122 5).
    pub fn fingerprint(&self) -> Option<&Fingerprint>
        ensures { IsPreferred (prints_of self.now) (option_copied result) }
    {
        if let Some(value) = self.session.fingerprint() {
            return Some(value);
        }
        first_fingerprint(self.media_lines.as_slice())
    }

    /// The credentials of connectivity checks (RFC 8839 5.4).
    pub fn ice_creds(&self) -> Option<(&Text, &Text)>
        ensures { creds_view result ≡ creds_of self.now }
    {
        if let Some(value) = self.session.ice_creds() {
            return Some(value);
        }
        first_creds(self.media_lines.as_slice())
    }

    /// Which end opens the connection (RFC 4145 4).
    pub fn setup(&self) -> Option<Setup>
        ensures { result ≡ setup_of self.now }
    {
        if let Some(value) = self.session.setup() {
            return Some(value);
        }
        first_setup(self.media_lines.as_slice())
    }
}

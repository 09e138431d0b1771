//! What a session says, by its attributes.

ghost use Rattle.std.specs.Prelude.{◌≡◌, IfOk};
ghost use Rattle.std.specs.List.{filter_map, list_any};
ghost use Rattle.std.specs.Option.{option_copied};
ghost use Rattle.sdp_formats_data.specs.ListedCandidates.{borrowed, session_candidates};
ghost use Rattle.sdp_formats_data.specs.Creds.{creds_view};
ghost use Rattle.sdp_formats_data.specs.Preference.{IsPreferred, best_of};
ghost use Rattle.sdp_formats_data.specs.Sessions.{creds_of, ends_candidates, fingerprint_in, ice_pwd_in};
ghost use Rattle.sdp_formats_data.specs.Sessions.{ice_ufrag_in, is_lite, setup_in};
ghost use Rattle.sdp_formats_data.specs.Lookups.{first_of};

use crate::listed_candidates::push_of_session;
use crate::preference::chosen;
use crate::session::{Session, SessionAttribute};
use sdp_formats_grammar::Text;
use sdp_formats_values::{Candidate, Fingerprint, Setup};
use std::alloc::{AllocError, Global};

#[tactic(auto, unfolding(crate::specs::Sessions::fingerprint_in))]
fn fingerprint_in(attribute: &SessionAttribute) -> Option<&Fingerprint>
    ensures { option_copied result ≡ fingerprint_in attribute.now }
{
    match attribute {
        SessionAttribute::Fingerprint(value) => Some(value),
        _ => None,
    }
}

fn best_fingerprint(attributes: &[SessionAttribute]) -> Option<&Fingerprint>
    ensures { option_copied result ≡ best_of fingerprint_in attributes.now }
{
    let mut best = None;
    for attribute in attributes {
        best = chosen(best, fingerprint_in(attribute));
    }
    best
}

impl Session {
    /// Which end opens the connection, of the first `a=setup` (RFC 4145 4).
    #[tactic(auto, unfolding(crate::specs::Sessions::setup_in))]
    pub fn setup(&self) -> Option<Setup>
        ensures { result ≡ first_of setup_in self.now.attrs }
    {
        let attributes = self.attrs.as_slice();
        for attribute in attributes {
            if let SessionAttribute::Setup(value) = attribute {
                return Some(*value);
            }
        }
        None
    }

    /// The name of the first `a=ice-ufrag` (RFC 8839 5.4).
    #[tactic(auto, unfolding(crate::specs::Sessions::ice_ufrag_in))]
    pub fn ice_ufrag(&self) -> Option<&Text>
        ensures { option_copied result ≡ first_of ice_ufrag_in self.now.attrs }
    {
        let attributes = self.attrs.as_slice();
        for attribute in attributes {
            if let SessionAttribute::IceUfrag(value) = attribute {
                return Some(value);
            }
        }
        None
    }

    /// The password of the first `a=ice-pwd` (RFC 8839 5.4).
    #[tactic(auto, unfolding(crate::specs::Sessions::ice_pwd_in))]
    pub fn ice_pwd(&self) -> Option<&Text>
        ensures { option_copied result ≡ first_of ice_pwd_in self.now.attrs }
    {
        let attributes = self.attrs.as_slice();
        for attribute in attributes {
            if let SessionAttribute::IcePwd(value) = attribute {
                return Some(value);
            }
        }
        None
    }

    /// The preferred one of the fingerprints that `a=fingerprint` gives: the first of those with the lowest
    /// `Fingerprint::hash_preference` (RFC 8122 5).
    pub fn fingerprint(&self) -> Option<&Fingerprint>
        ensures { IsPreferred (filter_map fingerprint_in self.now.attrs) (option_copied result) }
    {
        best_fingerprint(self.attrs.as_slice())
    }

    /// The credentials of connectivity checks: the first name and the first password, if both are given (RFC 8839
    /// 5.4).
    pub fn ice_creds(&self) -> Option<(&Text, &Text)>
        ensures { creds_view result ≡ creds_of self.now.attrs }
    {
        let ufrag = self.ice_ufrag()?;
        let pass = self.ice_pwd()?;
        Some((ufrag, pass))
    }

    /// Whether no more candidates come (RFC 8840 8.2).
    #[tactic(auto, unfolding(crate::specs::Sessions::ends_candidates))]
    pub fn end_of_candidates(&self) -> bool
        ensures { result ≡ list_any ends_candidates self.now.attrs }
    {
        self.attrs.as_slice().iter().any(|attribute| matches!(
            attribute,
            SessionAttribute::EndOfCandidates
        ))
    }

    /// Whether its end answers connectivity checks alone (RFC 8839 5.3).
    #[tactic(auto, unfolding(crate::specs::Sessions::is_lite))]
    pub fn ice_lite(&self) -> bool
        ensures { result ≡ list_any is_lite self.now.attrs }
    {
        self.attrs
            .as_slice()
            .iter()
            .any(|attribute| matches!(attribute, SessionAttribute::IceLite))
    }

    /// The candidates of the session, in order (RFC 8839 5.1).
    ///
    /// # Errors
    ///
    /// `AllocError` if memory runs out.
    pub fn ice_candidates(&self, alloc: Global) -> Result<Vec<&Candidate>, AllocError>
        ensures { IfOk result (λ candidates. borrowed candidates.items ≡ session_candidates self.now) }
    {
        let mut candidates = Vec::new(alloc);
        push_of_session(&mut candidates, self.attrs.as_slice())?;
        Ok(candidates)
    }
}

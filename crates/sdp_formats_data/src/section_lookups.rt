//! What a section says, by its attributes.

ghost use Rattle.std.specs.Prelude.{◌≡◌, IfOk};
ghost use Rattle.std.specs.List.{filter_map, list_any};
ghost use Rattle.std.specs.Option.{option_copied};
ghost use Rattle.sdp_formats_data.specs.ListedCandidates.{borrowed, section_candidates};
ghost use Rattle.sdp_formats_data.specs.Creds.{creds_view};
ghost use Rattle.sdp_formats_data.specs.Preference.{IsPreferred, best_of};
ghost use Rattle.sdp_formats_data.specs.Sections.{creds_of, ends_candidates, fingerprint_in, ice_pwd_in};
ghost use Rattle.sdp_formats_data.specs.Sections.{ice_ufrag_in, max_message_size_in, sctp_init_in};
ghost use Rattle.sdp_formats_data.specs.Sections.{simulcast_in};
ghost use Rattle.sdp_formats_data.specs.Sources.{last_of};
ghost use Rattle.sdp_formats_data.specs.Lookups.{direction_of, first_of, mid_in, msid_in, setup_in};

use crate::listed_candidates::push_of_section;
use crate::media::{MediaAttribute, MediaLine};
use crate::preference::chosen;
use rtp_wire::{Direction, Mid};
use sdp_formats_grammar::Text;
use sdp_formats_values::{Candidate, Fingerprint, Msid, Setup, Simulcast};
use std::alloc::{AllocError, Global};

#[tactic(auto, unfolding(crate::specs::Sections::fingerprint_in))]
fn fingerprint_in(attribute: &MediaAttribute) -> Option<&Fingerprint>
    ensures { option_copied result ≡ fingerprint_in attribute.now }
{
    match attribute {
        MediaAttribute::Fingerprint(value) => Some(value),
        _ => None,
    }
}

fn best_fingerprint(attributes: &[MediaAttribute]) -> Option<&Fingerprint>
    ensures { option_copied result ≡ best_of fingerprint_in attributes.now }
{
    let mut best = None;
    for attribute in attributes {
        best = chosen(best, fingerprint_in(attribute));
    }
    best
}

impl MediaLine {
    /// The name of the section, of its first `a=mid` (RFC 5888 4). None if it has none, which `check_consistent`
    /// tells.
    #[tactic(auto, unfolding(crate::specs::Lookups::mid_in))]
    pub fn mid(&self) -> Option<Mid>
        ensures { result ≡ first_of mid_in self.now.attrs }
    {
        let attributes = self.attrs.as_slice();
        for attribute in attributes {
            if let MediaAttribute::Mid(mid) = attribute {
                return Some(*mid);
            }
        }
        None
    }

    /// The direction: that of the first direction attribute; `Inactive` if there is none (RFC 8866
    /// 6.7 would have a reader assume `sendrecv`).
    #[tactic(auto, unfolding(crate::specs::Lookups::direction_in))]
    pub fn direction(&self) -> Direction
        ensures { result ≡ direction_of self.now.attrs }
    {
        let attributes = self.attrs.as_slice();
        for attribute in attributes {
            match attribute {
                MediaAttribute::SendRecv => return Direction::SendRecv,
                MediaAttribute::SendOnly => return Direction::SendOnly,
                MediaAttribute::RecvOnly => return Direction::RecvOnly,
                MediaAttribute::Inactive => return Direction::Inactive,
                _ => {}
            }
        }
        Direction::Inactive
    }

    /// The names of the media stream and its track, of the first `a=msid` (RFC 8830 2).
    #[tactic(auto, unfolding(crate::specs::Lookups::msid_in))]
    pub fn msid(&self) -> Option<&Msid>
        ensures { option_copied result ≡ first_of msid_in self.now.attrs }
    {
        let attributes = self.attrs.as_slice();
        for attribute in attributes {
            if let MediaAttribute::Msid(msid) = attribute {
                return Some(msid);
            }
        }
        None
    }

    /// Which end opens the connection, of the first `a=setup` (RFC 4145 4).
    #[tactic(auto, unfolding(crate::specs::Lookups::setup_in))]
    pub fn setup(&self) -> Option<Setup>
        ensures { result ≡ first_of setup_in self.now.attrs }
    {
        let attributes = self.attrs.as_slice();
        for attribute in attributes {
            if let MediaAttribute::Setup(setup) = attribute {
                return Some(*setup);
            }
        }
        None
    }

    /// The parameters of the first `a=sctp-init`.
    #[tactic(auto, unfolding(crate::specs::Sections::sctp_init_in))]
    pub fn sctp_init(&self) -> Option<&Text>
        ensures { option_copied result ≡ first_of sctp_init_in self.now.attrs }
    {
        let attributes = self.attrs.as_slice();
        for attribute in attributes {
            if let MediaAttribute::SctpInit(value) = attribute {
                return Some(value);
            }
        }
        None
    }

    /// The name of the first `a=ice-ufrag` (RFC 8839 5.4).
    #[tactic(auto, unfolding(crate::specs::Sections::ice_ufrag_in))]
    pub fn ice_ufrag(&self) -> Option<&Text>
        ensures { option_copied result ≡ first_of ice_ufrag_in self.now.attrs }
    {
        let attributes = self.attrs.as_slice();
        for attribute in attributes {
            if let MediaAttribute::IceUfrag(value) = attribute {
                return Some(value);
            }
        }
        None
    }

    /// The password of the first `a=ice-pwd` (RFC 8839 5.4).
    #[tactic(auto, unfolding(crate::specs::Sections::ice_pwd_in))]
    pub fn ice_pwd(&self) -> Option<&Text>
        ensures { option_copied result ≡ first_of ice_pwd_in self.now.attrs }
    {
        let attributes = self.attrs.as_slice();
        for attribute in attributes {
            if let MediaAttribute::IcePwd(value) = attribute {
                return Some(value);
            }
        }
        None
    }

    /// The preferred one of the fingerprints that `a=fingerprint` gives: the first of those with the lowest
    /// `Fingerprint::hash_preference` (RFC 8122 5).
    pub fn fingerprint(&self) -> Option<&Fingerprint>
        ensures { IsPreferred (filter_map fingerprint_in self.now.attrs) (option_copied result) }
    {
        best_fingerprint(self.attrs.as_slice())
    }

    /// The layers of the last `a=simulcast`; RFC 8853 5.1 has one.
    #[tactic(auto, unfolding(crate::specs::Sections::simulcast_in))]
    pub fn simulcast(&self) -> Option<&Simulcast>
        ensures { option_copied result ≡ last_of simulcast_in self.now.attrs }
    {
        let attributes = self.attrs.as_slice();
        let mut found = None;
        for attribute in attributes {
            if let MediaAttribute::Simulcast(value) = attribute {
                found = Some(value);
            }
        }
        found
    }

    /// The number of bytes of the first `a=max-message-size` (RFC 8841 6).
    #[tactic(auto, unfolding(crate::specs::Sections::max_message_size_in))]
    pub fn max_message_size(&self) -> Option<usize>
        ensures { result ≡ first_of max_message_size_in self.now.attrs }
    {
        let attributes = self.attrs.as_slice();
        for attribute in attributes {
            if let MediaAttribute::MaxMessageSize(value) = attribute {
                return Some(*value);
            }
        }
        None
    }

    /// The credentials of connectivity checks: the first name and the first password, if both are given (RFC 8839
    /// 5.4).
    pub fn ice_creds(&self) -> Option<(&Text, &Text)>
        ensures { creds_view result ≡ creds_of self.now.attrs }
    {
        let ufrag = self.ice_ufrag()?;
        let pass = self.ice_pwd()?;
        Some((ufrag, pass))
    }

    /// Whether no more candidates come (RFC 8840 8.2).
    #[tactic(auto, unfolding(crate::specs::Sections::ends_candidates))]
    pub fn end_of_candidates(&self) -> bool
        ensures { result ≡ list_any ends_candidates self.now.attrs }
    {
        self.attrs.as_slice().iter().any(|attribute| matches!(
            attribute,
            MediaAttribute::EndOfCandidates
        ))
    }

    /// The candidates of the section, in order (RFC 8839 5.1).
    ///
    /// # Errors
    ///
    /// `AllocError` if memory runs out.
    pub fn ice_candidates(&self, alloc: Global) -> Result<Vec<&Candidate>, AllocError>
        ensures { IfOk result (λ candidates. borrowed candidates.items ≡ section_candidates self.now) }
    {
        let mut candidates = Vec::new(alloc);
        push_of_section(&mut candidates, self.attrs.as_slice())?;
        Ok(candidates)
    }
}

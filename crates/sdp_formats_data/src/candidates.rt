//! The candidates of a whole text.

ghost use Rattle.std.specs.Prelude.{◌≡◌, IfOk, OnOk};
ghost use Rattle.sdp_formats_data.specs.Candidates.{Adds, AreEachOnce, candidates_of};
ghost use Rattle.sdp_formats_data.specs.Keys.{HasKeysOf};
ghost use Rattle.sdp_formats_data.specs.ListedCandidates.{borrowed};

use crate::candidate_keys::{CandidateKey, candidate_key};
use crate::session::Sdp;
use sdp_formats_values::Candidate;
use std::alloc::{AllocError, Global};
use std::collections::BTreeSet;

/// All ICE candidates of an SDP, session-level ones first.
fn all_candidates(alloc: Global, sdp: &Sdp) -> Result<Vec<&Candidate>, AllocError>
    ensures { IfOk result (λ all. borrowed all.items ≡ candidates_of sdp.now) }
{
    let mut candidates = sdp.session.ice_candidates(alloc)?;
    let sections = sdp.media_lines.as_slice();
    for section in sections {
        let own = section.ice_candidates(alloc)?;
        candidates.extend_from_slice(own.as_slice())?;
    }
    Ok(candidates)
}

/// Adds a candidate that is in no earlier place, and its key.
fn push_new<'a>(
    once: &mut Vec<&'a Candidate>,
    keys: &mut BTreeSet<CandidateKey<'a>>,
    candidate: &'a Candidate,
) -> Result<(), AllocError>
    requires { HasKeysOf keys.old (borrowed once.old.items) }
    ensures added { OnOk result (Adds (borrowed once.old.items) candidate.now (borrowed once.new.items)) }
    ensures kept { OnOk result (HasKeysOf keys.new (borrowed once.new.items)) }
{
    if !keys.insert(candidate_key(candidate))? {
        return Ok(());
    }
    once.push(candidate)?;
    Ok(())
}

impl Sdp {
    /// The candidates of a text, of the session and then of its sections, each once, in the order in which they are
    /// first there (RFC 8839 5.1).
    ///
    /// # Errors
    ///
    /// `AllocError` if memory runs out.
    pub fn ice_candidates(&self, alloc: Global) -> Result<Vec<&Candidate>, AllocError>
        ensures { IfOk result (λ once. AreEachOnce (candidates_of self.now) (borrowed once.items)) }
    {
        let all = all_candidates(alloc, self)?;
        let mut once = Vec::new(alloc);
        let mut keys = BTreeSet::new(alloc);
        for candidate in all.as_slice() {
            push_new(&mut once, &mut keys, *candidate)?;
        }
        Ok(once)
    }
}

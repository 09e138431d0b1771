//! The candidates of sessions and sections (RFC 8839 5.1).

ghost use Rattle.std.specs.Prelude.{◌≡◌, ◌++◌, OnOk};
ghost use Rattle.std.specs.List.{filter_map};
ghost use Rattle.sdp_formats_data.specs.ListedCandidates.{borrowed, section_candidate, session_candidate};

use crate::media::MediaAttribute;
use crate::session::SessionAttribute;
use sdp_formats_values::Candidate;
use std::alloc::AllocError;

/// Adds the candidates that attributes of a session give after others.
///
/// # Errors
///
/// `AllocError` if memory runs out.
#[tactic(auto, unfolding(crate::specs::ListedCandidates::session_candidate))]
pub(crate) fn push_of_session<'a>(
    candidates: &mut Vec<&'a Candidate>,
    attributes: &'a [SessionAttribute],
) -> Result<(), AllocError>
    ensures { OnOk result (borrowed candidates.new.items
        ≡ borrowed candidates.old.items ++ filter_map session_candidate attributes.now) }
{
    for attribute in attributes {
        if let SessionAttribute::Candidate(candidate) = attribute {
            candidates.push(candidate)?;
        }
    }
    Ok(())
}

/// Adds the candidates that attributes of a section give after others.
///
/// # Errors
///
/// `AllocError` if memory runs out.
#[tactic(auto, unfolding(crate::specs::ListedCandidates::section_candidate))]
pub(crate) fn push_of_section<'a>(
    candidates: &mut Vec<&'a Candidate>,
    attributes: &'a [MediaAttribute],
) -> Result<(), AllocError>
    ensures { OnOk result (borrowed candidates.new.items
        ≡ borrowed candidates.old.items ++ filter_map section_candidate attributes.now) }
{
    for attribute in attributes {
        if let MediaAttribute::Candidate(candidate) = attribute {
            candidates.push(candidate)?;
        }
    }
    Ok(())
}

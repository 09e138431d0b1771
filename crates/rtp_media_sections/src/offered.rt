//! What an offer says.

ghost use Rattle.std.specs.Prelude.{◌≡◌, ◌++◌, IfOk, OnOk, map};
ghost use Rattle.rtp_media_sections.specs.Offered.{offered_section, plain_source, repair_source, sources_wanted};

use crate::extmaps::entries_of;
use crate::sections::{Section, Source};
use crate::wanted::SectionSpec;
use rtp_wire::{ExtensionMap, Ssrc};
use sdp_formats_rounds::CodecConfig;
use std::alloc::{AllocError, Global};

/// Sources that repair none.
fn plain_sources(alloc: Global, ssrcs: &[Ssrc]) -> Result<Vec<Source>, AllocError>
    ensures { IfOk result (λ sources. sources.items ≡ map plain_source ssrcs.now) }
{
    let mut sources = Vec::new(alloc);
    for ssrc in ssrcs {
        sources.push(Source {
            ssrc: *ssrc,
            repairs: None,
        })?;
    }
    Ok(sources)
}

fn push_repairing(sources: &mut Vec<Source>, repairs: &[(Ssrc, Ssrc)]) -> Result<(), AllocError>
    ensures { OnOk result (sources.new.items ≡ sources.old.items ++ map repair_source repairs.now) }
{
    for pair in repairs {
        sources.push(Source {
            ssrc: pair.1,
            repairs: Some(pair.0),
        })?;
    }
    Ok(())
}

/// The sources of a wanted section: its SSRCs, then their RTX SSRCs.
pub(crate) fn sources_wanted(alloc: Global, wanted: &SectionSpec) -> Result<Vec<Source>, AllocError>
    ensures { IfOk result (λ sources. sources.items ≡ sources_wanted wanted.now) }
{
    let mut sources = plain_sources(alloc, wanted.ssrcs.as_slice())?;
    push_repairing(&mut sources, wanted.repairs.as_slice())?;
    Ok(sources)
}

/// The section that an end offers: all extensions that it wants, and all rows of the kind (RFC 8829 5.2.1).
///
/// # Errors
///
/// `AllocError` if memory runs out.
#[tactic(auto, unfolding(crate::specs::Offered::offered_section))]
pub fn offered_section(
    alloc: Global,
    exts: &ExtensionMap,
    config: &CodecConfig,
    wanted: &SectionSpec,
) -> Result<Section, AllocError>
    ensures { IfOk result (λ s. s ≡ offered_section exts.now config.now.rows wanted.now) }
{
    Ok(Section {
        mid: wanted.mid,
        kind: wanted.kind,
        is_media: true,
        dir: wanted.dir,
        rows: config.all_for_kind(wanted.kind, true)?,
        extmaps: entries_of(alloc, exts)?,
        sources: sources_wanted(alloc, wanted)?,
    })
}

//! Which sources a section names.

ghost use Rattle.std.specs.Prelude.{◌≡◌, IfOk, OnOk, fold};
ghost use Rattle.std.specs.List.{filter_map};
ghost use Rattle.sdp_formats_data.specs.Distinct.{with_new, with_one};
ghost use Rattle.sdp_formats_data.specs.Seen.{AreSeen};
ghost use Rattle.sdp_formats_data.specs.Sources.{repairing_in, source_in, sources_of};

use crate::media::MediaAttribute;
use crate::said::repair_in;
use rtp_wire::Ssrc;
use std::alloc::{AllocError, Global};
use std::collections::BTreeSet;

#[tactic(auto, unfolding(crate::specs::Sources::source_in))]
fn source_in(attribute: &MediaAttribute) -> Option<Ssrc>
    ensures { result ≡ source_in attribute.now }
{
    match attribute {
        MediaAttribute::Ssrc { ssrc, .. } => Some(*ssrc),
        _ => None,
    }
}

fn repairing_in(attribute: &MediaAttribute) -> Option<Ssrc>
    ensures { result ≡ repairing_in attribute.now }
{
    let (_, repairing) = repair_in(attribute)?;
    Some(repairing)
}

/// Adds a source, if there is one that isn't there yet.
fn push_new(
    sources: &mut Vec<Ssrc>,
    seen: &mut BTreeSet<u32>,
    source: Option<Ssrc>,
) -> Result<(), AllocError>
    requires { AreSeen seen.old sources.old.items }
    ensures sources { OnOk result (sources.new.items ≡ with_one sources.old.items source) }
    ensures seen { OnOk result (AreSeen seen.new sources.new.items) }
{
    let Some(source) = source else {
        return Ok(());
    };
    if seen.insert(source.get())? {
        sources.push(source)?;
    }
    Ok(())
}

fn push_sources(
    sources: &mut Vec<Ssrc>,
    seen: &mut BTreeSet<u32>,
    attributes: &[MediaAttribute],
) -> Result<(), AllocError>
    requires { AreSeen seen.old sources.old.items }
    ensures sources { OnOk result (sources.new.items
        ≡ fold with_new sources.old.items (filter_map source_in attributes.now)) }
    ensures seen { OnOk result (AreSeen seen.new sources.new.items) }
{
    for attribute in attributes {
        push_new(sources, seen, source_in(attribute))?;
    }
    Ok(())
}

fn push_repairing(
    sources: &mut Vec<Ssrc>,
    seen: &mut BTreeSet<u32>,
    attributes: &[MediaAttribute],
) -> Result<(), AllocError>
    requires { AreSeen seen.old sources.old.items }
    ensures { OnOk result (sources.new.items
        ≡ fold with_new sources.old.items (filter_map repairing_in attributes.now)) }
{
    for attribute in attributes {
        push_new(sources, seen, repairing_in(attribute))?;
    }
    Ok(())
}

/// The sources that attributes name: first those of `a=ssrc` lines, then those that groups of retransmission let repair
/// others (RFC 5576 4.1, RFC 4588 8.3), each once, in the order in which they are first named.
///
/// # Errors
///
/// `AllocError` if memory runs out.
pub fn sources_of(alloc: Global, attributes: &[MediaAttribute]) -> Result<Vec<Ssrc>, AllocError>
    ensures { IfOk result (λ sources. sources.items ≡ sources_of attributes.now) }
{
    let mut sources = Vec::new(alloc);
    let mut seen = BTreeSet::new(alloc);
    push_sources(&mut sources, &mut seen, attributes)?;
    push_repairing(&mut sources, &mut seen, attributes)?;
    Ok(sources)
}

//! Which codecs a section maps payload types to.

ghost use Rattle.std.specs.Prelude.{◌≡◌, ◌++◌, Some, IfOk, OnOk};
ghost use Rattle.std.specs.Prelude.{if◌then◌else◌};
ghost use Rattle.sdp_formats_rows.specs.Codecs.{is_codec};
ghost use Rattle.sdp_formats_section_rows.specs.Mapped.{is_mapped, mapping_in, mappings, mappings_in, static_mapping};
ghost use Rattle.sdp_formats_section_rows.specs.Mapped.{with_static};
ghost use Rattle.sdp_formats_section_rows.specs.TypeLists.{AreMapped};

use crate::maps::ToRtpMap;
use crate::type_lists::is_listed;
use media_types::Codec;
use rtp_wire::Pt;
use sdp_formats_data::{MediaAttribute, RtpMap};
use sdp_formats_rows::CodecSpec;
use std::alloc::{AllocError, Global};

/// A payload type and what it is mapped to.
#[derive(Clone, Copy, Drop)]
pub(crate) struct Mapping {
    pub pt: Pt,
    pub map: RtpMap,
}

pub(crate) fn is_codec(codec: Codec, other: Codec) -> bool
    ensures { result ≡ is_codec codec other }
{
    codec == other
}

fn push_mapping(mappings: &mut Vec<Mapping>, attribute: &MediaAttribute) -> Result<(), AllocError>
    ensures { OnOk result (mappings.new.items ≡ mappings.old.items ++ mapping_in attribute.now) }
{
    match attribute {
        MediaAttribute::RtpMap { pt, value } => {
            mappings.push(Mapping {
                pt: *pt,
                map: *value,
            })?;
            Ok(())
        }
        _ => Ok(()),
    }
}

fn mappings_in(alloc: Global, attributes: &[MediaAttribute]) -> Result<Vec<Mapping>, AllocError>
    ensures { IfOk result (λ maps. maps.items ≡ mappings_in attributes.now) }
{
    let mut mappings = Vec::new(alloc);
    for attribute in attributes {
        push_mapping(&mut mappings, attribute)?;
    }
    Ok(mappings)
}

fn is_mapped(mappings: &[Mapping], pt: Pt) -> bool
    ensures { result ≡ is_mapped mappings.now pt }
{
    mappings.iter().any(|mapping| mapping.pt.get() == pt.get())
}

/// Puts a static type after the mappings, unless it is mapped.
fn push_unless_mapped(
    mappings: &mut Vec<Mapping>,
    pt: Pt,
    spec: &CodecSpec,
) -> Result<(), AllocError>
    ensures { OnOk result (mappings.new.items ≡ (if is_mapped mappings.old.items pt then mappings.old.items
        else mappings.old.items ++ static_mapping pt (Some spec.now))) }
{
    if is_mapped(mappings.as_slice(), pt) {
        return Ok(());
    }
    mappings.push(Mapping {
        pt,
        map: spec.to_rtp_map(),
    })?;
    Ok(())
}

/// The same for a listed type, if it is static. A list may repeat it, but it is looked up only
/// once.
#[tactic(auto, unfolding(crate::specs::Mapped::with_static))]
fn push_static(mappings: &mut Vec<Mapping>, met: &mut Vec<Pt>, pt: Pt) -> Result<(), AllocError>
    requires { AreMapped mappings.old.items met.old.items }
    ensures mappings { OnOk result (mappings.new.items ≡ with_static mappings.old.items pt) }
    ensures met { OnOk result (AreMapped mappings.new.items met.new.items) }
{
    let Some(spec) = CodecSpec::from_static_pt(pt) else {
        return Ok(());
    };
    if is_listed(met.as_slice(), pt) {
        return Ok(());
    }
    push_unless_mapped(mappings, pt, &spec)?;
    met.push(pt)?;
    Ok(())
}

/// The mapped types of a section: those of its lines in order, then each static type of its list that no line maps.
pub(crate) fn mappings(
    alloc: Global,
    pts: &[Pt],
    attributes: &[MediaAttribute],
) -> Result<Vec<Mapping>, AllocError>
    ensures { IfOk result (λ maps. maps.items ≡ mappings pts.now attributes.now) }
{
    let mut mappings = mappings_in(alloc, attributes)?;
    let mut met = Vec::new(alloc);
    for pt in pts {
        push_static(&mut mappings, &mut met, *pt)?;
    }
    Ok(mappings)
}

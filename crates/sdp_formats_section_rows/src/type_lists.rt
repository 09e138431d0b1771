//! Lists of payload types.

ghost use Rattle.std.specs.Prelude.{◌≡◌, IfOk, OnOk};
ghost use Rattle.std.specs.Prelude.{if◌then◌else◌};
ghost use Rattle.sdp_formats_section_rows.specs.TypeLists.{is_listed, media_types_in, types_to, with_once};

use crate::mapped::{Mapping, is_codec};
use media_types::Codec;
use rtp_wire::Pt;
use sdp_formats_rows::is_media_codec;
use std::alloc::{AllocError, Global};

/// Whether a list has this type.
pub(crate) fn is_listed(types: &[Pt], pt: Pt) -> bool
    ensures { result ≡ is_listed types.now pt }
{
    types.iter().any(|listed| listed.get() == pt.get())
}

fn push_if(types: &mut Vec<Pt>, is_meant: bool, pt: Pt) -> Result<(), AllocError>
    ensures { OnOk result (types.new.items ≡ (if is_meant then with_once types.old.items pt else types.old.items)) }
{
    if !is_meant || is_listed(types.as_slice(), pt) {
        return Ok(());
    }
    types.push(pt)?;
    Ok(())
}

/// The types that are mapped to a codec, each once, so that there are at most 256.
#[tactic(auto, unfolding(crate::specs::TypeLists::with_type))]
pub(crate) fn types_mapped_to(
    alloc: Global,
    codec: Codec,
    mappings: &[Mapping],
) -> Result<Vec<Pt>, AllocError>
    ensures { IfOk result (λ types. types.items ≡ types_to codec mappings.now) }
{
    let mut types = Vec::new(alloc);
    for mapping in mappings {
        push_if(&mut types, is_codec(mapping.map.codec, codec), mapping.pt)?;
    }
    Ok(types)
}

/// The types that are mapped to audio, video or telephone events, each once.
#[tactic(auto, unfolding(crate::specs::TypeLists::with_type))]
pub(crate) fn media_types_in(alloc: Global, mappings: &[Mapping]) -> Result<Vec<Pt>, AllocError>
    ensures { IfOk result (λ types. types.items ≡ media_types_in mappings.now) }
{
    let mut types = Vec::new(alloc);
    for mapping in mappings {
        push_if(&mut types, is_media_codec(mapping.map.codec), mapping.pt)?;
    }
    Ok(types)
}

//! An end of a row, and what it wants to agree on.

ghost use Rattle.std.specs.Prelude.{◌≡◌, IfSome, true};
ghost use Rattle.rtp_media_sections.specs.Sections.{are_sound};

use media_types::MediaKind;
use rtp_media_ends::{Distances, End, StreamParams};
use rtp_media_sections::SectionSpec;
use rtp_wire::{Direction, ExtensionMap, Mid, SessionId, Ssrc};
use sdp_formats_data::Session;
use sdp_formats_rounds::CodecConfig;
use sdp_formats_rows::PayloadParams;
use std::alloc::Global;

/// An end of one row.
pub(crate) fn end(alloc: Global, row: PayloadParams, session: u64) -> Option<End> {
    let mut config = CodecConfig::empty(alloc);
    config.push(row).ok()?;
    let session = Session::new(alloc, SessionId::from(session));
    End::new(alloc, config, session, ExtensionMap::empty()).ok()
}

/// One section of audio that flows both ways, of this SSRC.
pub(crate) fn sections(alloc: Global, ssrc: Ssrc) -> Option<Vec<SectionSpec>>
    ensures { IfSome result (λ sections. are_sound sections.items ≡ true) }
{
    let section = SectionSpec {
        mid: Mid::from("0"),
        kind: MediaKind::Audio,
        dir: Direction::SendRecv,
        ssrcs: vec![in alloc; ssrc].ok()?,
        repairs: Vec::new(alloc),
    };
    vec![in alloc; section].ok()
}

/// Stream parameters that start at number 0; with redundancy of one previous payload if the row has
/// a RED type.
pub(crate) fn params(alloc: Global, has_red: bool) -> Option<StreamParams>
    ensures first { IfSome result (λ params. params.first ≡ 0) }
    ensures mtu { IfSome result (λ params. params.mtu ≡ 1200) }
{
    let red = if has_red {
        Some(Distances::from_vec(vec![in alloc; 1].ok()?))
    } else {
        None
    };
    Some(StreamParams {
        first: 0,
        mtu: 1200,
        limit: 1500,
        red,
        picture_id: None,
        for_browsers: false,
    })
}

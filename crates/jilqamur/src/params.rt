//! Parameters of sending streams.

ghost use Rattle.std.specs.Prelude.{◌≡◌, IfOk};
ghost use Rattle.jilqamur.specs.Values.{if_given};
ghost use Rattle.jilqamur.specs.Params.{params_of};

use crate::values::if_given;
use rtp_media_ends::{Distances, StreamParams};
use std::alloc::{AllocError, Global};

/// How a sending stream numbers and cuts its samples.
#[repr(C)]
#[derive(Clone, Copy, Drop)]
pub struct WireStream {
    /// The first sequence number, below 32,768.
    pub first: u64,
    /// The maximum payload size in bytes: at least 1, with redundancy at least 2.
    pub mtu: usize,
    /// The maximum datagram size in bytes.
    pub limit: usize,
    /// Whether it sends redundancy (RFC 2198), for a row with a RED type alone.
    pub has_red: bool,
    /// Whether VP8's frames have picture ids (RFC 7741 4.2); VP9's always do.
    pub has_picture_id: bool,
    /// The first picture id, at most 32,767; without `has_picture_id` VP9 begins at 0.
    pub picture_id: u16,
    /// Whether payloads use the options that browsers need.
    pub for_browsers: bool,
}

fn distances_of(alloc: Global, has: bool, distances: &[u8]) -> Result<Option<Distances>, AllocError>
    ensures { IfOk result (λ ds. ds ≡ if_given has distances.now) }
{
    if !has {
        return Ok(None);
    }
    let mut all = Vec::new(alloc);
    all.extend_from_slice(distances)?;
    Ok(Some(Distances::from_vec(all)))
}

/// The parameters of a sending stream.
pub(crate) fn params_of(
    alloc: Global,
    stream: &WireStream,
    distances: &[u8],
) -> Result<StreamParams, AllocError>
    ensures { IfOk result (λ params. params ≡ params_of stream.now distances.now) }
{
    Ok(StreamParams {
        first: stream.first,
        mtu: stream.mtu,
        limit: stream.limit,
        red: distances_of(alloc, stream.has_red, distances)?,
        picture_id: if_given(stream.has_picture_id, stream.picture_id),
        for_browsers: stream.for_browsers,
    })
}

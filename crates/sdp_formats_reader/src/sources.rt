//! Header extensions, stream names, and sources.

ghost use Rattle.sdp_formats_grammar.specs.Refusals.{Gives};
ghost use Rattle.sdp_formats_reader.specs.Sources.{extmap, msid, ssrc_number, ssrc, ssrc_group};

use rtp_wire::{Extension, Ssrc};
use sdp_formats_data::MediaAttribute;
use sdp_formats_grammar::{
    Reads, Refusal, halves, list_of, maybe_some, number_8, number_32, some, split, text_of,
};
use sdp_formats_values::Msid;
use std::alloc::Global;

// The number of a source.
struct SsrcNumber;

impl Reads<Ssrc> for SsrcNumber {
    ghost use Rattle.sdp_formats_reader.specs.Sources.{ssrc_number};

    ghost reads = { ssrc_number };

    fn read(_alloc: Global, text: &str) -> Result<Ssrc, Refusal> {
        Ok(Ssrc::from(number_32(text)?))
    }
}

/// The value of an `a=extmap` line (RFC 8285 8).
///
/// # Errors
///
/// `Unfit` if it is no such value, `Memory` if memory runs out.
pub fn extmap(alloc: Global, value: &str) -> Result<MediaAttribute, Refusal>
    ensures { Gives result (extmap.reads value.now) }
{
    let (head, tail) = split(value, ' ')?;
    let (id, direction) = halves(head, '/');
    let id = number_8(id)?;
    let _ = maybe_some(direction)?;
    let (uri, more) = halves(tail, ' ');
    let uri = some(uri)?;
    let _ = maybe_some(more)?;
    let ext = Extension::from_sdp_uri(alloc, uri)?;
    Ok(MediaAttribute::ExtMap { id, ext })
}

/// The value of an `a=msid` line (RFC 8830 2).
///
/// # Errors
///
/// `Unfit` if it is no such value, `Memory` if memory runs out.
pub fn msid(alloc: Global, value: &str) -> Result<Msid, Refusal>
    ensures { Gives result (msid.reads value.now) }
{
    let (stream, track) = split(value, ' ')?;
    Ok(Msid {
        stream_id: text_of(alloc, stream)?,
        track_id: text_of(alloc, track)?,
    })
}

/// The value of an `a=ssrc` line (RFC 5576 4.1).
///
/// # Errors
///
/// `Unfit` if it is no such value, `Memory` if memory runs out.
pub fn ssrc(alloc: Global, value: &str) -> Result<MediaAttribute, Refusal>
    ensures { Gives result (ssrc.reads value.now) }
{
    let (number, rest) = split(value, ' ')?;
    let ssrc = Ssrc::from(number_32(number)?);
    let (attr, value) = split(rest, ':')?;
    Ok(MediaAttribute::Ssrc {
        ssrc,
        attr: text_of(alloc, attr)?,
        value: text_of(alloc, value)?,
    })
}

/// The value of an `a=ssrc-group` line (RFC 5576 4.2).
///
/// # Errors
///
/// `Unfit` if it is no such value, `Memory` if memory runs out.
pub fn ssrc_group(alloc: Global, value: &str) -> Result<MediaAttribute, Refusal>
    ensures { Gives result (ssrc_group.reads value.now) }
{
    let (semantics, ssrcs) = split(value, ' ')?;
    Ok(MediaAttribute::SsrcGroup {
        semantics: text_of(alloc, semantics)?,
        ssrcs: list_of::<Ssrc, SsrcNumber>(alloc, ssrcs, ' ')?,
    })
}

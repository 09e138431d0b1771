//! Streams by SSRC and payload type.

ghost use Rattle.std.specs.Prelude.{◌≡◌, ◌<◌, ◌&&◌, ◌||◌, length, false, nat_lt, true, IfSome};
ghost use Rattle.std.specs.List.{list_any};
ghost use Rattle.rtp_media_stream_table.specs.Arrivals.{stream_for, takes};
ghost use Rattle.rtp_media_stream_table.specs.Streams.{is_receiving, nth_stream};
ghost use Rattle.rtp_media_stream_table.specs.Indexed.{IsIndexed, conflicts, has_key, has_red, has_repair};

use crate::open_stream::{Direction, OpenStream};
use crate::stream_index::StreamIndex;
use rtp_media_streams::{PayloadTypes, RepairKey};
use rtp_wire::{Pt, Ssrc};

/// Whether the stream of this number has this direction, SSRC and payload type.
fn has_key_at(
    streams: &[OpenStream],
    number: usize,
    direction: Direction,
    ssrc: Ssrc,
    pt: Pt,
) -> bool
    ensures { result
        ≡ (nat_lt number (length streams.now) && has_key direction ssrc pt (nth_stream streams.now number)) }
{
    number < streams.len() && streams[number].has_key(direction, ssrc, pt)
}

/// The number of the stream that takes this SSRC and payload type.
///
/// # Conditions
///
/// The index is that of the streams that receive.
pub fn stream_for(
    streams: &[OpenStream],
    receivers: &StreamIndex,
    ssrc: Ssrc,
    pt: Pt,
) -> Option<usize>
    requires { IsIndexed takes receivers.now streams.now }
    ensures stream { result ≡ stream_for streams.now ssrc pt }
    ensures within { IfSome result (λ n. n < length streams.now) }
    ensures receives { IfSome result (λ n. is_receiving (nth_stream streams.now n) ≡ true) }
{
    match receivers.number(ssrc, pt) {
        Some(number) if has_key_at(streams, number, Direction::Receives, ssrc, pt) => Some(number),
        _ => None,
    }
}

/// Whether one of the streams has this direction, SSRC and payload type.
fn is_open(
    streams: &[OpenStream],
    index: &StreamIndex,
    direction: Direction,
    ssrc: Ssrc,
    pt: Pt,
) -> bool
    requires { IsIndexed (has_key direction) index.now streams.now }
    ensures { result ≡ list_any (has_key direction ssrc pt) streams.now }
{
    match index.number(ssrc, pt) {
        Some(number) => has_key_at(streams, number, direction, ssrc, pt),
        None => false,
    }
}

/// The same of this RED type, if there is one.
fn is_open_as_red(
    streams: &[OpenStream],
    index: &StreamIndex,
    direction: Direction,
    ssrc: Ssrc,
    red: Option<Pt>,
) -> bool
    requires { IsIndexed (has_key direction) index.now streams.now }
    ensures { result ≡ list_any (has_red (has_key direction) ssrc red) streams.now }
{
    match red {
        Some(red) => is_open(streams, index, direction, ssrc, red),
        None => false,
    }
}

/// The same of these SSRC and type of repairs, if there are any.
fn is_open_as_repair(
    streams: &[OpenStream],
    index: &StreamIndex,
    direction: Direction,
    repair: Option<RepairKey>,
) -> bool
    requires { IsIndexed (has_key direction) index.now streams.now }
    ensures { result ≡ list_any (has_repair (has_key direction) repair) streams.now }
{
    match repair {
        Some(key) => is_open(streams, index, direction, key.ssrc, key.pt),
        None => false,
    }
}

fn any_of(a: bool, b: bool, c: bool) -> bool
    ensures { result ≡ (a || (b || c)) }
{
    a || b || c
}

/// Whether one of the streams has this direction, and could have the datagrams of one of this SSRC and these payload
/// types.
///
/// # Conditions
///
/// The index is that of the streams of this direction.
pub fn conflicts(
    streams: &[OpenStream],
    index: &StreamIndex,
    direction: Direction,
    ssrc: Ssrc,
    types: &PayloadTypes,
) -> bool
    requires { IsIndexed (has_key direction) index.now streams.now }
    ensures { result ≡ list_any (conflicts direction ssrc types.now) streams.now }
{
    let by_type = is_open(streams, index, direction, ssrc, types.pt);
    let by_red = is_open_as_red(streams, index, direction, ssrc, types.red);
    let by_repair = is_open_as_repair(streams, index, direction, types.repair);
    any_of(by_type, by_red, by_repair)
}

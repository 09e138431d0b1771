//! What payloads bring a stream.

ghost use Rattle.std.specs.Prelude.{◌≡◌, ◌≤◌, ◌-◌, None, Some, drop, length, IfSome, MatchOption};
ghost use Rattle.payload_core_audio.specs.RedViews.{items_left};
ghost use Rattle.rtp_media_streams.specs.Receiving.{brought, carried, wrapped_at};
ghost use Rattle.rtp_media_streams.specs.Redundant.{primary_of, unwrapped};

use crate::types::PayloadTypes;
use payload_core_audio::{RedBlocks, RedDecoder};
use rtp_wire::{Pt, RtpHeader, Ssrc, unpad_payload, wrapped_in};

/// What a datagram of its own brings a stream.
#[derive(Clone, Copy, Debug, PartialEq, Eq, Drop)]
pub struct Brought {
    /// The low 16 bits of a number.
    pub number: u16,
    /// Where the payload under that number begins in the datagram.
    pub start: usize,
    /// The place after its last byte.
    pub end: usize,
}

/// The primary payload, if it has this type.
fn primary_of(blocks: RedBlocks<'_>, pt: Pt) -> Option<&[u8]>
    ensures { MatchOption result (primary_of pt (items_left blocks.entry) ≡ None)
        (λ payload. primary_of pt (items_left blocks.entry) ≡ Some payload.now) }
{
    for block in blocks {
        if block.primary {
            return if block.pt == pt.get() {
                Some(block.payload)
            } else {
                None
            };
        }
    }
    None
}

/// The payload itself, or under the RED type its primary payload, if it has the other type (RFC 2198).
#[inline]
fn unwrapped<'a>(types: &PayloadTypes, pt: Pt, payload: &'a [u8]) -> Option<&'a [u8]>
    ensures { MatchOption result (unwrapped types.now pt payload.now ≡ None)
        (λ media. unwrapped types.now pt payload.now ≡ Some media.now) }
{
    if types.pt.get() == pt.get() {
        return Some(payload);
    }
    match RedDecoder::decode(payload) {
        Ok(blocks) => primary_of(blocks, types.pt),
        Err(_) => None,
    }
}

/// What a payload without padding carries: 16 bits of a sequence number, and the length of the
/// payload at its end that belongs to it. A plain datagram carries its payload under its own
/// number, a retransmission the original payload under the original number.
#[inline]
fn carried(
    ssrc: Ssrc,
    types: &PayloadTypes,
    header: &RtpHeader,
    unpadded: &[u8],
) -> Option<(u16, usize)>
    ensures carries { MatchOption result (carried ssrc types.now header.now unpadded.now ≡ None)
        (λ c. carried ssrc types.now header.now unpadded.now
        ≡ Some (record { number = c.0; payload = drop (length unpadded.now - c.1) unpadded.now })) }
    ensures within { IfSome result (λ c. c.1 ≤ length unpadded.now) }
{
    if !types.is_plain_key(ssrc, header.ssrc, header.payload_type) {
        let (number, payload) = wrapped_in(unpadded)?;
        return Some((number, payload.len()));
    }
    let payload = unwrapped(types, header.payload_type, unpadded)?;
    if payload.is_empty() {
        return None;
    }
    Some((header.sequence_number, payload.len()))
}

/// What a datagram of its own brings a stream of this SSRC and these types: the low 16 bits of a number, and the place
/// of a payload with a byte at least. A repair brings what it wraps (RFC 4588 4). None if padding or redundancy
/// don't fit, or there is no payload.
///
/// # Conditions
///
/// The header was read from the datagram, and is no longer than it.
#[inline]
pub fn locate_payload(
    ssrc: Ssrc,
    types: &PayloadTypes,
    header: &RtpHeader,
    datagram: &[u8],
) -> Option<Brought>
    requires { header.now.header_len ≤ length datagram.now }
    ensures brings { MatchOption result (brought ssrc types.now header.now datagram.now ≡ None)
        (λ b. brought ssrc types.now header.now datagram.now ≡ Some (wrapped_at datagram.now b)) }
    ensures within { IfSome result (λ b. (b.start ≤ b.end) × (b.end ≤ length datagram.now)) }
{
    let unpadded = unpad_payload(header.has_padding, &datagram[header.header_len..])?;
    let (number, len) = carried(ssrc, types, header, unpadded)?;
    let end = header.header_len + unpadded.len();
    Some(Brought {
        number,
        start: end - len,
        end,
    })
}

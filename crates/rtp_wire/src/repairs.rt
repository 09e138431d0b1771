//! Datagrams wrapped, and what is read of a repair's payload.

ghost use Rattle.std.specs.Prelude.{◌≡◌, ◌+◌, ◌<◌, ◌≤◌, ◌∷◌, ◌++◌, None, Some, drop, length, slice_index};
ghost use Rattle.std.specs.Prelude.{IfOk, MatchOption, OnOk};
ghost use Rattle.rtp_wire.specs.Repairs.{repair_of, wrapped_in};

use crate::numbers::{Pt, Ssrc};
use std::alloc::{AllocError, Global};

/// The repair of a datagram after a header of this many bytes: its type, number and SSRC are replaced, the two bytes of
/// its own number are set in after the header, and each other byte stays (RFC 4588 4).
///
/// # Conditions
/// The header has at least the twelve bytes that each has, and ends at the datagram's end or before it; the payload
/// type is below 128.
///
/// # Errors
/// Out of memory for the bytes.
#[tactic(auto, using(crate::proofs::RepairLaws::repair_length))]
pub fn repair_of(
    alloc: Global,
    datagram: &[u8],
    header_len: usize,
    pt: Pt,
    number: u16,
    ssrc: Ssrc,
) -> Result<Vec<u8>, AllocError>
    requires fixed { 12 ≤ header_len }
    requires header { header_len ≤ length datagram.now }
    requires payload_type { pt < 128 }
    ensures bytes { IfOk result (λ v. v.items ≡ repair_of pt number ssrc header_len datagram.now) }
    ensures len { IfOk result (λ v. length v.items ≡ length datagram.now + 2) }
{
    let mut bytes = Vec::with_capacity(alloc, datagram.len().saturating_add(2))?;
    bytes.push(datagram[0])?;
    bytes.push(datagram[1] / 128 * 128 + pt.get())?;
    bytes.extend_from_slice(&number.to_be_bytes())?;
    bytes.extend_from_slice(&datagram[4..8])?;
    bytes.extend_from_slice(&ssrc.get().to_be_bytes())?;
    bytes.extend_from_slice(&datagram[12..header_len])?;
    push_wrapped(&mut bytes, datagram, header_len)?;
    Ok(bytes)
}

/// Appends the two bytes of a datagram's sequence number and the bytes after its header.
fn push_wrapped(bytes: &mut Vec<u8>, datagram: &[u8], header_len: usize) -> Result<(), AllocError>
    requires fixed { 4 ≤ length datagram.now }
    requires header { header_len ≤ length datagram.now }
    ensures { OnOk result (bytes.new.items ≡ bytes.old.items
        ++ slice_index datagram.now 2 ∷ slice_index datagram.now 3 ∷ drop header_len datagram.now) }
{
    bytes.push(datagram[2])?;
    bytes.push(datagram[3])?;
    bytes.extend_from_slice(&datagram[header_len..])?;
    Ok(())
}

/// What a repair's payload, without padding, wraps: the low 16 bits of a number, and the payload under it. None if
/// there are fewer than three bytes.
pub fn wrapped_in(payload: &[u8]) -> Option<(u16, &[u8])>
    ensures { MatchOption result (wrapped_in payload.now ≡ None)
        (λ w. wrapped_in payload.now ≡ Some (record { number = w.0; payload = w.1.now })) }
{
    if payload.len() < 3 {
        return None;
    }
    Some((u16::from_be_bytes([payload[0], payload[1]]), &payload[2..]))
}

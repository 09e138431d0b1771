//! Cutting and reading payloads without a header of their own.

ghost use Rattle.payload_core_base.specs.Packing.{SendsWith, with_prefix};
ghost use Rattle.payload_core_base.specs.Pieces.{pieces};
ghost use Rattle.payload_core_audio.specs.Plain.{is_one_piece, pack_whole};
ghost use Rattle.payload_core_base.specs.Stateless.{idle_sender};
ghost use Rattle.std.specs.Prelude.{◌≡◌, ◌≢◌, ◌∷◌, ◌++◌, [], Err, IfErr, IfOk, map, true};

use payload_core_base::PacketError;
use std::alloc::{AllocError, Global};

/// Bytes after a prefix.
pub fn after_prefix(alloc: Global, prefix: &[u8], bytes: &[u8]) -> Result<Vec<u8>, AllocError>
    ensures { IfOk result (λ p. p.items ≡ prefix.now ++ bytes.now) }
{
    let mut packet = Vec::with_capacity(alloc, prefix.len().saturating_add(bytes.len()))?;
    packet.extend_from_slice(prefix)?;
    packet.extend_from_slice(bytes)?;
    Ok(packet)
}

/// The pieces of a sample at a limit, each after the prefix.
pub fn cut(
    alloc: Global,
    prefix: &[u8],
    limit: usize,
    bytes: &[u8],
) -> Result<Vec<Vec<u8>>, AllocError>
    ensures { IfOk result (λ ps. map (λ p. p.items) ps.items
        ≡ with_prefix prefix.now (pieces limit bytes.now)) }
{
    if limit == 0 {
        return Ok(Vec::new(alloc));
    }
    let mut packets = Vec::with_capacity(alloc, bytes.len().div_ceil(limit))?;
    for piece in bytes.chunks(limit) {
        packets.push(after_prefix(alloc, prefix, piece)?)?;
    }
    Ok(packets)
}

/// Whether a sample is a single piece at a limit: it isn't empty, and fits.
#[tactic(auto, using(crate::proofs::PlainLemmas::one_piece))]
pub fn is_one_piece(limit: usize, bytes: &[u8]) -> bool
    ensures exactly { result ≡ is_one_piece limit bytes.now }
    ensures piece { result ≡ true → pieces limit bytes.now ≡ bytes.now ∷ [] }
{
    !bytes.is_empty() && bytes.len() <= limit
}

/// The one packet of a sample that isn't cut, after the prefix; none of an empty sample.
pub fn whole(
    alloc: Global,
    prefix: &[u8],
    limit: usize,
    bytes: &[u8],
) -> Result<Vec<Vec<u8>>, PacketError>
    ensures packets { IfOk result (λ ps. SendsWith prefix.now (pack_whole idle_sender limit bytes.now)
        (map (λ p. p.items) ps.items) idle_sender) }
    ensures refused { IfErr result (λ e. e ≢ PacketError.Memory → pack_whole idle_sender limit bytes.now ≡ Err e) }
{
    if bytes.is_empty() {
        return Ok(Vec::new(alloc));
    }
    if bytes.len() > limit {
        return Err(PacketError::ErrPayloadTooLarge);
    }
    let mut packets = Vec::with_capacity(alloc, 1)?;
    packets.push(after_prefix(alloc, prefix, bytes)?)?;
    Ok(packets)
}

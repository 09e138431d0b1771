//! Sending payloads with redundancy (RFC 2198 3).

ghost use Rattle.payload_core_audio.specs.Red.{IsRed};
ghost use Rattle.payload_core_audio.specs.RedSending.{fits, masked, sent_blocks};
ghost use Rattle.payload_core_audio.specs.RedViews.{block_of, old_block};
ghost use Rattle.std.specs.Prelude.{◌≡◌, ◌%◌, IfOk, map, filter, take};

use crate::block::RedundantBlock;
use crate::spelling::{MAX_BLOCKS, OldPayload, spell};
use std::alloc::{AllocError, Global};

/// Packs older payloads beside a primary one.
#[derive(Clone, Copy, Debug, Drop)]
pub struct RedEncoder;

/// The first 32 blocks that fit.
fn fitting(alloc: Global, blocks: &[RedundantBlock]) -> Result<Vec<OldPayload<'_>>, AllocError>
    ensures { IfOk result (λ olds. map old_block olds.items ≡ take 32 (filter fits (map block_of blocks.now))) }
{
    let mut olds = Vec::new(alloc);
    for block in blocks {
        if olds.len() < MAX_BLOCKS && block.fits() {
            olds.push(OldPayload {
                pt: block.pt,
                timestamp_offset: block.timestamp_offset,
                payload: &block.payload,
            })?;
        }
    }
    Ok(olds)
}

impl RedEncoder {
    /// A packet with the first 32 of the blocks that fit, in their order, and the primary payload, all types
    /// masked to seven bits (RFC 2198 3).
    ///
    /// # Errors
    /// `AllocError`.
    pub fn encode(
        alloc: Global,
        primary_pt: u8,
        primary: &[u8],
        redundant: &[RedundantBlock],
    ) -> Result<Vec<u8>, AllocError>
        ensures { IfOk result (λ packet. IsRed packet.items (sent_blocks (map block_of redundant.now))
            (primary_pt % 128) primary.now) }
    {
        let blocks = fitting(alloc, redundant)?;
        spell(alloc, &blocks, primary_pt, primary)
    }
}

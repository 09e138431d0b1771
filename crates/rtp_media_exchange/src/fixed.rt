//! What is agreed without an exchange.

ghost use Rattle.std.specs.Prelude.{◌≡◌, IfOk};
ghost use Rattle.rtp_media_exchange.specs.Exchanges.{fixed};

use sdp_formats_rounds::CodecConfig;
use std::alloc::{AllocError, Global};

/// The rows of an end that has agreed as if by an exchange: Opus at payload type 111, locked.
///
/// # Errors
///
/// `AllocError` if memory runs out.
#[tactic(auto, unfolding(crate::specs::Exchanges::fixed))]
pub(crate) fn fixed_config(alloc: Global) -> Result<CodecConfig, AllocError>
    ensures { IfOk result (λ config. config ≡ fixed.config) }
{
    let mut config = CodecConfig::empty(alloc);
    config.enable_opus(true, false)?;
    let mut row = config.params()[0];
    row.lock();
    let mut rows = Vec::new(alloc);
    rows.push(row)?;
    Ok(CodecConfig::new_from_payload_params(rows))
}

//! Replies.

ghost use Rattle.std.specs.Prelude.{◌≡◌, ◌∷◌, [], IfOk};
ghost use Rattle.rtp_media_program.specs.Replies.{Prints};

use crate::reply::Reply;
use std::alloc::{AllocError, Global};

/// One reply.
///
/// # Errors
/// If memory runs out.
pub fn one(alloc: Global, reply: Reply) -> Result<Vec<Reply>, AllocError>
    ensures { IfOk result (λ replies. Prints replies.items reply) }
{
    let mut replies = Vec::new(alloc);
    replies.push(reply)?;
    Ok(replies)
}

/// Two replies.
pub(crate) fn two(alloc: Global, first: Reply, second: Reply) -> Result<Vec<Reply>, AllocError>
    ensures { IfOk result (λ replies. replies.items ≡ first ∷ second ∷ []) }
{
    let mut replies = Vec::new(alloc);
    replies.push(first)?;
    replies.push(second)?;
    Ok(replies)
}

//! The name under which want of memory is printed.

ghost use Rattle.std.specs.Prelude.{◌≡◌};
ghost use Rattle.rtp_media_program.specs.Replies.{memory};

use crate::reply::ErrorName;

/// Out of memory has one name, whichever call runs out.
pub fn memory() -> ErrorName
    ensures { result ≡ memory }
{
    ErrorName::new("Memory")
}

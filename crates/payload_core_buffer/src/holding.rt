//! How many packets a buffer may be told to hold.

ghost use Rattle.payload_core_buffer.specs.Buffered.{is_valid_capacity};
ghost use Rattle.std.specs.Prelude.{◌≡◌};

/// The minimum capacity of a buffer, in packets.
pub const MIN_HELD: usize = 4096;

/// The maximum capacity of a buffer, in packets.
pub const MAX_HELD: usize = 16384;

/// Whether a buffer may have this capacity: 4,096 to 16,384 packets.
pub fn is_valid_capacity(held: usize) -> bool
    ensures { result ≡ is_valid_capacity held }
{
    MIN_HELD <= held && held <= MAX_HELD
}

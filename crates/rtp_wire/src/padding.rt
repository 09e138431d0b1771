//! Padding after a payload.

ghost use Rattle.std.specs.Prelude.{◌≡◌, ◌<◌, ◌≤◌, MatchOption, take, length};
ghost use Rattle.rtp_wire.specs.Padding.{unpadded};

/// The payload without its padding, whose last byte counts the padding bytes with itself
/// (RFC 3550 5.1). None with padding if there is no byte, or the count is 0 or above the length.
pub fn unpad_payload(has_padding: bool, payload: &[u8]) -> Option<&[u8]>
    ensures { MatchOption result (unpadded has_padding payload.now ≡ None)
        (λ rest. unpadded has_padding payload.now ≡ Some rest.now) }
{
    if !has_padding {
        return Some(payload);
    }
    let count = *payload.last()? as usize;
    if count == 0 || count > payload.len() {
        return None;
    }
    Some(&payload[..payload.len() - count])
}

//! Numbers as SDP writes them.

ghost use Rattle.std.specs.Prelude.{◌≡◌, option_map};
ghost use Rattle.media_types.specs.Values.{given_or};

/// The 8-bit number that a value writes, or None; the default, if no value is given.
pub fn given_or(absent: u8, value: Option<&str>) -> Option<u8>
    ensures { result ≡ given_or absent (option_map (λ t. t.now) value.entry) }
{
    match value {
        Some(text) => text.parse::<u8>().ok(),
        None => Some(absent),
    }
}

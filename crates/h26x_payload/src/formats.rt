//! Which codecs have a payload format.

ghost use Rattle.std.specs.Prelude.{◌≡◌};
ghost use Rattle.h26x_payload.specs.Codings.{has_format};

use media_types::Codec;

/// Whether payloads of the codec have a format of their own: it is none of Rtx, Red, Null and Unknown.
pub fn has_format(codec: Codec) -> bool
    ensures { result ≡ has_format codec }
{
    match codec {
        Codec::Rtx | Codec::Red | Codec::Null | Codec::Unknown => false,
        _ => true,
    }
}

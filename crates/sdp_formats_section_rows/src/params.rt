//! The parameters of a codec, one by one.

ghost use Rattle.std.specs.Prelude.{◌≡◌, IfOk};
ghost use Rattle.sdp_formats_section_rows.specs.Attributes.{params_in};

use sdp_formats_rows::CodecSpec;
use sdp_formats_values::FormatParam;
use std::alloc::{AllocError, Global};

/// The parameters of a codec: those of its format, or the range of telephone events, up to 16 if none is given
/// (RFC 4733 2.4.1).
pub(crate) fn params_in(alloc: Global, spec: &CodecSpec) -> Result<Vec<FormatParam>, AllocError>
    ensures { IfOk result (λ params. params.items ≡ params_in spec.now) }
{
    if !spec.codec.is_tele() {
        return spec.format.to_format_param(alloc);
    }
    let mut params = Vec::new(alloc);
    let most = spec.format.telephone_event_max.unwrap_or(16);
    params.push(FormatParam::TelephoneEvents(most))?;
    Ok(params)
}

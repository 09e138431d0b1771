//! Sessions that can be written.

ghost use Rattle.std.specs.Prelude.{◌↔◌, IsTrue, IfOk, IfSome, All};
ghost use Rattle.sdp_formats_reader.specs.Writable.{IsWritableAttribute, IsWritableBandwidth, IsWritableSession};

use crate::line_read_back::{is_writable_attribute, is_writable_bandwidth};
use sdp_formats_data::{Session, SessionAttribute};
use sdp_formats_values::Bandwidth;
use std::alloc::{AllocError, Global};

fn are_writable(alloc: Global, attributes: &[SessionAttribute]) -> Result<bool, AllocError>
    ensures { IfOk result (λ writable. IsTrue writable ↔ All IsWritableAttribute attributes.now) }
{
    for attribute in attributes {
        if !is_writable_attribute(alloc, attribute)? {
            return Ok(false);
        }
    }
    Ok(true)
}

fn may_have(alloc: Global, bandwidth: &Option<Bandwidth>) -> Result<bool, AllocError>
    ensures { IfOk result (λ writable. IsTrue writable ↔ IfSome bandwidth.now IsWritableBandwidth) }
{
    match bandwidth {
        Some(bandwidth) => Ok(is_writable_bandwidth(alloc, bandwidth)?),
        None => Ok(true),
    }
}

/// Whether a session can be written (RFC 8866 5): it has no `a=group` of its own, and its bandwidth and each attribute
/// print one line that is read as them, or as an attribute of no known kind.
///
/// # Errors
///
/// `AllocError` if memory runs out.
pub fn is_writable_session(alloc: Global, session: &Session) -> Result<bool, AllocError>
    ensures { IfOk result (λ writable. IsTrue writable ↔ IsWritableSession session.now) }
{
    if !may_have(alloc, &session.bw)? {
        return Ok(false);
    }
    Ok(are_writable(alloc, session.attrs.as_slice())?)
}

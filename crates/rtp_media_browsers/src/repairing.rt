//! Repairs that a section doesn't offer.

ghost use Rattle.std.specs.Prelude.{◌≡◌, None, Some, IfErr, OnOk};
ghost use Rattle.std.specs.List.{list_any};
ghost use Rattle.rtp_media_browsers.specs.Asking.{first_unrepaired, has_repairs, is_rtx, maps_rtx, unrepaired};

use crate::asking::RequestError;
use crate::request::SectionRequest;
use media_types::Codec;
use rtp_media_sections::mid_of;
use sdp_formats_data::{MediaAttribute, MediaLine};

fn is_rtx(codec: Codec) -> bool
    ensures { result ≡ is_rtx codec }
{
    matches!(codec, Codec::Rtx)
}

/// Whether it maps a payload type to retransmissions.
#[tactic(auto, unfolding(crate::specs::Asking::maps_rtx))]
fn maps_rtx(attribute: &MediaAttribute) -> bool
    ensures { result ≡ maps_rtx attribute.now }
{
    match attribute {
        MediaAttribute::RtpMap { value, .. } => is_rtx(value.codec),
        _ => false,
    }
}

fn offers_rtx(attributes: &[MediaAttribute]) -> bool
    ensures { result ≡ list_any maps_rtx attributes.now }
{
    attributes.iter().any(|attribute| maps_rtx(attribute))
}

fn has_repairs(request: &SectionRequest) -> bool
    ensures { result ≡ has_repairs request.now }
{
    match request {
        SectionRequest::Accept { repairs, .. } => !repairs.is_empty(),
        SectionRequest::Receive | SectionRequest::Reject => false,
    }
}

/// Why the request for a section doesn't fit it.
fn unrepaired(request: &SectionRequest, section: &MediaLine) -> Option<RequestError>
    ensures { result ≡ unrepaired request.now section.now }
{
    if has_repairs(request) && !offers_rtx(section.attrs.as_slice()) {
        return Some(RequestError::NoRetransmission(mid_of(section)));
    }
    None
}

/// That each section with repairs in its request offers retransmission.
///
/// # Errors
///
/// `NoRetransmission` with the name of the first that doesn't.
pub(crate) fn test_repairs(
    requests: &[SectionRequest],
    sections: &[MediaLine],
) -> Result<(), RequestError>
    ensures ok { OnOk result (first_unrepaired requests.now sections.now ≡ None) }
    ensures refused { IfErr result (λ e. first_unrepaired requests.now sections.now ≡ Some e) }
{
    for (number, request) in requests.iter().enumerate() {
        match sections.get(number) {
            Some(section) => {
                if let Some(error) = unrepaired(request, section) {
                    return Err(error);
                }
            }
            None => return Ok(()),
        }
    }
    Ok(())
}

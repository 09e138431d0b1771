//! What an end wants of the sections of a browser's offer.

ghost use Rattle.std.specs.Prelude.{◌≡◌};
ghost use Rattle.rtp_media_browsers.specs.Places.{is_accepted};
ghost use Rattle.rtp_media_browsers.specs.Received.{is_received};
ghost use Rattle.std.specs.Option.{option_copied};

use rtp_wire::{Direction, Ssrc};

/// What an end wants of a section of a browser's offer.
#[derive(Debug, Drop)]
pub enum SectionRequest {
    /// The end answers the section.
    Accept {
        /// Which way media shall flow, as the end sees it.
        direction: Direction,
        /// The SSRCs that the end sends under (RFC 5576 4.1).
        ssrcs: Vec<Ssrc>,
        /// Pairs of one of them and the SSRC under which its datagrams are sent again (RFC 4588 8.3).
        repairs: Vec<(Ssrc, Ssrc)>,
    },
    /// The end answers the section and only receives in it, without SSRCs of its own: under the types that the section
    /// offers, even if other sections have the same codecs under other types.
    Receive,
    /// The section is rejected (RFC 8829 5.3.1).
    Reject,
}

/// Whether a section is answered; one without a request isn't.
pub(crate) fn is_accepted(request: Option<&SectionRequest>) -> bool
    ensures { result ≡ is_accepted (option_copied request.entry) }
{
    matches!(
        request,
        Some(SectionRequest::Accept { .. } | SectionRequest::Receive)
    )
}

/// Whether the end only receives in a section.
pub(crate) fn is_received(request: Option<&SectionRequest>) -> bool
    ensures { result ≡ is_received (option_copied request.entry) }
{
    matches!(request, Some(SectionRequest::Receive))
}

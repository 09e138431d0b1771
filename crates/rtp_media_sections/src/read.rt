//! What single lines of a section say to an exchange.

ghost use Rattle.std.specs.Prelude.{◌≡◌};
ghost use Rattle.rtp_media_sections.specs.Lines.{is_media_line, kind_of, mid_of};

use media_types::MediaKind;
use rtp_wire::Mid;
use sdp_formats_data::MediaLine;
use sdp_formats_values::{MediaType, Proto};

/// The name of a section, which each that was read has; the empty name if there is none.
pub fn mid_of(line: &MediaLine) -> Mid
    ensures { result ≡ mid_of line.now }
{
    match line.mid() {
        Some(mid) => mid,
        None => Mid::from(""),
    }
}

/// The kind of a section of media.
pub fn kind_of(typ: &MediaType) -> MediaKind
    ensures { result ≡ kind_of typ.now }
{
    match typ {
        MediaType::Video => MediaKind::Video,
        _ => MediaKind::Audio,
    }
}

/// Whether a section is audio or video over RTP, and not of port 0 (RFC 3264 6).
pub(crate) fn is_media_line(line: &MediaLine) -> bool
    ensures { result ≡ is_media_line line.now }
{
    line.typ.is_media() && matches!(line.proto, Proto::Srtp) && !line.disabled
}

//! The format that a section's parameters give a payload type.

ghost use Rattle.std.specs.Prelude.{◌≡◌, fold};
ghost use Rattle.media_types.specs.declared.codec.Codec.TheVariants.{AmrWb};
ghost use Rattle.std.specs.List.{list_any};
ghost use Rattle.sdp_formats_rows.specs.Codecs.{is_codec};
ghost use Rattle.sdp_formats_section_rows.specs.Given.{events_after, events_in, format_given, is_declined};
ghost use Rattle.sdp_formats_section_rows.specs.Given.{is_unsupported, most_of, with_attribute, with_events};
ghost use Rattle.sdp_formats_section_rows.specs.Given.{with_line};
ghost use Rattle.sdp_formats_rows.specs.OneParam.{with_codec_param};
ghost use Rattle.sdp_formats_section_rows.specs.declared.given.Events.TheVariants.{Default};

use media_types::Codec;
use rtp_wire::Pt;
use sdp_formats_data::MediaAttribute;
use sdp_formats_rows::FormatParams;
use sdp_formats_values::FormatParam;

/// What the lines of a payload type give of telephone events (RFC 4733 2.4.1).
#[derive(Clone, Copy, Drop)]
pub enum Events {
    /// No line is of the type.
    Default,
    /// One line is, and it holds one range, up to this event.
    UpTo(u8),
    /// Other lines are.
    Declined,
}

fn with_params(mut format: FormatParams, params: &[FormatParam]) -> FormatParams
    ensures { result ≡ fold with_codec_param format params.now }
{
    for param in params {
        format.set_codec_param(param);
    }
    format
}

#[tactic(auto, unfolding(crate::specs::Given::with_attribute))]
pub(crate) fn with_attribute(
    pt: Pt,
    format: FormatParams,
    attribute: &MediaAttribute,
) -> FormatParams
    ensures { result ≡ with_attribute pt format attribute.now }
{
    match attribute {
        MediaAttribute::Fmtp { pt: given, values } => {
            if given.get() == pt.get() {
                return with_params(format, values.as_slice());
            }
            format
        }
        _ => format,
    }
}

/// The format with the parameters of each line of a payload type, one after the other (RFC 8866 6.15).
pub fn with_attributes(
    pt: Pt,
    mut format: FormatParams,
    attributes: &[MediaAttribute],
) -> FormatParams
    ensures { result ≡ fold (with_attribute pt) format attributes.now }
{
    for attribute in attributes {
        format = with_attribute(pt, format, attribute);
    }
    format
}

fn is_unsupported(param: &FormatParam) -> bool
    ensures { result ≡ is_unsupported param.now }
{
    matches!(param, FormatParam::AmrWbUnsupported)
}

#[tactic(auto, unfolding(crate::specs::Given::is_declined))]
pub(crate) fn is_declined(pt: Pt, attribute: &MediaAttribute) -> bool
    ensures { result ≡ is_declined pt attribute.now }
{
    match attribute {
        MediaAttribute::Fmtp { pt: given, values } => {
            if given.get() == pt.get() {
                return values.as_slice().iter().any(|param| is_unsupported(param));
            }
            false
        }
        _ => false,
    }
}

fn events_in(params: &[FormatParam]) -> Option<u8>
    ensures { result ≡ events_in params.now }
{
    match params {
        [FormatParam::BareRange(most)] => Some(*most),
        [FormatParam::TelephoneEvents(most)] => Some(*most),
        _ => None,
    }
}

fn with_line(events: Events, most: Option<u8>) -> Events
    ensures { result ≡ with_line events most }
{
    match (events, most) {
        (Events::Default, Some(most)) => Events::UpTo(most),
        _ => Events::Declined,
    }
}

#[tactic(auto, unfolding(crate::specs::Given::events_after))]
pub(crate) fn events_after(pt: Pt, events: Events, attribute: &MediaAttribute) -> Events
    ensures { result ≡ events_after pt events attribute.now }
{
    match attribute {
        MediaAttribute::Fmtp { pt: given, values } => {
            if given.get() == pt.get() {
                return with_line(events, events_in(values.as_slice()));
            }
            events
        }
        _ => events,
    }
}

/// What a section's lines give of telephone events under a payload type.
pub fn events_given(pt: Pt, attributes: &[MediaAttribute]) -> Events
    ensures { result ≡ fold (events_after pt) Default attributes.now }
{
    let mut events = Events::Default;
    for attribute in attributes {
        events = events_after(pt, events, attribute);
    }
    events
}

/// The highest event: 16 if no line is of the type; None if the lines decline.
pub fn most_of(events: Events) -> Option<u8>
    ensures { result ≡ most_of events }
{
    match events {
        Events::Default => Some(16),
        Events::UpTo(most) => Some(most),
        Events::Declined => None,
    }
}

/// The format of telephone events up to this one.
pub fn with_events(most: u8) -> FormatParams
    ensures { result ≡ with_events most }
{
    FormatParams {
        telephone_event_max: Some(most),
        ..FormatParams::default()
    }
}

/// Whether a line of a payload type has a parameter of AMR-WB that isn't supported (RFC 4867 8.2).
pub fn any_declined(pt: Pt, attributes: &[MediaAttribute]) -> bool
    ensures { result ≡ list_any (is_declined pt) attributes.now }
{
    attributes
        .iter()
        .any(|attribute| is_declined(pt, attribute))
}

/// Whether it is AMR-WB.
pub fn is_amr_wb(codec: Codec) -> bool
    ensures { result ≡ is_codec codec AmrWb }
{
    codec == Codec::AmrWb
}

/// Formats by the lines of a section.
pub trait FromSdpFmtp: Sized {
    /// The format that a section's attributes give a codec with a payload type; None if it is
    /// declined: telephone events with any line other than a single range `0-X`, or AMR-WB with an
    /// unsupported feature (RFC 4733 2.4.1, RFC 4867 8.2).
    fn from_sdp_fmtp(codec: Codec, pt: Pt, attributes: &[MediaAttribute]) -> Option<Self>;
}

impl FromSdpFmtp for FormatParams {
    fn from_sdp_fmtp(codec: Codec, pt: Pt, attributes: &[MediaAttribute]) -> Option<FormatParams>
        ensures { result ≡ format_given codec pt attributes.now }
    {
        if codec.is_tele() {
            return match most_of(events_given(pt, attributes)) {
                Some(most) => Some(with_events(most)),
                None => None,
            };
        }
        if is_amr_wb(codec) && any_declined(pt, attributes) {
            return None;
        }
        Some(with_attributes(pt, FormatParams::default(), attributes))
    }
}

//! Plain rows.

ghost use Rattle.std.specs.Prelude.{◌≡◌, IfOk, Ok, false};
ghost use Rattle.sdp_formats_rows.specs.Codecs.{is_codec};
ghost use Rattle.sdp_formats_rows.specs.Plain.{comes_back, events_alone, has_plain_events, has_plain_feedback};
ghost use Rattle.sdp_formats_rows.specs.Plain.{has_plain_level, has_plain_others, has_plain_red, has_plain_types};
ghost use Rattle.sdp_formats_rows.specs.Plain.{is_media_codec, is_plain, is_plain_codec, is_plain_rate, is_type};

use crate::format::FormatParams;
use crate::row::PayloadParams;
use crate::same::{same_byte, same_format};
use crate::spec::CodecSpec;
use media_types::Codec;
use rtp_wire::Pt;
use std::alloc::{AllocError, Global};

/// Is it a type of seven bits, if it is given?
fn is_type(pt: Option<Pt>) -> bool
    ensures { result ≡ is_type pt }
{
    match pt {
        Some(pt) => pt.get() < 128,
        None => true,
    }
}

/// Are all types of seven bits?
fn has_plain_types(row: &PayloadParams) -> bool
    ensures { result ≡ has_plain_types row.now }
{
    row.pt().get() < 128 && is_type(row.resend()) && is_type(row.red())
}

/// Is it the same codec?
fn is_codec(codec: Codec, other: Codec) -> bool
    ensures { result ≡ is_codec codec other }
{
    codec == other
}

/// Is it audio, video or telephone events?
pub fn is_media_codec(codec: Codec) -> bool
    ensures { result ≡ is_media_codec codec }
{
    codec.is_audio() || codec.is_video() || codec.is_tele()
}

/// Is G.722 at 16,000 Hz without its one channel (RFC 3551 4.5.2)?
fn is_plain_rate(spec: &CodecSpec) -> bool
    ensures { result ≡ is_plain_rate spec.now }
{
    !is_codec(spec.codec, Codec::G722)
        || (spec.clock_rate.get() == 16_000 && !same_byte(spec.channels, Some(1)))
}

/// Is it media, at a clock rate that SDP can express?
fn is_plain_codec(spec: &CodecSpec) -> bool
    ensures { result ≡ is_plain_codec spec.now }
{
    is_media_codec(spec.codec) && is_plain_rate(spec)
}

/// Are NACK, PLI, FIR and REMB all on for video, and off for others?
fn has_plain_feedback(row: &PayloadParams) -> bool
    ensures { result ≡ has_plain_feedback row.now }
{
    let is_video = row.spec().codec.is_video();
    row.fb_nack() == is_video
        && row.fb_pli() == is_video
        && row.fb_fir() == is_video
        && row.fb_remb() == is_video
}

/// Has only audio a RED type?
fn has_plain_red(row: &PayloadParams) -> bool
    ensures { result ≡ has_plain_red row.now }
{
    row.red().is_none() || row.spec().codec.is_audio()
}

/// The range of telephone events and nothing else.
fn events_alone(format: &FormatParams) -> FormatParams
    ensures { result ≡ events_alone format.now }
{
    FormatParams {
        telephone_event_max: format.telephone_event_max,
        ..FormatParams::default()
    }
}

/// Have telephone events a maximum and nothing else, and others none?
fn has_plain_events(spec: &CodecSpec) -> bool
    ensures { result ≡ has_plain_events spec.now }
{
    if spec.codec.is_tele() {
        return spec.format.telephone_event_max.is_some()
            && same_format(&spec.format, &events_alone(&spec.format));
    }
    spec.format.telephone_event_max.is_none()
}

/// Is a profile, tier and level given only for its own codec?
fn has_plain_level(spec: &CodecSpec) -> bool
    ensures { result ≡ has_plain_level spec.now }
{
    (spec.format.h265_profile_tier_level.is_none() || is_codec(spec.codec, Codec::H265))
        && (spec.format.h266_profile_tier_level.is_none() || is_codec(spec.codec, Codec::H266))
}

/// Is the printed format read as itself?
fn comes_back(alloc: Global, format: &FormatParams) -> Result<bool, AllocError>
    ensures { IfOk result (λ b. b ≡ comes_back format.now) }
{
    let text = format.to_string(alloc)?;
    Ok(same_format(&FormatParams::parse_line(text.as_str()), format))
}

/// Does it meet all conditions for a plain row apart from its format?
fn has_plain_others(row: &PayloadParams) -> bool
    ensures { result ≡ has_plain_others row.now }
{
    let spec = row.spec();
    has_plain_types(row)
        && is_plain_codec(&spec)
        && has_plain_feedback(row)
        && has_plain_red(row)
        && has_plain_events(&spec)
        && has_plain_level(&spec)
}

/// Can a section list the row so that it comes back as it is?
pub(crate) fn is_plain(alloc: Global, row: &PayloadParams) -> Result<bool, AllocError>
    ensures answer { IfOk result (λ b. b ≡ is_plain row.now) }
    ensures never_memory { has_plain_others row.now ≡ false → result ≡ Ok false }
{
    if !has_plain_others(row) {
        return Ok(false);
    }
    comes_back(alloc, &row.spec().format)
}

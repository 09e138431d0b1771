//! Which kind of line an attribute is.

ghost use Rattle.std.specs.Option.{option_map};
ghost use Rattle.sdp_formats_data.specs.declared.media.MediaAttribute.TheVariants.{Unused};
ghost use Rattle.sdp_formats_grammar.specs.Form.{any_text, made};
ghost use Rattle.sdp_formats_grammar.specs.Kinds.{value_of, alone_of, by_name};
ghost use Rattle.sdp_formats_grammar.specs.Refusals.{Gives};
ghost use Rattle.sdp_formats_grammar.specs.Split.{split_first};
ghost use Rattle.sdp_formats_reader.specs.AttributesChoice.{media_attribute};
ghost use Rattle.sdp_formats_reader.specs.Kinds.{media_kinds};
ghost use Rattle.sdp_formats_reader.specs.Transport.{in_section, transport_kinds};

use crate::laws::pairs_law;
use crate::maps::{rtcp_fb, rtpmap};
use crate::parameters::fmtp;
use crate::rids::rid;
use crate::simulcasts::simulcast;
use crate::sources::{extmap, msid, ssrc, ssrc_group};
use crate::transport::{transport_value, transport_word};
use rtp_wire::Mid;
use sdp_formats_data::MediaAttribute;
use sdp_formats_grammar::{
    Lined, Refusal, Stepped, behind, fitted, line_of, named, number_16, number_64, some, text_of,
};
use std::alloc::Global;

fn section_transport(alloc: Global, name: &str, value: &str) -> Result<MediaAttribute, Refusal>
    ensures { Gives result (option_map in_section (value_of transport_kinds name.now value.now)) }
{
    let attribute = transport_value(alloc, name, value)?;
    Ok(attribute.in_section())
}

/// An attribute by its name and its value.
fn media_value(alloc: Global, name: &str, value: &str) -> Result<MediaAttribute, Refusal>
    ensures { Gives result (value_of media_kinds name.now value.now) }
{
    match name {
        "mid" => Ok(MediaAttribute::Mid(Mid::from(some(value)?))),
        "sctp-port" => Ok(MediaAttribute::SctpPort(number_16(value)?)),
        "max-message-size" => Ok(MediaAttribute::MaxMessageSize(number_64(value)? as usize)),
        "sctp-init" => Ok(MediaAttribute::SctpInit(text_of(alloc, value)?)),
        "extmap" => extmap(alloc, value),
        "msid" => Ok(MediaAttribute::Msid(msid(alloc, value)?)),
        "rtcp" => Ok(MediaAttribute::Rtcp(text_of(alloc, value)?)),
        "rtpmap" => rtpmap(value),
        "rtcp-fb" => rtcp_fb(alloc, value),
        "fmtp" => fmtp(alloc, value),
        "rid" => rid(alloc, value),
        "simulcast" => Ok(MediaAttribute::Simulcast(simulcast(alloc, value)?)),
        "ssrc-group" => ssrc_group(alloc, value),
        "ssrc" => ssrc(alloc, value),
        _ => section_transport(alloc, name, value),
    }
}

/// An attribute that is one word.
fn media_word(text: &str) -> Result<MediaAttribute, Refusal>
    ensures { Gives result (alone_of media_kinds text.now) }
{
    match text {
        "recvonly" => Ok(MediaAttribute::RecvOnly),
        "sendrecv" => Ok(MediaAttribute::SendRecv),
        "sendonly" => Ok(MediaAttribute::SendOnly),
        "inactive" => Ok(MediaAttribute::Inactive),
        "rtcp-mux" => Ok(MediaAttribute::RtcpMux),
        "rtcp-mux-only" => Ok(MediaAttribute::RtcpMuxOnly),
        "rtcp-rsize" => Ok(MediaAttribute::RtcpRsize),
        _ => Ok(transport_word(text)?.in_section()),
    }
}

fn known_attribute(alloc: Global, text: &str) -> Result<MediaAttribute, Refusal>
    ensures { Gives result (by_name media_kinds text.now (split_first 58 text.now)) }
{
    match named(text) {
        Some((name, value)) => media_value(alloc, name, value),
        None => media_word(text),
    }
}

/// An attribute of no kind that is known.
fn unused(alloc: Global, text: &str) -> Result<MediaAttribute, Refusal>
    ensures { Gives result ((made Unused any_text).reads text.now) }
{
    Ok(MediaAttribute::Unused(text_of(alloc, text)?))
}

/// What follows `a=`.
fn media_attribute(alloc: Global, text: &str) -> Result<MediaAttribute, Refusal>
    ensures { Gives result (media_attribute.reads text.now) }
{
    match fitted(known_attribute(alloc, text))? {
        Some(attribute) => Ok(attribute),
        None => unused(alloc, text),
    }
}

/// A line `a=` of a section.
pub struct MediaAttributeLine;

impl Lined<MediaAttribute> for MediaAttributeLine {
    ghost use Rattle.sdp_formats_reader.specs.AttributesChoice.{attribute_line};

    ghost form = { attribute_line };

    fn read(alloc: Global, content: &str) -> Result<MediaAttribute, Refusal> {
        let text = behind(content, "a=")?;
        media_attribute(alloc, text)
    }

    fn exact_law() {
        pairs_law();
    }
}

impl Stepped<MediaAttribute> for MediaAttributeLine {
    ghost use Rattle.sdp_formats_grammar.specs.Line.{LineOf};
    ghost use Rattle.sdp_formats_reader.specs.AttributesChoice.{attribute_line};

    ghost says = { LineOf attribute_line.Says };

    fn step(alloc: Global, text: &str) -> Result<(MediaAttribute, &str), Refusal> {
        line_of::<MediaAttribute, MediaAttributeLine>(alloc, text)
    }
}

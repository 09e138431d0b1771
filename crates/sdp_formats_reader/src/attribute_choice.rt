//! Which kind of line an attribute is.

ghost use Rattle.std.specs.Option.{option_map};
ghost use Rattle.sdp_formats_data.specs.declared.session.SessionAttribute.TheVariants.{Unused};
ghost use Rattle.sdp_formats_grammar.specs.Form.{any_text, made};
ghost use Rattle.sdp_formats_grammar.specs.Kinds.{value_of, alone_of, by_name};
ghost use Rattle.sdp_formats_grammar.specs.Refusals.{Gives};
ghost use Rattle.sdp_formats_grammar.specs.Split.{split_first};
ghost use Rattle.sdp_formats_reader.specs.Transport.{in_session, transport_kinds};
ghost use Rattle.sdp_formats_reader.specs.ReaderChoice.{session_attribute, session_kinds};

use crate::groups::{group, msid_semantic};
use crate::transport::{transport_value, transport_word};
use sdp_formats_data::SessionAttribute;
use sdp_formats_grammar::{Lined, Refusal, Stepped, behind, fitted, line_of, named, text_of};
use std::alloc::Global;

fn session_transport(alloc: Global, name: &str, value: &str) -> Result<SessionAttribute, Refusal>
    ensures { Gives result (option_map in_session (value_of transport_kinds name.now value.now)) }
{
    let attribute = transport_value(alloc, name, value)?;
    Ok(attribute.in_session())
}

/// An attribute by its name and its value.
fn session_value(alloc: Global, name: &str, value: &str) -> Result<SessionAttribute, Refusal>
    ensures { Gives result (value_of session_kinds name.now value.now) }
{
    match name {
        "group" => group(alloc, value),
        "msid-semantic" => msid_semantic(alloc, value),
        _ => session_transport(alloc, name, value),
    }
}

/// An attribute that is one word.
fn session_word(text: &str) -> Result<SessionAttribute, Refusal>
    ensures { Gives result (alone_of session_kinds text.now) }
{
    match text {
        "ice-lite" => Ok(SessionAttribute::IceLite),
        _ => Ok(transport_word(text)?.in_session()),
    }
}

fn known_attribute(alloc: Global, text: &str) -> Result<SessionAttribute, Refusal>
    ensures { Gives result (by_name session_kinds text.now (split_first 58 text.now)) }
{
    match named(text) {
        Some((name, value)) => session_value(alloc, name, value),
        None => session_word(text),
    }
}

/// An attribute of no kind that is known.
fn unused(alloc: Global, text: &str) -> Result<SessionAttribute, Refusal>
    ensures { Gives result ((made Unused any_text).reads text.now) }
{
    Ok(SessionAttribute::Unused(text_of(alloc, text)?))
}

/// What follows `a=`.
fn session_attribute(alloc: Global, text: &str) -> Result<SessionAttribute, Refusal>
    ensures { Gives result (session_attribute.reads text.now) }
{
    match fitted(known_attribute(alloc, text))? {
        Some(attribute) => Ok(attribute),
        None => unused(alloc, text),
    }
}

/// A line `a=` before the first section.
pub struct SessionAttributeLine;

impl Lined<SessionAttribute> for SessionAttributeLine {
    ghost use Rattle.sdp_formats_reader.specs.ReaderChoice.{attribute_line};

    ghost form = { attribute_line };

    fn read(alloc: Global, content: &str) -> Result<SessionAttribute, Refusal> {
        let text = behind(content, "a=")?;
        session_attribute(alloc, text)
    }

    fn exact_law() {}
}

impl Stepped<SessionAttribute> for SessionAttributeLine {
    ghost use Rattle.sdp_formats_grammar.specs.Line.{LineOf};
    ghost use Rattle.sdp_formats_reader.specs.ReaderChoice.{attribute_line};

    ghost says = { LineOf attribute_line.Says };

    fn step(alloc: Global, text: &str) -> Result<(SessionAttribute, &str), Refusal> {
        line_of::<SessionAttribute, SessionAttributeLine>(alloc, text)
    }
}

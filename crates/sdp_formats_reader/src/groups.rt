//! Groups of sections and streams.

ghost use Rattle.std.specs.Prelude.{◌≡◌};
ghost use Rattle.std.specs.Option.{option_copied};
ghost use Rattle.sdp_formats_grammar.specs.Form.{maybe, separated, told};
ghost use Rattle.sdp_formats_grammar.specs.Refusals.{Gives};
ghost use Rattle.sdp_formats_reader.specs.Groups.{without_last, without_first, mid_word, mids_of, group};
ghost use Rattle.sdp_formats_reader.specs.Groups.{msid_semantic};

use rtp_wire::Mid;
use sdp_formats_data::SessionAttribute;
use sdp_formats_grammar::{
    Listed, Reads, Refusal, Text, halves, list_of, some, split, stripped, text_of,
};
use std::alloc::Global;

// The name of a section.
struct MidWord;

// Any word.
struct AnyWord;

impl Reads<Mid> for MidWord {
    ghost use Rattle.sdp_formats_reader.specs.Groups.{mid_word};

    ghost reads = { mid_word };

    fn read(_alloc: Global, text: &str) -> Result<Mid, Refusal> {
        Ok(Mid::from(some(text)?))
    }
}

impl Reads<Text> for AnyWord {
    ghost use Rattle.sdp_formats_grammar.specs.Form.{some_text};

    ghost reads = { some_text };

    fn read(alloc: Global, text: &str) -> Result<Text, Refusal> {
        text_of(alloc, text)
    }
}

/// The text without a blank at its end.
fn without_last(text: &str) -> &str
    ensures { result.now ≡ without_last text.now }
{
    match text.strip_suffix(' ') {
        Some(rest) => rest,
        None => text,
    }
}

/// The text without a blank at its beginning.
fn without_first(text: &str) -> &str
    ensures { result.now ≡ without_first text.now }
{
    match stripped(text, " ") {
        Some(rest) => rest,
        None => text,
    }
}

fn maybe_mids(alloc: Global, text: Option<&str>) -> Result<Option<Listed<Mid>>, Refusal>
    ensures { Gives result (maybe (separated 32 (told mid_word)).reads (option_copied text.entry)) }
{
    match text {
        Some(text) => Ok(Some(list_of::<Mid, MidWord>(alloc, text, ' ')?)),
        None => Ok(None),
    }
}

fn mids_of(alloc: Global, mids: Option<Listed<Mid>>) -> Listed<Mid>
    ensures { result ≡ mids_of mids }
{
    match mids {
        Some(mids) => mids,
        None => Listed::new(alloc),
    }
}

/// The value of an `a=group` line (RFC 5888 5).
pub(crate) fn group(alloc: Global, value: &str) -> Result<SessionAttribute, Refusal>
    ensures { Gives result (group.reads value.now) }
{
    let (word, more) = halves(without_last(value), ' ');
    let typ = text_of(alloc, word)?;
    let mids = mids_of(alloc, maybe_mids(alloc, more)?);
    Ok(SessionAttribute::Group { typ, mids })
}

/// The value of an `a=msid-semantic` line.
pub(crate) fn msid_semantic(alloc: Global, value: &str) -> Result<SessionAttribute, Refusal>
    ensures { Gives result (msid_semantic.reads value.now) }
{
    let (word, streams) = split(without_first(value), ' ')?;
    Ok(SessionAttribute::MsidSemantic {
        semantic: text_of(alloc, word)?,
        stream_ids: list_of::<Text, AnyWord>(alloc, streams, ' ')?,
    })
}

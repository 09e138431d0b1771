//! Format parameters of browsers' texts without those that an end doesn't know.

ghost use Rattle.std.specs.Prelude.{◌≡◌, ◌++◌, IfOk, OnOk, filter};
ghost use Rattle.std.specs.String.{string_bytes};
ghost use Rattle.sdp_formats_values.specs.Params.{gives_level};
ghost use Rattle.rtp_media_browsers.specs.Known.{is_known, is_unknown, known_alone, known_in, known_line};
ghost use Rattle.rtp_media_browsers.specs.Known.{known_parameters, text_or};

use crate::names::without_return;
use sdp_formats_grammar::{Refusal, first_part, halves, stripped};
use sdp_formats_reader::pairs;
use sdp_formats_values::{FormatParam, Key, Pair, Restrictions};
use std::alloc::{AllocError, Global};

#[tactic(auto, unfolding(crate::specs::Known::is_unknown))]
fn is_unknown(param: &FormatParam) -> bool
    ensures { result ≡ is_unknown param.now }
{
    matches!(param, FormatParam::Unknown)
}

/// Whether a pair is a part of a profile, tier and level.
fn gives_level(pair: &Pair) -> bool
    ensures { result ≡ gives_level pair.now }
{
    match Key::named(pair.key.as_str()) {
        Some(key) => key.is_level(),
        None => false,
    }
}

/// Whether a key with a value says something.
fn is_known(pair: &Pair) -> bool
    ensures { result ≡ is_known pair.now }
{
    gives_level(pair) || !is_unknown(&FormatParam::parse(pair.key.as_str(), pair.value.as_str()))
}

/// Adds those of the pairs that are known.
fn push_those(said: Vec<Pair>, known: &mut Vec<Pair>) -> Result<(), AllocError>
    ensures { OnOk result (known.new.items ≡ known.old.items ++ filter is_known said.items) }
{
    for pair in said {
        if is_known(&pair) {
            known.push(pair)?;
        }
    }
    Ok(())
}

/// Adds what the text between two semicolons says alone.
fn push_known(alloc: Global, part: &str, known: &mut Vec<Pair>) -> Result<(), AllocError>
    ensures { OnOk result (known.new.items ≡ known.old.items ++ known_alone part.now) }
{
    match pairs(alloc, part) {
        Ok(said) => push_those(said.into_vec(), known),
        Err(Refusal::Unfit) => Ok(()),
        Err(Refusal::Memory) => Err(AllocError),
    }
}

/// The known parameters of a text, each as it is read alone.
fn known_in(alloc: Global, text: &str) -> Result<Vec<Pair>, AllocError>
    ensures { IfOk result (λ known. known.items ≡ known_in text.now) }
{
    let mut known = Vec::new(alloc);
    let mut rest = Some(text);
    while let Some(left) = rest {
        let (part, after) = first_part(left, ';');
        push_known(alloc, part, &mut known)?;
        rest = after;
    }
    Ok(known)
}

/// These parameters as a text; if there is none, that other text.
fn text_or(alloc: Global, text: &str, known: &[Pair]) -> Result<String, AllocError>
    ensures { IfOk result (λ t. string_bytes t ≡ text_or text.now known.now) }
{
    if known.is_empty() {
        return String::from_str(alloc, text);
    }
    let all = Restrictions(known);
    format!(in alloc; "{all}")
}

/// Parameters of which those that are known are left.
fn known_parameters(alloc: Global, text: &str) -> Result<String, AllocError>
    ensures { IfOk result (λ t. string_bytes t ≡ known_parameters text.now) }
{
    let known = known_in(alloc, text)?;
    text_or(alloc, text, known.as_slice())
}

/// A line as it is read: of the parameters of a payload type (RFC 8866 6.15) those that are known, each as it is read
/// alone; any other line as it is.
///
/// # Errors
///
/// `AllocError` if memory runs out.
pub(crate) fn known_line(alloc: Global, line: &str) -> Result<String, AllocError>
    ensures { IfOk result (λ t. string_bytes t ≡ known_line line.now) }
{
    let Some(rest) = stripped(line, "a=fmtp:") else {
        return String::from_str(alloc, line);
    };
    let (pt, Some(text)) = halves(rest, ' ') else {
        return String::from_str(alloc, line);
    };
    let known = known_parameters(alloc, without_return(text))?;
    let known = known.as_str();
    format!(in alloc; "a=fmtp:{pt} {known}\r")
}

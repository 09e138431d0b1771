//! What one attribute says of a source.

ghost use Rattle.std.specs.Prelude.{◌≡◌, ℕ, IfOk, codes};
ghost use Rattle.std.specs.Option.{option_copied};
ghost use Rattle.sdp_formats_data.specs.Said.{word_of};
ghost use Rattle.sdp_formats_data.specs.Sources.{is_no_stream, name_given, name_in, pair_of, repair_in, stream_in};
ghost use Rattle.sdp_formats_data.specs.Sources.{stream_word, track_in, track_word, value_in};

use crate::media::MediaAttribute;
use rtp_wire::Ssrc;
use sdp_formats_grammar::{Text, halves};
use std::alloc::{AllocError, Global};

/// Whether a word of an `msid` stands for no stream: a hyphen, with white space round it or not (RFC 8830 2).
pub fn is_no_stream(word: &str) -> bool
    ensures { result ≡ is_no_stream word.now }
{
    word.trim() == "-"
}

#[tactic(auto, unfolding(crate::specs::Sources::name_in))]
fn name(alloc: Global, word: &str) -> Result<Option<Text>, AllocError>
    ensures { IfOk result (λ name. name ≡ name_in word.now) }
{
    if is_no_stream(word) {
        return Ok(None);
    }
    Ok(Some(Text::of(String::from_str(alloc, word.trim())?)))
}

/// The name that a word gives, if there is one.
pub(crate) fn name_given(alloc: Global, word: Option<&str>) -> Result<Option<Text>, AllocError>
    ensures { IfOk result (λ name. name ≡ name_given (option_copied word.entry)) }
{
    match word {
        Some(word) => name(alloc, word),
        None => Ok(None),
    }
}

/// The source of an `a=ssrc` line with its value, if it has this word, in either case.
#[tactic(auto, unfolding(crate::specs::Sources::value_in))]
fn value_said<'a>(word: &str, attribute: &'a MediaAttribute) -> Option<(u32, &'a str)>
    ensures { (source : ℕ) → word_of source result ≡ value_in word.now source attribute.now }
{
    match attribute {
        MediaAttribute::Ssrc { ssrc, attr, value } => {
            if attr.as_str().eq_ignore_ascii_case(word) {
                return Some((ssrc.get(), value.as_str()));
            }
            None
        }
        _ => None,
    }
}

/// A source with the name of its end.
pub(crate) fn cname_said(attribute: &MediaAttribute) -> Option<(u32, &str)>
    ensures { (source : ℕ) → word_of source result ≡ value_in (codes "cname") source attribute.now }
{
    value_said("cname", attribute)
}

fn stream_word(value: &str) -> &str
    ensures { result.now ≡ stream_word value.now }
{
    let (word, _) = halves(value, ' ');
    word
}

fn track_word(value: &str) -> Option<&str>
    ensures { option_copied result ≡ track_word value.now }
{
    let (_, rest) = halves(value, ' ');
    Some(stream_word(rest?))
}

/// A source with the word for its stream.
pub(crate) fn stream_said(attribute: &MediaAttribute) -> Option<(u32, &str)>
    ensures { (source : ℕ) → word_of source result ≡ stream_in source attribute.now }
{
    let (source, value) = value_said("msid", attribute)?;
    Some((source, stream_word(value)))
}

/// A source with the word for its track.
pub(crate) fn track_said(attribute: &MediaAttribute) -> Option<(u32, &str)>
    ensures { (source : ℕ) → word_of source result ≡ track_in source attribute.now }
{
    let (source, value) = value_said("msid", attribute)?;
    Some((source, track_word(value)?))
}

fn pair_of(ssrcs: &[Ssrc]) -> Option<(Ssrc, Ssrc)>
    ensures { result ≡ pair_of ssrcs.now }
{
    match ssrcs {
        [repaired, repairing] => Some((*repaired, *repairing)),
        _ => None,
    }
}

/// The repaired source and the one that repairs it, of a group of retransmission.
#[tactic(auto, unfolding(crate::specs::Sources::repair_in))]
pub(crate) fn repair_in(attribute: &MediaAttribute) -> Option<(Ssrc, Ssrc)>
    ensures { result ≡ repair_in attribute.now }
{
    match attribute {
        MediaAttribute::SsrcGroup { semantics, ssrcs } => {
            if semantics.as_str().eq_ignore_ascii_case("fid") {
                return pair_of(ssrcs.as_slice());
            }
            None
        }
        _ => None,
    }
}

//! Format parameters (RFC 8866 6.15).

ghost use Rattle.std.specs.Prelude.{◌^◌, ◌∷◌, [], Some};
ghost use Rattle.sdp_formats_grammar.specs.Refusals.{Gives};
ghost use Rattle.sdp_formats_reader.specs.Parameters.{key_values, slash_list, range, parameters, listed_fmtp};
ghost use Rattle.sdp_formats_reader.specs.Parameters.{bare_fmtp, fmtp};

use crate::keyed::pairs;
use crate::maps::payload_type;
use rtp_wire::Pt;
use sdp_formats_data::MediaAttribute;
use sdp_formats_grammar::{
    Listed, Reads, Refusal, behind, has_digits_alone, list_of, number_8, split,
};
use sdp_formats_values::FormatParam;
use std::alloc::Global;

// A number of eight bits.
struct ByteNumber;

impl Reads<u8> for ByteNumber {
    ghost use Rattle.std.specs.Prelude.{◌^◌};
    ghost use Rattle.sdp_formats_grammar.specs.Numbers.{number_below};

    ghost reads = { number_below (2 ^ 8) };

    fn read(_alloc: Global, text: &str) -> Result<u8, Refusal> {
        number_8(text)
    }
}

fn one(alloc: Global, param: FormatParam) -> Result<Listed<FormatParam>, Refusal>
    ensures { Gives result (Some (param ∷ [])) }
{
    let mut values = Vec::new(alloc);
    values.push(param)?;
    Ok(Listed::of(values))
}

fn key_values(alloc: Global, text: &str) -> Result<Listed<FormatParam>, Refusal>
    ensures { Gives result (key_values.reads text.now) }
{
    let pairs = pairs(alloc, text)?;
    Ok(FormatParam::parse_pairs(alloc, pairs.as_slice())?)
}

fn slash_list(alloc: Global, text: &str) -> Result<Listed<FormatParam>, Refusal>
    ensures { Gives result (slash_list.reads text.now) }
{
    let (first, more) = split(text, '/')?;
    let first = number_8(first)?;
    let _ = list_of::<u8, ByteNumber>(alloc, more, '/')?;
    one(alloc, FormatParam::BarePtList(Pt::from(first)))
}

fn range(alloc: Global, text: &str) -> Result<Listed<FormatParam>, Refusal>
    ensures { Gives result (range.reads text.now) }
{
    let last = behind(text, "0-")?;
    if !has_digits_alone(last) {
        return Err(Refusal::Unfit);
    }
    let last = number_8(last)?;
    one(alloc, FormatParam::BareRange(last))
}

/// The first form that fits.
fn parameters(alloc: Global, text: &str) -> Result<Listed<FormatParam>, Refusal>
    ensures { Gives result (parameters.reads text.now) }
{
    match key_values(alloc, text) {
        Err(Refusal::Unfit) => {}
        said => return said,
    }
    match slash_list(alloc, text) {
        Err(Refusal::Unfit) => {}
        said => return said,
    }
    match range(alloc, text) {
        Err(Refusal::Unfit) => {}
        said => return said,
    }
    one(alloc, FormatParam::Unknown)
}

fn listed_fmtp(alloc: Global, value: &str) -> Result<MediaAttribute, Refusal>
    ensures { Gives result (listed_fmtp.reads value.now) }
{
    let (pt, text) = split(value, ' ')?;
    let pt = payload_type(pt)?;
    let values = parameters(alloc, text)?;
    Ok(MediaAttribute::Fmtp { pt, values })
}

fn bare_fmtp(alloc: Global, value: &str) -> Result<MediaAttribute, Refusal>
    ensures { Gives result (bare_fmtp.reads value.now) }
{
    let pt = payload_type(value)?;
    let values = one(alloc, FormatParam::Unknown)?;
    Ok(MediaAttribute::Fmtp { pt, values })
}

/// The value of an `a=fmtp` line (RFC 8866 6.15): a payload type, and after a blank keys with values, a list with
/// slashes, a range from 0 on, or anything.
///
/// # Errors
///
/// `Unfit` if it doesn't begin with a payload type up to 127, `Memory` if memory runs out.
pub fn fmtp(alloc: Global, value: &str) -> Result<MediaAttribute, Refusal>
    ensures { Gives result (fmtp.reads value.now) }
{
    match listed_fmtp(alloc, value) {
        Err(Refusal::Unfit) => {}
        said => return said,
    }
    bare_fmtp(alloc, value)
}

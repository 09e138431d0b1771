//! Lines that are read as what they were printed of.

ghost use Rattle.std.specs.Prelude.{◌≡◌, ◌↔◌, ◌&&◌, ◌==◌, IsTrue, IfOk, length};
ghost use Rattle.sdp_formats_reader.specs.Lines.{bandwidth_line};
ghost use Rattle.sdp_formats_reader.specs.ReaderChoice.{attribute_line};
ghost use Rattle.sdp_formats_reader.specs.WholeLines.{IsLineOf};
ghost use Rattle.sdp_formats_reader.specs.Writable.{is_group, is_unused, ComesBack, IsWritableAttribute};
ghost use Rattle.sdp_formats_reader.specs.Writable.{IsWritableBandwidth};

use crate::attribute_choice::SessionAttributeLine;
use crate::origin_lines::BandwidthLine;
use sdp_formats_data::{SessionAttribute, bandwidth_equality_law, session_attribute_equality_law};
use sdp_formats_grammar::{Lined, Refusal, Stepped};
use sdp_formats_values::Bandwidth;
use std::alloc::{AllocError, Global};

fn is_group(attribute: &SessionAttribute) -> bool
    ensures { result ≡ is_group attribute.now }
{
    matches!(attribute, SessionAttribute::Group { .. })
}

fn is_unused(attribute: &SessionAttribute) -> bool
    ensures { result ≡ is_unused attribute.now }
{
    matches!(attribute, SessionAttribute::Unused(_))
}

fn comes_back(attribute: &SessionAttribute, read: &SessionAttribute) -> bool
    ensures { IsTrue result ↔ ComesBack attribute.now read.now }
{
    session_attribute_equality_law();
    is_unused(read) || *read == *attribute
}

fn is_all(rest: &str, is_so: bool) -> bool
    ensures { result ≡ ((length rest.now == 0) && is_so) }
{
    rest.is_empty() && is_so
}

/// Whether a text is one line, of which the attribute comes back.
fn says_attribute(
    alloc: Global,
    text: &str,
    attribute: &SessionAttribute,
) -> Result<bool, AllocError>
    ensures { IfOk result (λ says. IsTrue says ↔ IsLineOf attribute_line text.now (ComesBack attribute.now)) }
{
    SessionAttributeLine::exact_law();
    match SessionAttributeLine::step(alloc, text) {
        Ok((read, rest)) => Ok(is_all(rest, comes_back(attribute, &read))),
        Err(Refusal::Unfit) => Ok(false),
        Err(Refusal::Memory) => Err(AllocError),
    }
}

fn is_same(bandwidth: &Bandwidth, other: &Bandwidth) -> bool
    ensures { IsTrue result ↔ (bandwidth.now ≡ other.now) }
{
    bandwidth_equality_law();
    *bandwidth == *other
}

/// Whether a text is one line that says the bandwidth.
fn says_bandwidth(alloc: Global, text: &str, bandwidth: &Bandwidth) -> Result<bool, AllocError>
    ensures { IfOk result (λ says. IsTrue says ↔ IsLineOf bandwidth_line text.now (λ b. b ≡ bandwidth.now)) }
{
    BandwidthLine::exact_law();
    match BandwidthLine::step(alloc, text) {
        Ok((read, rest)) => Ok(is_all(rest, is_same(&read, bandwidth))),
        Err(Refusal::Unfit) => Ok(false),
        Err(Refusal::Memory) => Err(AllocError),
    }
}

/// Whether an attribute is no group, and comes back from its line.
#[tactic(auto, unfolding(crate::specs::Writable::IsWritableAttribute))]
pub(crate) fn is_writable_attribute(
    alloc: Global,
    attribute: &SessionAttribute,
) -> Result<bool, AllocError>
    ensures { IfOk result (λ writable. IsTrue writable ↔ IsWritableAttribute attribute.now) }
{
    if is_group(attribute) {
        return Ok(false);
    }
    let text = attribute.to_string(alloc)?;
    says_attribute(alloc, text.as_str(), attribute)
}

/// Whether a bandwidth comes back from its line.
#[tactic(auto, unfolding(crate::specs::Writable::IsWritableBandwidth))]
pub(crate) fn is_writable_bandwidth(
    alloc: Global,
    bandwidth: &Bandwidth,
) -> Result<bool, AllocError>
    ensures { IfOk result (λ writable. IsTrue writable ↔ IsWritableBandwidth bandwidth.now) }
{
    let text = bandwidth.to_string(alloc)?;
    says_bandwidth(alloc, text.as_str(), bandwidth)
}

//! Lines of rows as they are read.

ghost use Rattle.std.specs.Prelude.{◌≡◌, ◌++◌, IfOk, OnOk, filter, map};
ghost use Rattle.rtp_media_sections.specs.Lines.{row_lines};
ghost use Rattle.sdp_formats_reader.specs.AsRead.{as_read, is_level, is_other, params_as_read, spelled_as};

use sdp_formats_data::MediaAttribute;
use sdp_formats_grammar::Listed;
use sdp_formats_rows::PayloadParams;
use sdp_formats_section_rows::AsMediaAttrs;
use sdp_formats_values::FormatParam;
use std::alloc::{AllocError, Global};

/// A parameter as it is read: events as a range, and a type of redundant audio as a list of types.
fn spelled_as(param: FormatParam) -> FormatParam
    ensures { result ≡ spelled_as param }
{
    match param {
        FormatParam::TelephoneEvents(most) => FormatParam::BareRange(most),
        FormatParam::Red(pt) => FormatParam::BarePtList(pt),
        param => param,
    }
}

fn is_level(param: &FormatParam) -> bool
    ensures { result ≡ is_level param.now }
{
    matches!(
        param,
        FormatParam::H265ProfileTierLevel(_) | FormatParam::H266ProfileTierLevel(_)
    )
}

/// Adds the profile, tier and level among parameters.
fn push_levels(params: &[FormatParam], all: &mut Listed<FormatParam>) -> Result<(), AllocError>
    ensures { OnOk result (all.new ≡ all.old ++ filter is_level (map spelled_as params.now)) }
{
    for param in params {
        let said = spelled_as(*param);
        if is_level(&said) {
            all.push(said)?;
        }
    }
    Ok(())
}

/// Adds the others.
fn push_others(params: &[FormatParam], all: &mut Listed<FormatParam>) -> Result<(), AllocError>
    ensures { OnOk result (all.new ≡ all.old ++ filter is_other (map spelled_as params.now)) }
{
    for param in params {
        let said = spelled_as(*param);
        if !is_level(&said) {
            all.push(said)?;
        }
    }
    Ok(())
}

/// Parameters as they are read: a profile, tier and level comes first.
fn params_as_read(alloc: Global, params: &[FormatParam]) -> Result<Listed<FormatParam>, AllocError>
    ensures { IfOk result (λ l. l ≡ params_as_read params.now) }
{
    let mut all = Listed::new(alloc);
    push_levels(params, &mut all)?;
    push_others(params, &mut all)?;
    Ok(all)
}

/// A line as it is read.
fn as_read(alloc: Global, line: MediaAttribute) -> Result<MediaAttribute, AllocError>
    ensures { IfOk result (λ a. a ≡ as_read line) }
{
    if let MediaAttribute::Fmtp { pt, values } = &line {
        return Ok(MediaAttribute::Fmtp {
            pt: *pt,
            values: params_as_read(alloc, values.as_slice())?,
        });
    }
    Ok(line)
}

/// Adds lines as they are read.
fn push_lines(
    alloc: Global,
    lines: Vec<MediaAttribute>,
    attributes: &mut Vec<MediaAttribute>,
) -> Result<(), AllocError>
    ensures { OnOk result (attributes.new.items ≡ attributes.old.items ++ map as_read lines.items) }
{
    for line in lines {
        attributes.push(as_read(alloc, line)?)?;
    }
    Ok(())
}

/// Adds the lines of rows as they are read.
pub(crate) fn push_rows(
    alloc: Global,
    rows: &[PayloadParams],
    attributes: &mut Vec<MediaAttribute>,
) -> Result<(), AllocError>
    ensures { OnOk result (attributes.new.items ≡ attributes.old.items ++ map as_read (row_lines rows.now)) }
{
    for row in rows {
        push_lines(alloc, row.as_media_attrs(alloc)?, attributes)?;
    }
    Ok(())
}

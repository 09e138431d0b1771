//! Mids that reading changes (RFC 5888 4).

ghost use Rattle.std.specs.Prelude.{◌≡◌, IfOk};
ghost use Rattle.rtp_media_browsers.specs.Names.{changed, changed_in, changed_name, mids_of};
ghost use Rattle.sdp_formats_grammar.specs.Line.{without_return};
ghost use Rattle.std.specs.Option.{option_copied};

use rtp_media_sections::mid_of;
use rtp_wire::Mid;
use sdp_formats_data::MediaLine;
use sdp_formats_grammar::{first_part, stripped};
use std::alloc::{AllocError, Global};

/// The line without the CR before its LF.
pub(crate) fn without_return(line: &str) -> &str
    ensures { result.now ≡ without_return line.now }
{
    match line.strip_suffix('\r') {
        Some(line) => line,
        None => line,
    }
}

/// The mid as it is read, if that differs.
fn changed(name: Option<&str>) -> Option<Mid>
    ensures { result ≡ changed (option_copied name.entry) }
{
    let name = name?;
    let mid = Mid::from(name);
    if mid.as_str() == name {
        return None;
    }
    Some(mid)
}

/// The name in a line, as it is read, if that is another.
fn changed_in(line: &str) -> Option<Mid>
    ensures { result ≡ changed_in line.now }
{
    changed(stripped(without_return(line), "a=mid:"))
}

/// The first name in the lines of a text that reading changes, as it is read.
pub(crate) fn changed_name(text: &str) -> Option<Mid>
    ensures { result ≡ changed_name text.now }
{
    let mut rest = Some(text);
    while let Some(left) = rest {
        let (line, behind) = first_part(left, '\n');
        if let Some(name) = changed_in(line) {
            return Some(name);
        }
        rest = behind;
    }
    None
}

/// The names of sections, in order.
pub(crate) fn mids_of(alloc: Global, sections: &[MediaLine]) -> Result<Vec<Mid>, AllocError>
    ensures { IfOk result (λ names. names.items ≡ mids_of sections.now) }
{
    let mut names = Vec::new(alloc);
    for section in sections {
        names.push(mid_of(section))?;
    }
    Ok(names)
}

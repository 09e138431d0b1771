//! The texts of offers and answers.

ghost use Rattle.std.specs.Prelude.{◌≡◌, map, string_bytes, IfOk};
ghost use Rattle.sdp_formats_data.specs.PrintedSession.{sdp_text};
ghost use Rattle.rtp_media_exchange.specs.Offers.{bundle_of, sdp_of};
ghost use Rattle.rtp_media_sections.specs.Lines.{line_of};

use rtp_media_sections::Section;
use rtp_wire::Mid;
use sdp_formats_data::{MediaLine, Session, SessionAttribute};
use sdp_formats_grammar::{Listed, Text};
use sdp_formats_reader::WholeText;
use std::alloc::{AllocError, Global};

fn mids_of(alloc: Global, sections: &[Section]) -> Result<Vec<Mid>, AllocError>
    ensures { IfOk result (λ mids. mids.items ≡ map (λ s. s.mid) sections.now) }
{
    let mut mids = Vec::new(alloc);
    for section in sections {
        mids.push(section.mid)?;
    }
    Ok(mids)
}

/// These sections in one BUNDLE group.
fn bundle_of(alloc: Global, sections: &[Section]) -> Result<SessionAttribute, AllocError>
    ensures { IfOk result (λ group. group ≡ bundle_of sections.now) }
{
    Ok(SessionAttribute::Group {
        typ: Text::of(String::from_str(alloc, "BUNDLE")?),
        mids: Listed::of(mids_of(alloc, sections)?),
    })
}

fn lines_of(alloc: Global, sections: &[Section]) -> Result<Vec<MediaLine>, AllocError>
    ensures { IfOk result (λ lines. lines.items ≡ map line_of sections.now) }
{
    let mut lines = Vec::new(alloc);
    for section in sections {
        lines.push(section.to_line(alloc)?)?;
    }
    Ok(lines)
}

/// The text of a session with these sections, which are one bundle.
///
/// # Errors
///
/// `AllocError` if memory runs out.
pub(crate) fn text_of(
    alloc: Global,
    session: &Session,
    sections: &[Section],
) -> Result<String, AllocError>
    ensures { IfOk result (λ text. string_bytes text ≡ sdp_text (sdp_of session.now sections.now)) }
{
    let bundle = bundle_of(alloc, sections)?;
    let lines = lines_of(alloc, sections)?;
    let text = WholeText {
        session,
        first: &bundle,
        sections: lines.as_slice(),
    };
    text.to_string(alloc)
}

//! A whole session text.

ghost use Rattle.std.specs.Prelude.{◌≡◌};
ghost use Rattle.std.specs.List.{list_all};
ghost use Rattle.sdp_formats_data.specs.Consistency.{is_consistent};
ghost use Rattle.sdp_formats_reader.specs.Grammar.{ReadsSdp, ReadsSession};

use crate::attribute_choice::SessionAttributeLine;
use crate::choice::MediaAttributeLine;
use crate::header::session;
use crate::section::SectionStep;
use sdp_formats_data::{MediaAttribute, MediaLine, Sdp, Session, SessionAttribute, are_consistent};
use sdp_formats_grammar::{Lined, Refusal, many};
use std::alloc::Global;

/// What is before the first section of a text, and the text after it (RFC 8866 5).
///
/// # Errors
///
/// `Unfit` if the text has no good header, `Memory` if memory runs out.
pub(crate) fn read_session(alloc: Global, text: &str) -> Result<(Session, &str), Refusal>
    ensures { ReadsSession text.now result }
{
    <SessionAttributeLine as Lined<SessionAttribute>>::exact_law();
    session(alloc, text)
}

/// What a text says, and what is left of it from the first line on that fits nowhere (RFC 8866 5).
///
/// # Errors
///
/// `Unfit` if the text has no good header, or a section with a fault; `Memory` if memory runs out.
pub(crate) fn read_sdp(alloc: Global, text: &str) -> Result<(Sdp, &str), Refusal>
    ensures { ReadsSdp text.now result }
{
    <SessionAttributeLine as Lined<SessionAttribute>>::exact_law();
    <MediaAttributeLine as Lined<MediaAttribute>>::exact_law();
    let (session, rest) = session(alloc, text)?;
    let (media_lines, rest) = many::<MediaLine, SectionStep>(alloc, rest)?;
    if !are_consistent(media_lines.as_slice()) {
        return Err(Refusal::Unfit);
    }
    Ok((
        Sdp {
            session,
            media_lines,
        },
        rest,
    ))
}

//! Lines that are answered and explained.

ghost use Rattle.std.specs.Prelude.{IfOk, OnErr};
ghost use Rattle.rtp_media_program.specs.Answered.{Explained, PartlyExplained};

use crate::explained::explain;
use crate::known::Known;
use crate::line_runs::answer_lines;
use crate::lines::is_comment;
use crate::respond::Respond;
use crate::status::Status;
use std::alloc::{AllocError, Global};

/// What came of a line, in words, as [`explain`] says it, and its status: a comment or `help` is explained alone, and
/// any other line is answered by `responder` first. Notes the replies.
///
/// # Errors
/// If memory runs out. Of a line that was answered a front of the replies is noted then, perhaps none or all, and else
/// nothing.
pub fn answer_and_explain<A: Respond>(
    alloc: Global,
    responder: &mut A,
    known: &mut Known,
    number: u64,
    line: &[u8],
) -> Result<(String, Status), AllocError>
    ensures explained { IfOk result (λ r. Explained A.gives responder.old responder.new known.old known.new line.now
        r.1) }
    ensures stopped { OnErr result (PartlyExplained A.gives responder.old responder.new known.old known.new line.now) }
{
    let (replies, status) = if is_comment(line) {
        (Vec::new(alloc), Status::Success)
    } else {
        answer_lines(alloc, line, responder).map_err(|_| AllocError)?
    };
    Ok((explain(alloc, known, number, line, &replies)?, status))
}

//! Runs of the program: lines in, replies out.

ghost use Rattle.std.specs.Prelude.{◌≡◌, ℕ, List, [], ◌∷◌, IfErr, IfOk, IfSome, OnErr, Some};
ghost use Rattle.std.specs.List.{list_any};
ghost use Rattle.std.specs.Option.{option_copied};
ghost use Rattle.rtp_media_program.specs.Runs.{Answers, Printed, ReadsAll, status_of};
ghost use Rattle.rtp_media_program.specs.ReplyLines.{is_error_line};
ghost use Rattle.rtp_media_program.specs.Input.{lines_of};
ghost use Rattle.rtp_media_program.specs.Progress.{PrintedOne, GoesOn, Ends};
ghost use Rattle.rtp_media_program.specs.Stops.{StoppedOne, StopsAtEnd, StopsIn, WritesFront};
ghost use Rattle.rtp_media_program.specs.declared.status.RunFault.TheVariants.{Memory};

use crate::line::Line;
use crate::line_buffer::LineBuffer;
use crate::reply::{Reply, print};
use crate::respond::Respond;
use crate::status::{RunFault, Status};
use crate::writing::write_whole;
use std::alloc::{AllocError, Global};
use std::io::{Read, Write};

/// The most reads of a run.
pub const MAX_READS: usize = 16_777_216;

/// The maximum number of bytes of one read.
const PIECE_LENGTH: usize = 4096;

/// Whether an `error line` is among the replies.
fn status_of(replies: &[Reply]) -> Status
    ensures { result ≡ status_of replies.now }
{
    if has_error_line(replies) {
        Status::ErrorLine
    } else {
        Status::Success
    }
}

fn has_error_line(replies: &[Reply]) -> bool
    ensures { result ≡ list_any is_error_line replies.now }
{
    replies.iter().any(|reply| reply.is_error_line())
}

/// The replies to a line, which is `None` if it is too long.
fn replies_to<A: Respond>(
    alloc: Global,
    line: Option<&[u8]>,
    responder: &mut A,
) -> Result<Vec<Reply>, AllocError>
    ensures { IfOk result (λ replies. Answers A.gives responder.old (option_copied line.entry) responder.new
        replies.items) }
{
    let line = match line {
        None => None,
        Some(text) => Line::parse(alloc, text)?,
    };
    match line {
        None => {
            let mut replies = Vec::new(alloc);
            replies.push(Reply::ErrorLine)?;
            Ok(replies)
        }
        Some(line) => match line {
            Line::Empty => Ok(Vec::new(alloc)),
            Line::Command(command) => responder.respond(alloc, command),
        },
    }
}

/// Answers a line, and prints the replies.
fn answer_line<W: Write, A: Respond>(
    alloc: Global,
    line: Option<&[u8]>,
    responder: &mut A,
    writer: &mut W,
) -> Result<Status, RunFault>
    ensures printed { IfOk result (PrintedOne A.gives responder.old (option_copied line.entry) responder.new
        (W.contents writer.old) (W.contents writer.new)) }
    ensures stopped { OnErr result (StoppedOne A.gives responder.old (option_copied line.entry)
        (W.contents writer.old) (W.contents writer.new)) }
{
    let replies = replies_to(alloc, line, responder)?;
    let text = print(alloc, replies.as_slice())?;
    write_whole(writer, text.as_slice())?;
    Ok(status_of(replies.as_slice()))
}

/// Takes one byte of the input.
fn take_byte<W: Write, A: Respond>(
    alloc: Global,
    byte: u8,
    status: Status,
    line: &mut LineBuffer,
    responder: &mut A,
    writer: &mut W,
) -> Result<Status, RunFault>
    ensures goes_on { IfOk result (λ later. GoesOn A.gives (byte ∷ []) responder.old (W.contents writer.old) line.old
        status responder.new (W.contents writer.new) line.new later) }
    ensures stopped { OnErr result (StopsIn A.gives (byte ∷ []) responder.old (W.contents writer.old) line.old
        status (W.contents writer.new)) }
{
    if byte != b'\n' {
        line.push(byte)?;
        return Ok(status);
    }
    let last = answer_line(alloc, line.text(), responder, writer)?;
    line.clear();
    Ok(status.and(last))
}

/// Takes bytes of the input, one after the other.
fn take_piece<W: Write, A: Respond>(
    alloc: Global,
    piece: &[u8],
    status: Status,
    line: &mut LineBuffer,
    responder: &mut A,
    writer: &mut W,
) -> Result<Status, RunFault>
    ensures goes_on { IfOk result (λ later. GoesOn A.gives piece.now responder.old (W.contents writer.old) line.old
        status responder.new (W.contents writer.new) line.new later) }
    ensures stopped { OnErr result (StopsIn A.gives piece.now responder.old (W.contents writer.old) line.old
        status (W.contents writer.new)) }
{
    let mut status = status;
    for byte in piece {
        status = take_byte(alloc, *byte, status, line, responder, writer)?;
    }
    Ok(status)
}

/// Answers the last line, if the input doesn't end with a line feed.
fn take_end<W: Write, A: Respond>(
    alloc: Global,
    status: Status,
    line: &LineBuffer,
    responder: &mut A,
    writer: &mut W,
) -> Result<Status, RunFault>
    ensures ends { IfOk result (λ later. Ends A.gives responder.old (W.contents writer.old) line.now status
        responder.new (W.contents writer.new) later) }
    ensures stopped { OnErr result (StopsAtEnd A.gives responder.old (W.contents writer.old) line.now status
        (W.contents writer.new)) }
{
    if line.is_empty() {
        return Ok(status);
    }
    let last = answer_line(alloc, line.text(), responder, writer)?;
    Ok(status.and(last))
}

/// Reads lines to the end of the input, answers each by `responder`, and writes the replies.
///
/// A line ends at a line feed or at the end of the input. One that is longer than
/// [`MAX_LINE_LENGTH`] bytes, or isn't understood, is answered by `error line`.
///
/// # Errors
/// At the first read or write that fails, if the input doesn't end within [`MAX_READS`]
/// reads, and where memory runs out. What is written then is a front of the replies to the first lines.
pub fn run_lines<R: Read, W: Write, A: Respond>(
    alloc: Global,
    reader: &mut R,
    writer: &mut W,
    responder: &mut A,
) -> Result<Status, RunFault>
    ensures read { IfOk result (λ status. (input : List ℕ)
        × ReadsAll (R.remaining reader.old) (R.remaining reader.new) input
        × Printed A.gives responder.old responder.new (W.contents writer.old) (W.contents writer.new) input status) }
    ensures known { IfOk result (λ status. IfSome (R.remaining reader.old) (λ input.
        Printed A.gives responder.old responder.new (W.contents writer.old) (W.contents writer.new) input status)) }
    ensures stopped { OnErr result (IfSome (R.remaining reader.old) (λ input.
        WritesFront A.gives responder.old (W.contents writer.old) (W.contents writer.new) (lines_of input))) }
{
    run_within(alloc, MAX_READS, reader, writer, responder)
}

/// Takes the whole input, which is at hand.
fn take_all<W: Write, A: Respond>(
    alloc: Global,
    lines: &[u8],
    responder: &mut A,
    writer: &mut W,
) -> Result<Status, RunFault>
    ensures { IfOk result (λ status. Printed A.gives responder.old responder.new (W.contents writer.old)
        (W.contents writer.new) lines.now status) }
{
    let mut line = LineBuffer::new(alloc);
    let status = take_piece(alloc, lines, Status::Success, &mut line, responder, writer)?;
    take_end(alloc, status, &line, responder, writer)
}

/// Answers lines that are at hand by `responder`, as [`run_lines`] does, however many they are; what it would write,
/// and its status.
///
/// # Errors
/// If memory runs out.
pub fn answer_lines<A: Respond>(
    alloc: Global,
    lines: &[u8],
    responder: &mut A,
) -> Result<(Vec<u8>, Status), RunFault>
    ensures answered { IfOk result (λ r. Printed A.gives responder.old responder.new (Some []) (Some r.0.items)
        lines.now r.1) }
    ensures fault { IfErr result (λ e. e ≡ Memory) }
{
    let mut replies = Vec::new(alloc);
    match take_all(alloc, lines, responder, &mut replies) {
        Ok(status) => Ok((replies, status)),
        // There is no read, and a list takes whatever is written while there is memory.
        Err(_) => Err(RunFault::Memory),
    }
}

/// Does what [`run_lines`] does in at most `reads` reads.
///
/// # Errors
/// As [`run_lines`], and where the input doesn't end within `reads` reads.
pub fn run_within<R: Read, W: Write, A: Respond>(
    alloc: Global,
    reads: usize,
    reader: &mut R,
    writer: &mut W,
    responder: &mut A,
) -> Result<Status, RunFault>
    ensures read { IfOk result (λ status. (input : List ℕ)
        × ReadsAll (R.remaining reader.old) (R.remaining reader.new) input
        × Printed A.gives responder.old responder.new (W.contents writer.old) (W.contents writer.new) input status) }
    ensures stopped { OnErr result (IfSome (R.remaining reader.old) (λ input.
        WritesFront A.gives responder.old (W.contents writer.old) (W.contents writer.new) (lines_of input))) }
{
    let mut piece = [0u8; PIECE_LENGTH];
    let mut line = LineBuffer::new(alloc);
    let mut status = Status::Success;
    for _ in 0..reads {
        let Ok(count) = reader.read(&mut piece) else {
            return Err(RunFault::Read);
        };
        if count == 0 {
            let status = take_end(alloc, status, &line, responder, writer)?;
            if writer.flush().is_err() {
                return Err(RunFault::Write);
            }
            return Ok(status);
        }
        status = take_piece(alloc, &piece[..count], status, &mut line, responder, writer)?;
    }
    Err(RunFault::Read)
}

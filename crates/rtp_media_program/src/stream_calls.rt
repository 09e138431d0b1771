//! Lines that ask something of one stream.

ghost use Rattle.std.specs.Prelude.{◌≡◌, ◌++◌, [], ◌∷◌, map, IfOk};
ghost use Rattle.rtp_media_program.specs.declared.command.Command.{Command};
ghost use Rattle.rtp_media_program.specs.Streams.{IsAnswered, IsStep, ask_at};
ghost use Rattle.rtp_media_program.specs.declared.command.Ask.{Ask};

use crate::command::{Ask, AskCommand, Bound, BoundCommand};
use crate::memory_name::memory;
use crate::replies::one;
use crate::reply::Reply;
use rtp_media_ends::End;
use rtp_wire::SeqNo;
use std::alloc::{AllocError, Global};

/// Asks something of a stream: an error line if there is no such stream.
///
/// # Errors
/// Out of memory for the replies.
pub fn ask(alloc: Global, end: &mut End, command: AskCommand) -> Result<Vec<Reply>, AllocError>
    ensures { IfOk result (λ replies. IsAnswered end.old (Command.AskStream command) end.new replies.items) }
{
    let stream = command.stream;
    match command.ask {
        Ask::Next if end.is_sender(stream) => one(alloc, Reply::Next(end.next_number(stream))),
        Ask::Missing if end.is_receiver(stream) => match end.missing(stream) {
            Ok(numbers) => missing_replies(alloc, numbers),
            Err(_) => one(alloc, Reply::Refused(memory())),
        },
        Ask::Close => close(alloc, end, stream),
        _ => one(alloc, Reply::ErrorLine),
    }
}

/// Closes a stream.
fn close(alloc: Global, end: &mut End, stream: usize) -> Result<Vec<Reply>, AllocError>
    ensures { IfOk result (λ replies. IsStep (ask_at Ask.Close end.old stream) end.new replies.items) }
{
    if end.is_sender(stream) {
        end.close_sender(stream);
    } else if end.is_receiver(stream) {
        end.close_receiver(stream);
    } else {
        return one(alloc, Reply::ErrorLine);
    }
    one(alloc, Reply::Done)
}

/// The line for a missing number.
fn missing_reply(number: SeqNo) -> Reply
    ensures { result ≡ Reply.Missing number }
{
    Reply::Missing(number.get())
}

/// A line for each missing number, and `ok`.
fn missing_replies(alloc: Global, numbers: Vec<SeqNo>) -> Result<Vec<Reply>, AllocError>
    ensures { IfOk result (λ replies. replies.items ≡ map (λ y. Reply.Missing y) numbers.items ++ Reply.Done ∷ []) }
{
    let mut replies: Vec<Reply> = numbers.into_iter().map(missing_reply).collect(alloc)?;
    replies.push(Reply::Done)?;
    Ok(replies)
}

/// Sets a bound to a stream's numbers: an error line if there is no such stream.
///
/// # Errors
/// Out of memory for the reply.
pub fn bound(alloc: Global, end: &mut End, command: BoundCommand) -> Result<Vec<Reply>, AllocError>
    ensures { IfOk result (λ replies. IsAnswered end.old (Command.BoundStream command) end.new replies.items) }
{
    let stream = command.stream;
    match command.bound {
        Bound::Skip if end.is_sender(stream) => end.skip_to(stream, command.number),
        Bound::Pass if end.is_receiver(stream) => end.pass_to(stream, SeqNo::from(command.number)),
        Bound::Empty if end.is_receiver(stream) => {
            end.pass_empty(stream, SeqNo::from(command.number));
        }
        Bound::Keep if end.is_receiver(stream) => {
            end.keep_within(stream, command.number as usize);
        }
        _ => return one(alloc, Reply::ErrorLine),
    }
    one(alloc, Reply::Done)
}

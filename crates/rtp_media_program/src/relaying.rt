//! Packets that are sent on without being put together.

ghost use Rattle.std.specs.Prelude.{◌≡◌, IfOk, OnErr, true};
ghost use Rattle.payload_core_base.specs.Outgoing.{outgoing};
ghost use Rattle.rtp_media_ends.specs.Ends.{is_sender_at};
ghost use Rattle.rtp_media_program.specs.Relaying.{AnswersBegin, AnswersForward, AnswersMark, AnswersSwitch, Forwards};
ghost use Rattle.rtp_media_program.specs.Relaying.{ForwardsAt, IsMarked, IsSwitched, SendsOn};

use crate::end_error_names::{forward_error_name, reserve_error_name};
use crate::memory_name::memory;
use crate::relay_words::{ForwardCommand, Mark, MarkCommand, SwitchCommand};
use crate::replies::{one, two};
use crate::reply::Reply;
use crate::streams::{datagram_reply, verdict_reply};
use rtp_media_ends::End;
use rtp_media_forward::{Forwarder, Placed};
use rtp_media_streams::{Arrival, ForwardError};
use std::alloc::{AllocError, Global};

/// Makes a forwarder.
///
/// # Errors
/// If memory runs out.
pub(crate) fn begin(
    alloc: Global,
    forwarders: &mut Vec<Forwarder>,
    first: u64,
) -> Result<Vec<Reply>, AllocError>
    ensures { IfOk result (λ replies. AnswersBegin forwarders.old.items first forwarders.new.items replies.items) }
{
    let number = forwarders.len();
    forwarders.push(Forwarder::new(alloc, first))?;
    one(alloc, Reply::Forwarder(number))
}

/// Has a forwarder go over to a source: an error line, if there is no such forwarder.
///
/// # Errors
/// If memory for the reply runs out.
pub(crate) fn switch(
    alloc: Global,
    forwarders: &mut Vec<Forwarder>,
    command: SwitchCommand,
) -> Result<Vec<Reply>, AllocError>
    ensures { IfOk result (λ replies. AnswersSwitch forwarders.old.items command forwarders.new.items replies.items) }
{
    if command.forwarder >= forwarders.len() {
        return one(alloc, Reply::ErrorLine);
    }
    let forwarder = &mut forwarders[command.forwarder];
    let reply = switched(forwarder, command);
    one(alloc, reply)
}

fn switched(forwarder: &mut Forwarder, command: SwitchCommand) -> Reply
    ensures { IsSwitched command forwarder.old forwarder.new result }
{
    match forwarder.switch(command.source, command.number, command.time, command.at) {
        Ok(()) => Reply::Done,
        Err(_) => Reply::Refused(memory()),
    }
}

/// Tells a forwarder about a number: an error line, if there is no such forwarder.
///
/// # Errors
/// If memory for the reply runs out.
pub(crate) fn tell(
    alloc: Global,
    forwarders: &mut Vec<Forwarder>,
    command: MarkCommand,
) -> Result<Vec<Reply>, AllocError>
    ensures { IfOk result (λ replies. AnswersMark forwarders.old.items command forwarders.new.items replies.items) }
{
    if command.forwarder >= forwarders.len() {
        return one(alloc, Reply::ErrorLine);
    }
    let forwarder = &mut forwarders[command.forwarder];
    let reply = marked(forwarder, command);
    one(alloc, reply)
}

fn marked(forwarder: &mut Forwarder, command: MarkCommand) -> Reply
    ensures { IsMarked command.mark command.number forwarder.old forwarder.new result }
{
    match command.mark {
        Mark::Leave => match forwarder.skip_to(command.number) {
            Ok(()) => Reply::Done,
            Err(_) => Reply::Refused(memory()),
        },
        Mark::Ends => {
            forwarder.end_at(command.number);
            Reply::Done
        }
        Mark::Reserve => match forwarder.reserve(command.number) {
            Ok(first) => Reply::Next(first),
            Err(error) => Reply::Refused(reserve_error_name(error)),
        },
    }
}

/// Has an end send on the packet that a datagram brings: an error line, if there is no such end, stream or forwarder.
///
/// # Errors
/// If memory for the replies runs out.
pub(crate) fn forward(
    alloc: Global,
    end: &mut Option<End>,
    forwarders: &mut Vec<Forwarder>,
    command: ForwardCommand,
) -> Result<Vec<Reply>, AllocError>
    ensures { IfOk result (λ replies. AnswersForward end.old forwarders.old.items command end.new forwarders.new.items
        replies.items) }
{
    match end {
        Some(end) => forward_among(alloc, end, forwarders, command),
        None => one(alloc, Reply::ErrorLine),
    }
}

/// The same at an end that is there.
fn forward_among(
    alloc: Global,
    end: &mut End,
    forwarders: &mut Vec<Forwarder>,
    command: ForwardCommand,
) -> Result<Vec<Reply>, AllocError>
    ensures { IfOk result (λ replies. ForwardsAt end.old forwarders.old.items command end.new forwarders.new.items
        replies.items) }
{
    if command.forwarder >= forwarders.len() {
        return one(alloc, Reply::ErrorLine);
    }
    if !end.is_sender(command.stream) {
        return one(alloc, Reply::ErrorLine);
    }
    let forwarder = &mut forwarders[command.forwarder];
    forward_by(alloc, end, forwarder, command)
}

/// The same with a stream and a forwarder that are there.
fn forward_by(
    alloc: Global,
    end: &mut End,
    forwarder: &mut Forwarder,
    command: ForwardCommand,
) -> Result<Vec<Reply>, AllocError>
    requires { is_sender_at end.old command.stream ≡ true }
    ensures { IfOk result (λ replies. Forwards end.old forwarder.old command end.new forwarder.new replies.items) }
{
    let datagram = command.datagram.as_slice();
    let (source, packet) = match end.arrival(datagram) {
        Ok(found) => found,
        Err(verdict) => return one(alloc, verdict_reply(verdict)),
    };
    let payload = &datagram[packet.start..packet.end];
    let ends = end.ends_frame(source, packet.marker, payload);
    let Some(number) = end.take_number(source, packet.low) else {
        return one(alloc, Reply::NotTaken);
    };
    let number = number.get();
    let came = Reply::Came {
        stream: source,
        number,
    };
    let Some(at) = forwarder.forward(source as u64, number, packet.time, ends) else {
        return two(alloc, came, Reply::NotSent);
    };
    match send_on(end, command.stream, at, packet, payload) {
        Ok(sent) => two(alloc, came, sent),
        Err(_) => one(alloc, Reply::Refused(memory())),
    }
}

/// Sends a packet that came under another number and timestamp.
fn send_on(
    end: &mut End,
    stream: usize,
    at: Placed,
    packet: Arrival,
    payload: &[u8],
) -> Result<Reply, AllocError>
    requires { is_sender_at end.old stream ≡ true }
    ensures sent { let packet = outgoing payload.now packet.marker at.time packet.ext_vals in
        IfOk result (λ told. SendsOn end.old stream at.number packet end.new told) }
    ensures unchanged { OnErr result (end.new ≡ end.old) }
{
    match end.send_packet(
        stream,
        at.number,
        at.time,
        packet.marker,
        &packet.ext_vals,
        payload,
    ) {
        Ok(datagram) => Ok(datagram_reply(datagram)),
        Err(error) => match error {
            ForwardError::Memory => Err(AllocError),
            refusal => Ok(Reply::Refused(forward_error_name(refusal))),
        },
    }
}

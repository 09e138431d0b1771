//! Streams that are opened, and what they send and receive.

ghost use Rattle.std.specs.Prelude.{◌≡◌, ◌++◌, [], ◌∷◌, map, IfOk};
ghost use Rattle.rtp_media_program.specs.declared.command.Command.{Command};
ghost use Rattle.rtp_media_program.specs.Streams.{IsAnswered, params_of, verdict_reply, unit_reply};
ghost use Rattle.rtp_media_program.specs.Streams.{values_given};

use crate::command::{
    OpenCommand, PollCommand, ReceiveCommand, RepairCommand, SampleCommand, SendCommand,
};
use crate::end_error_names::{fault_name, open_error_name, repair_error_name, sample_error_name};
use crate::memory_name::memory;
use crate::owned::{Bytes, Word};
use crate::replies::one;
use crate::reply::Reply;
use payload_core_buffer::{Unit, is_valid_capacity};
use rtp_media_ends::{Distances, End, StreamParams};
use rtp_media_stream_table::Received;
use rtp_media_streams::Datagram;
use rtp_wire::{ExtensionValues, MediaTime, Mid, Pt, Ssrc};
use std::alloc::{AllocError, Global};

/// The distances that a command gives.
fn distances_in(distances: Option<Bytes>) -> Option<Distances>
    ensures { result ≡ distances }
{
    match distances {
        Some(distances) => Some(Distances::from_vec(distances.into_vec())),
        None => None,
    }
}

/// The stream parameters that a command gives.
fn params_of(command: SendCommand) -> StreamParams
    ensures { result ≡ params_of command }
{
    let SendCommand {
        first,
        mtu,
        limit,
        distances,
        picture_id,
        ..
    } = command;
    StreamParams {
        first,
        mtu,
        limit,
        red: distances_in(distances),
        picture_id,
        for_browsers: false,
    }
}

/// Opens a sending stream: an error line, if its parameters aren't sound; a refusal is printed by its name.
///
/// # Errors
/// If memory for the reply runs out.
pub fn send(alloc: Global, end: &mut End, command: SendCommand) -> Result<Vec<Reply>, AllocError>
    ensures { IfOk result (λ replies. IsAnswered end.old (Command.Send command) end.new replies.items) }
{
    let mid = Mid::from(command.mid.as_str());
    let pt = Pt::from(command.pt);
    let ssrc = Ssrc::from(command.ssrc);
    let params = params_of(command);
    if !params.is_sound(end.agreed_red(mid, pt)) {
        return one(alloc, Reply::ErrorLine);
    }
    match end.open_sender(mid, ssrc, pt, params) {
        Ok(stream) => one(alloc, Reply::Sender(stream)),
        Err(error) => one(alloc, Reply::Refused(open_error_name(error))),
    }
}

/// Opens a receiving stream: an error line, if it may not hold as many packets; a refusal is printed by its name.
///
/// # Errors
/// If memory for the reply runs out.
pub fn open(alloc: Global, end: &mut End, command: OpenCommand) -> Result<Vec<Reply>, AllocError>
    ensures { IfOk result (λ replies. IsAnswered end.old (Command.Open command) end.new replies.items) }
{
    let mid = Mid::from(command.mid.as_str());
    let pt = Pt::from(command.pt);
    let ssrc = Ssrc::from(command.ssrc);
    if !is_valid_capacity(command.held) {
        return one(alloc, Reply::ErrorLine);
    }
    match end.open_receiver(mid, ssrc, pt, command.hold_back, command.held) {
        Ok(stream) => one(alloc, Reply::Receiver(stream)),
        Err(error) => one(alloc, Reply::Refused(open_error_name(error))),
    }
}

/// Sends a sample: an error line, if there is no such stream; a refusal is printed by its name.
///
/// # Errors
/// If memory for replies runs out.
pub fn sample(
    alloc: Global,
    end: &mut End,
    command: SampleCommand,
) -> Result<Vec<Reply>, AllocError>
    ensures { IfOk result (λ replies. IsAnswered end.old (Command.Sample command) end.new replies.items) }
{
    if !end.is_sender(command.stream) {
        return one(alloc, Reply::ErrorLine);
    }
    let time = MediaTime::new(command.time, end.clock_rate(command.stream));
    let values = values_given(&command.mid);
    match end.push_sample(command.stream, time, command.sample.as_slice(), &values) {
        Ok(datagrams) => datagram_replies(alloc, datagrams),
        Err(error) => one(alloc, Reply::Refused(sample_error_name(error))),
    }
}

/// The values that a sample is given.
fn values_given(mid: &Option<Word>) -> ExtensionValues
    ensures { result ≡ values_given mid.now }
{
    let mut values = ExtensionValues::absent();
    values.mid = match mid {
        Some(text) => Some(Mid::from(text.as_str())),
        None => None,
    };
    values
}

/// The line for a datagram.
pub(crate) fn datagram_reply(datagram: Datagram) -> Reply
    ensures { result ≡ Reply.Datagram datagram }
{
    Reply::Datagram(Bytes::from_vec(datagram.into_vec()))
}

/// A line for each datagram, and `ok`.
fn datagram_replies(alloc: Global, datagrams: Vec<Datagram>) -> Result<Vec<Reply>, AllocError>
    ensures { IfOk result (λ replies. replies.items ≡ map (λ d. Reply.Datagram d) datagrams.items ++ Reply.Done ∷ []) }
{
    let mut replies: Vec<Reply> = datagrams.into_iter().map(datagram_reply).collect(alloc)?;
    replies.push(Reply::Done)?;
    Ok(replies)
}

/// Hands an end a datagram, and prints what it says of it.
///
/// # Errors
/// If memory for the reply runs out.
pub fn receive(
    alloc: Global,
    end: &mut End,
    command: ReceiveCommand,
) -> Result<Vec<Reply>, AllocError>
    ensures { IfOk result (λ replies. IsAnswered end.old (Command.Receive command) end.new replies.items) }
{
    match end.receive(command.datagram.as_slice()) {
        Ok(received) => one(alloc, verdict_reply(received)),
        Err(_) => one(alloc, Reply::Refused(memory())),
    }
}

/// Asks a receiving stream for its next unit: an error line, if there is no such stream.
///
/// # Errors
/// If memory for the reply runs out.
pub fn poll(alloc: Global, end: &mut End, command: PollCommand) -> Result<Vec<Reply>, AllocError>
    ensures { IfOk result (λ replies. IsAnswered end.old (Command.Poll command) end.new replies.items) }
{
    if !end.is_receiver(command.stream) {
        return one(alloc, Reply::ErrorLine);
    }
    match end.poll(command.stream) {
        Ok(unit) => one(alloc, unit_reply(unit)),
        Err(fault) => one(alloc, Reply::Fault(fault_name(fault))),
    }
}

/// Sends a datagram again: an error line, if there is no such stream; a refusal is printed by its name.
///
/// # Errors
/// If memory for the reply runs out.
pub fn repair(
    alloc: Global,
    end: &mut End,
    command: RepairCommand,
) -> Result<Vec<Reply>, AllocError>
    ensures { IfOk result (λ replies. IsAnswered end.old (Command.Repair command) end.new replies.items) }
{
    if !end.is_sender(command.stream) {
        return one(alloc, Reply::ErrorLine);
    }
    match end.repair(command.stream, command.datagram.as_slice()) {
        Ok(datagram) => one(alloc, datagram_reply(datagram)),
        Err(error) => one(alloc, Reply::Refused(repair_error_name(error))),
    }
}

/// The line for what is said of a datagram.
pub fn verdict_reply(received: Received) -> Reply
    ensures { result ≡ verdict_reply received }
{
    match received {
        Received::Unreadable => Reply::Unreadable,
        Received::Foreign => Reply::Foreign,
        Received::Damaged => Reply::Damaged,
        Received::Refused => Reply::NotTaken,
        Received::Taken(stream, number) => Reply::Taken {
            stream,
            number: number.get(),
        },
    }
}

/// The line for what a poll hands out.
pub fn unit_reply(unit: Option<Unit>) -> Reply
    ensures { result ≡ unit_reply unit }
{
    match unit {
        None => Reply::NoUnit,
        Some(unit) => Reply::NextUnit {
            first: unit.first().get(),
            last: unit.last().get(),
            time: unit.time() as u64,
            unit: Bytes::from_vec(unit.into_bytes()),
        },
    }
}

//! The commands of whole runs.

ghost use Rattle.std.specs.Prelude.{◌≡◌, [], ◌∷◌, ◌++◌, true, map, IfOk, OnOk};
ghost use Rattle.rtp_media_ends.specs.Ends.{is_receiver_at, is_sender_at};
ghost use Rattle.rtp_media_program.specs.Replies.{Prints};
ghost use Rattle.rtp_media_program.specs.Playing.{AnswersPlay, PlaysEnds, event_of, played_reply};
ghost use Rattle.rtp_media_program.specs.Playing.{sample_at, samples_for};

use crate::end_error_names::{fault_name, repair_error_name, sample_error_name};
use crate::memory_name::memory;
use crate::play_words::{PlayCommand, PlayItem, PlayItems, QueueCommand};
use crate::replies::one;
use crate::reply::Reply;
use crate::streams::{unit_reply, verdict_reply};
use rtp_media_ends::End;
use rtp_media_runs::{Event, Played, Sample, play};
use rtp_media_streams::{Datagram, PollFault, SampleError};
use rtp_wire::{ExtensionValues, Frequency, MediaTime};
use std::alloc::{AllocError, Global};
use std::mem;

/// Keeps a sample for a run.
///
/// # Errors
/// If memory runs out.
pub(crate) fn keep_sample(
    alloc: Global,
    queue: &mut Vec<QueueCommand>,
    command: QueueCommand,
) -> Result<Vec<Reply>, AllocError>
    ensures kept { OnOk result (queue.new.items ≡ queue.old.items ++ command ∷ []) }
    ensures replies { IfOk result (λ replies. Prints replies.items Reply.Done) }
{
    queue.push(command)?;
    one(alloc, Reply::Done)
}

/// Sends the kept samples at `a`, and lets a schedule happen at `b`: an error line, if an end or a stream is none; a
/// refusal is printed by its name.
///
/// # Errors
/// If memory for samples, the schedule or replies runs out.
pub(crate) fn play_ends(
    alloc: Global,
    a: &mut Option<End>,
    b: &mut Option<End>,
    queue: &mut Vec<QueueCommand>,
    command: PlayCommand,
) -> Result<Vec<Reply>, AllocError>
    ensures { IfOk result (λ replies. PlaysEnds a.old b.old queue.old.items command a.new b.new queue.new.items
        replies.items) }
{
    let Some(a) = a else {
        return one(alloc, Reply::ErrorLine);
    };
    let Some(b) = b else {
        return one(alloc, Reply::ErrorLine);
    };
    if !a.is_sender(command.tx) {
        return one(alloc, Reply::ErrorLine);
    }
    if !b.is_receiver(command.rx) {
        return one(alloc, Reply::ErrorLine);
    }
    let kept = mem::replace(queue, Vec::new(alloc));
    play_kept(alloc, a, b, kept, command)
}

/// The same if both streams are there.
fn play_kept(
    alloc: Global,
    a: &mut End,
    b: &mut End,
    kept: Vec<QueueCommand>,
    command: PlayCommand,
) -> Result<Vec<Reply>, AllocError>
    requires sender { is_sender_at a.old command.tx ≡ true }
    requires receiver { is_receiver_at b.old command.rx ≡ true }
    ensures { IfOk result (λ replies. AnswersPlay a.old b.old (samples_for a.old command.tx kept.items) command a.new
        b.new replies.items) }
{
    let samples = samples_at(alloc, a.clock_rate(command.tx), kept)?;
    let PlayCommand { tx, rx, items } = command;
    let schedule = events_of(alloc, items)?;
    match play(alloc, a, b, tx, rx, &samples, &schedule) {
        Ok(all) => played_replies(alloc, all),
        Err(error) => match error {
            SampleError::Memory => one(alloc, Reply::Refused(memory())),
            refusal => one(alloc, Reply::Refused(sample_error_name(refusal))),
        },
    }
}

/// Kept samples, at a clock rate.
fn samples_at(
    alloc: Global,
    rate: Frequency,
    kept: Vec<QueueCommand>,
) -> Result<Vec<Sample>, AllocError>
    ensures { IfOk result (λ samples. samples.items ≡ map (sample_at rate) kept.items) }
{
    kept.into_iter().map(|q| sample_at(rate, q)).collect(alloc)
}

fn sample_at(rate: Frequency, kept: QueueCommand) -> Sample
    ensures { result ≡ sample_at rate kept }
{
    let QueueCommand { time, sample } = kept;
    Sample::new(
        MediaTime::new(time, rate),
        ExtensionValues::absent(),
        sample.into_vec(),
    )
}

/// What happens at items, one after the other.
fn events_of(alloc: Global, items: PlayItems) -> Result<Vec<Event>, AllocError>
    ensures { IfOk result (λ events. events.items ≡ map event_of items) }
{
    items.into_vec().into_iter().map(event_of).collect(alloc)
}

fn event_of(item: PlayItem) -> Event
    ensures { result ≡ event_of item }
{
    match item {
        PlayItem::Arrive(k) => Event::Arrive(k),
        PlayItem::Repair(k) => Event::Repair(k),
        PlayItem::Foreign(bytes) => Event::Foreign(Datagram::from_vec(bytes.into_vec())),
        PlayItem::Poll => Event::Poll,
    }
}

/// A line for each answer.
fn played_replies(alloc: Global, all: Vec<Played>) -> Result<Vec<Reply>, AllocError>
    ensures { IfOk result (λ replies. replies.items ≡ map played_reply all.items) }
{
    all.into_iter().map(played_reply).collect(alloc)
}

fn played_reply(played: Played) -> Reply
    ensures { result ≡ played_reply played }
{
    match played {
        Played::Received(verdict) => verdict_reply(verdict),
        Played::NotRepaired(refusal) => Reply::Refused(repair_error_name(refusal)),
        Played::Polled(Ok(unit)) => unit_reply(unit),
        Played::Polled(Err(refusal)) => Reply::Fault(fault_name(PollFault::Payload(refusal))),
    }
}

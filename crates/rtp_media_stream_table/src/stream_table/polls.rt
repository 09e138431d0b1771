//! All units that are ready.

ghost use Rattle.std.specs.Prelude.{◌≡◌, IfOk, OnErr};
ghost use Rattle.rtp_media_stream_table.specs.Polled.{AnswersAll, AnswersSome, ArePolledOut, ArePolledSome};

use super::StreamTable;
use crate::open_stream::OpenStream;
use payload_core_buffer::Unit;
use rtp_media_streams::PollFault;
use std::alloc::{AllocError, Global};
use std::marker::Model;

/// What the polls of a stream returned, one after the other.
#[derive(Drop)]
pub struct Polls {
    answers: Vec<Result<Unit, PollFault>>,
}

impl Model for Polls {
    ghost use Rattle.rtp_media_streams.specs.Polls.{Answers};

    ghost Value = { Answers };

    ghost view = { λ p. p.answers.items };
}

impl Polls {
    /// The answers.
    pub fn as_slice(&self) -> &[Result<Unit, PollFault>]
        ensures { result.now ≡ self.now }
    {
        self.answers.as_slice()
    }

    /// The answers, given up.
    pub fn into_vec(self) -> Vec<Result<Unit, PollFault>>
        ensures { result.items ≡ self }
    {
        let Polls { answers } = self;
        answers
    }
}

impl StreamTable {
    /// Polls each receiving stream, in rising number, until it returns None or memory for a unit runs out, and returns
    /// what each stream returned, by its number; one that sends is not polled.
    ///
    /// # Errors
    /// `AllocError` if memory for these lists runs out; some streams were then polled some times.
    pub fn poll_out(&mut self) -> Result<Vec<Polls>, AllocError>
        ensures out { IfOk result (λ polls. ArePolledOut self.old polls.items self.new) }
        ensures some { OnErr result (ArePolledSome self.old self.new) }
    {
        poll_each(self.alloc, &mut self.streams)
    }
}

/// Polls each receiving stream until it returns None or memory runs out.
fn poll_each(alloc: Global, streams: &mut Vec<OpenStream>) -> Result<Vec<Polls>, AllocError>
    ensures out { IfOk result (λ polls. ArePolledOut streams.old.items polls.items streams.new.items) }
    ensures some { OnErr result (ArePolledSome streams.old.items streams.new.items) }
{
    let mut polls = Vec::new(alloc);
    for number in 0..streams.len() {
        let stream = &mut streams[number];
        let answers = poll_out(alloc, stream)?;
        polls.push(answers)?;
    }
    Ok(polls)
}

/// Polls a stream, if it receives, until it returns None or memory runs out.
fn poll_out(alloc: Global, stream: &mut OpenStream) -> Result<Polls, AllocError>
    ensures out { IfOk result (λ polls. AnswersAll stream.old polls stream.new) }
    ensures some { OnErr result (AnswersSome stream.old stream.new) }
{
    let answers = match stream {
        OpenStream::Sender(_) | OpenStream::Closed => Vec::new(alloc),
        OpenStream::Receiver(receiver) => receiver.stream.poll_all()?,
    };
    Ok(Polls { answers })
}

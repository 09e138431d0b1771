//! The program of lines over two ends.

ghost use Rattle.std.specs.Prelude.{◌≡◌, ℕ, List, IfOk, IfSome, OnErr, OnOk};
ghost use Rattle.rtp_media_program.specs.Input.{lines_of};
ghost use Rattle.rtp_media_program.specs.Runs.{Printed, ReadsAll};
ghost use Rattle.rtp_media_program.specs.Stops.{WritesFront};
ghost use Rattle.rtp_media_program.specs.declared.command.Command.{Command};
ghost use Rattle.rtp_media_program.specs.Exchanging.{AtEnd, ConnectsEnds};
ghost use Rattle.rtp_media_program.specs.Playing.{PlaysEnds};
ghost use Rattle.rtp_media_program.specs.ProgramState.{AnswersAt, AnswersAtEnd, AnswersCommand};
ghost use Rattle.rtp_media_program.specs.ProgramState.{AnswersRelay, KeepsDraft, initial_state, letter_of};

use crate::command::Command;
use crate::draft::EndAndDraft;
use crate::exchange::ConnectCommand;
use crate::exchanging::{accept, answer_offer, connect_ends, offer, withdraw};
use crate::line_runs::run_lines;
use crate::making::{draft_ext, draft_row, make_end, make_fixed};
use crate::play_words::{PlayCommand, QueueCommand};
use crate::playing::{keep_sample, play_ends};
use crate::relay_words::RelayCommand;
use crate::relaying::{begin, forward, switch, tell};
use crate::replies::one;
use crate::reply::Reply;
use crate::respond::Respond;
use crate::status::{RunFault, Status};
use crate::stream_calls::{ask, bound};
use crate::streams::{open, poll, receive, repair, sample, send};
use crate::words::Letter;
use rtp_media_ends::End;
use rtp_media_forward::Forwarder;
use std::alloc::{AllocError, Global};
use std::io::{Read, Write};
use std::marker::Model;

/// What the program answers its lines over: what the two letters stand for, the samples that are kept for a run, and
/// the forwarders.
pub struct Program {
    a: EndAndDraft,
    b: EndAndDraft,
    queue: Vec<QueueCommand>,
    forwarders: Vec<Forwarder>,
}

/// Written by hand, so that crates that drop this type need no proof about its fields.
impl Drop for Program {
    fn drop(self) {
        let Program {
            a: _a,
            b: _b,
            queue: _queue,
            forwarders: _forwarders,
        } = self;
    }
}

impl Model for Program {
    ghost use Rattle.rtp_media_program.specs.ProgramState.{ProgramState};
    ghost use Rattle.rtp_wire.specs.Replay.{window_code};
    ghost use Rattle.std.specs.Coded.{codes};

    ghost Value = { ProgramState };

    ghost coded = { Prim.hlevel (codes, window_code) };

    ghost view = { λ p. record { a = p.a; b = p.b; queue = p.queue.items; forwarders = p.forwarders.items } };
}

impl Program {
    /// No end is made, no sample is kept, and there is no forwarder.
    pub fn new(alloc: Global) -> Program
        ensures { result ≡ initial_state }
    {
        Program {
            a: EndAndDraft::clear(alloc),
            b: EndAndDraft::clear(alloc),
            queue: Vec::new(alloc),
            forwarders: Vec::new(alloc),
        }
    }
}

impl Respond for Program {
    ghost use Rattle.rtp_media_program.specs.ProgramState.{AnswersCommand};

    ghost gives = { AnswersCommand };

    #[tactic(auto, unfolding(crate::specs::ProgramState::AnswersCommand))]
    fn respond(&mut self, alloc: Global, command: Command) -> Result<Vec<Reply>, AllocError> {
        match command {
            Command::Connect(command) => connect_both(alloc, &mut self.a, &mut self.b, command),
            Command::Queue(command) => keep_sample(alloc, &mut self.queue, command),
            Command::Play(command) => {
                play_both(alloc, &mut self.a, &mut self.b, &mut self.queue, command)
            }
            Command::Relay(command) => relay(
                alloc,
                &mut self.a,
                &mut self.b,
                &mut self.forwarders,
                command,
            ),
            command => match command_letter(&command) {
                Letter::A => answer(alloc, &mut self.a, command),
                Letter::B => answer(alloc, &mut self.b, command),
            },
        }
    }
}

/// Connects the ends of both letters.
fn connect_both(
    alloc: Global,
    a: &mut EndAndDraft,
    b: &mut EndAndDraft,
    command: ConnectCommand,
) -> Result<Vec<Reply>, AllocError>
    ensures ends { IfOk result (λ replies. ConnectsEnds a.old.end b.old.end command a.new.end b.new.end replies.items) }
    ensures a { OnOk result (KeepsDraft a.old a.new) }
    ensures b { OnOk result (KeepsDraft b.old b.new) }
{
    connect_ends(alloc, &mut a.end, &mut b.end, command)
}

/// Lets a schedule happen between the ends of both letters.
fn play_both(
    alloc: Global,
    a: &mut EndAndDraft,
    b: &mut EndAndDraft,
    queue: &mut Vec<QueueCommand>,
    command: PlayCommand,
) -> Result<Vec<Reply>, AllocError>
    ensures ends { IfOk result (λ replies. PlaysEnds a.old.end b.old.end queue.old.items command a.new.end b.new.end
        queue.new.items replies.items) }
    ensures a { OnOk result (KeepsDraft a.old a.new) }
    ensures b { OnOk result (KeepsDraft b.old b.new) }
{
    play_ends(alloc, &mut a.end, &mut b.end, queue, command)
}

/// Answers a line of forwarders.
fn relay(
    alloc: Global,
    a: &mut EndAndDraft,
    b: &mut EndAndDraft,
    forwarders: &mut Vec<Forwarder>,
    command: RelayCommand,
) -> Result<Vec<Reply>, AllocError>
    ensures { IfOk result (λ replies. AnswersRelay a.old b.old forwarders.old.items command a.new b.new
        forwarders.new.items replies.items) }
{
    match command {
        RelayCommand::Begin(first) => begin(alloc, forwarders, first),
        RelayCommand::Switch(command) => switch(alloc, forwarders, command),
        RelayCommand::Mark(command) => tell(alloc, forwarders, command),
        RelayCommand::Forward(command) => match command.letter {
            Letter::A => forward(alloc, &mut a.end, forwarders, command),
            Letter::B => forward(alloc, &mut b.end, forwarders, command),
        },
    }
}

/// The letter that a command names.
fn command_letter(command: &Command) -> Letter
    ensures { result ≡ letter_of command.now }
{
    match command {
        Command::Fixed(letter) => *letter,
        Command::Send(command) => command.letter,
        Command::Open(command) => command.letter,
        Command::Sample(command) => command.letter,
        Command::Receive(command) => command.letter,
        Command::Poll(command) => command.letter,
        Command::Repair(command) => command.letter,
        Command::AskStream(command) => command.letter,
        Command::BoundStream(command) => command.letter,
        Command::Row(command) => command.letter,
        Command::Ext(command) => command.letter,
        Command::End(command) => command.letter,
        Command::Offer(command) => command.letter,
        Command::Answer(command) => command.letter,
        Command::Accept(command) => command.letter,
        Command::Withdraw(letter) => *letter,
        Command::Connect(_) => Letter::A,
        Command::Queue(_) => Letter::A,
        Command::Play(_) => Letter::A,
        Command::Relay(_) => Letter::A,
    }
}

/// Answers a command at what its letter stands for.
fn answer(alloc: Global, kept: &mut EndAndDraft, command: Command) -> Result<Vec<Reply>, AllocError>
    ensures { IfOk result (λ replies. AnswersAt kept.old command kept.new replies.items) }
{
    match command {
        Command::Row(command) => draft_row(alloc, kept, command),
        Command::Ext(command) => draft_ext(alloc, kept, command),
        Command::End(command) => make_end(alloc, kept, command),
        Command::Fixed(_) => make_fixed(alloc, &mut kept.end),
        command => answer_end(alloc, &mut kept.end, command),
    }
}

/// Answers a command that needs an end: an error line, if there is none.
fn answer_end(
    alloc: Global,
    end: &mut Option<End>,
    command: Command,
) -> Result<Vec<Reply>, AllocError>
    ensures { IfOk result (λ replies. AtEnd end.old end.new replies.items
        (λ e after. AnswersAtEnd e command after replies.items)) }
{
    match end {
        Some(end) => answer_at(alloc, end, command),
        None => one(alloc, Reply::ErrorLine),
    }
}

/// Runs a command that needs an end.
fn answer_at(alloc: Global, end: &mut End, command: Command) -> Result<Vec<Reply>, AllocError>
    ensures { IfOk result (λ replies. AnswersAtEnd end.old command end.new replies.items) }
{
    match command {
        Command::Send(command) => send(alloc, end, command),
        Command::Open(command) => open(alloc, end, command),
        Command::Sample(command) => sample(alloc, end, command),
        Command::Receive(command) => receive(alloc, end, command),
        Command::Poll(command) => poll(alloc, end, command),
        Command::Repair(command) => repair(alloc, end, command),
        Command::AskStream(command) => ask(alloc, end, command),
        Command::BoundStream(command) => bound(alloc, end, command),
        Command::Offer(command) => offer(alloc, end, command),
        Command::Answer(command) => answer_offer(alloc, end, command),
        Command::Accept(command) => accept(alloc, end, command),
        Command::Withdraw(_) => withdraw(alloc, end),
        _ => one(alloc, Reply::ErrorLine),
    }
}

/// Reads lines to the end of the input, answers each over two ends, and writes the replies.
///
/// # Errors
/// At the first read or write that fails, if the input doesn't end within 16,777,216 reads, and
/// where memory for a line or its replies runs out. What is written then is a front of the replies to the first lines.
pub fn run<R: Read, W: Write>(
    alloc: Global,
    reader: &mut R,
    writer: &mut W,
) -> Result<Status, RunFault>
    ensures read { IfOk result (λ status. (input : List ℕ)
        × (ends : Rattle.rtp_media_program.specs.ProgramState.ProgramState)
        × ReadsAll (R.remaining reader.old) (R.remaining reader.new) input
        × Printed AnswersCommand initial_state ends (W.contents writer.old) (W.contents writer.new) input status) }
    ensures stopped { OnErr result (IfSome (R.remaining reader.old) (λ input. WritesFront AnswersCommand initial_state
        (W.contents writer.old) (W.contents writer.new) (lines_of input))) }
{
    let mut program = Program::new(alloc);
    run_lines(alloc, reader, writer, &mut program)
}

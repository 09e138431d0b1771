//! The lines of the program that are understood.

ghost use Rattle.std.specs.Prelude.{◌≡◌, IfOk};
ghost use Rattle.rtp_media_program.specs.Misreads.{Reads};
ghost use Rattle.rtp_media_program.specs.LineForms.{line_of, command_of, exchange_command_of, fixed_of, send_of};
ghost use Rattle.rtp_media_program.specs.LineForms.{open_of};
ghost use Rattle.rtp_media_program.specs.LineForms.{sample_of, receive_of, poll_of, repair_of, run_command_of};
ghost use Rattle.rtp_media_program.specs.LineForms.{ask_of, bound_of, rest_of_send, stream_command_of};

use crate::command::{
    Ask, AskCommand, Bound, BoundCommand, Command, OpenCommand, PollCommand, ReceiveCommand,
    RepairCommand, SampleCommand, SendCommand,
};
use crate::exchange::{
    accept_of, answer_of, connect_of, end_of, ext_of, offer_of, row_of, withdraw_of,
};
use crate::fields::{
    distances_word, held_value, hex_word, letter_word, mid_value, number_word, picture_id_word,
    text_word,
};
use crate::misread::Misread;
use crate::owned::Word;
use crate::play_words::{play_of, queue_of};
use crate::relay_words::relay_command_of;
use crate::words::{Letter, WordsLeft};
use std::alloc::{AllocError, Global};

/// A line that is understood.
#[derive(Drop)]
pub enum Line {
    /// A line of nothing, which asks for nothing.
    Empty,
    /// A line that asks for a call.
    Command(Command),
}

impl Line {
    /// What a line says, without its line feed: words of UTF-8 text that are parted by exactly
    /// one blank. `None` if it isn't understood: at an unknown first word, a wrong number of
    /// words, an empty word, or a word that isn't of its kind.
    ///
    /// # Errors
    /// Only if memory runs out.
    pub fn parse(alloc: Global, bytes: &[u8]) -> Result<Option<Line>, AllocError>
        ensures { IfOk result (λ line. line ≡ line_of bytes.now) }
    {
        if bytes.is_empty() {
            return Ok(Some(Line::Empty));
        }
        let Ok(text) = str::from_utf8(bytes) else {
            return Ok(None);
        };
        match command_of(alloc, WordsLeft::new(text)) {
            Ok(command) => Ok(Some(Line::Command(command))),
            Err(fault) => match fault {
                Misread::NotUnderstood => Ok(None),
                Misread::Memory => Err(AllocError),
            },
        }
    }
}

fn command_of(alloc: Global, words: WordsLeft<'_>) -> Result<Command, Misread>
    ensures { Reads result (command_of words.entry) }
{
    let (verb, rest) = words.next()?;
    match verb {
        "fixed" => fixed_of(rest),
        "send" => send_of(alloc, rest),
        "open" => open_of(alloc, rest),
        "sample" => sample_of(alloc, rest),
        "receive" => receive_of(alloc, rest),
        "poll" => poll_of(rest),
        "repair" => repair_of(alloc, rest),
        _ => stream_command_of(alloc, verb, rest),
    }
}

fn stream_command_of(alloc: Global, verb: &str, rest: WordsLeft<'_>) -> Result<Command, Misread>
    ensures { Reads result (stream_command_of verb.now rest.entry) }
{
    match verb {
        "next" => ask_of(Ask::Next, rest),
        "missing" => ask_of(Ask::Missing, rest),
        "close" => ask_of(Ask::Close, rest),
        "skip" => bound_of(Bound::Skip, rest),
        "pass" => bound_of(Bound::Pass, rest),
        "empty" => bound_of(Bound::Empty, rest),
        "keep" => bound_of(Bound::Keep, rest),
        _ => exchange_command_of(alloc, verb, rest),
    }
}

fn exchange_command_of(alloc: Global, verb: &str, rest: WordsLeft<'_>) -> Result<Command, Misread>
    ensures { Reads result (exchange_command_of verb.now rest.entry) }
{
    match verb {
        "row" => row_of(alloc, rest),
        "ext" => ext_of(alloc, rest),
        "end" => end_of(rest),
        "offer" => offer_of(alloc, rest),
        "answer" => answer_of(alloc, rest),
        "accept" => accept_of(alloc, rest),
        "withdraw" => withdraw_of(rest),
        "connect" => connect_of(alloc, rest),
        _ => run_command_of(alloc, verb, rest),
    }
}

fn run_command_of(alloc: Global, verb: &str, rest: WordsLeft<'_>) -> Result<Command, Misread>
    ensures { Reads result (run_command_of verb.now rest.entry) }
{
    match verb {
        "queue" => queue_of(alloc, rest),
        "play" => play_of(alloc, rest),
        _ => relay_command_of(alloc, verb, rest),
    }
}

#[tactic(auto, unfolding(crate::specs::LineForms::fixed_of))]
fn fixed_of(words: WordsLeft<'_>) -> Result<Command, Misread>
    ensures { Reads result (fixed_of words.entry) }
{
    let (letter, rest) = letter_word(words)?;
    rest.end()?;
    Ok(Command::Fixed(letter))
}

#[tactic(auto, unfolding(crate::specs::LineForms::send_of))]
fn send_of(alloc: Global, words: WordsLeft<'_>) -> Result<Command, Misread>
    ensures { Reads result (send_of words.entry) }
{
    let (letter, rest) = letter_word(words)?;
    let (mid, rest) = text_word(alloc, rest)?;
    let (ssrc, rest) = number_word(rest, u32::MAX as u64)?;
    let (pt, rest) = number_word(rest, u8::MAX as u64)?;
    rest_of_send(alloc, letter, mid, ssrc as u32, pt as u8, rest)
}

/// The words of a `send` line after its payload type.
fn rest_of_send(
    alloc: Global,
    letter: Letter,
    mid: Word,
    ssrc: u32,
    pt: u8,
    words: WordsLeft<'_>,
) -> Result<Command, Misread>
    ensures { Reads result (rest_of_send letter mid ssrc pt words.entry) }
{
    let (first, rest) = number_word(words, u64::MAX)?;
    let (mtu, rest) = number_word(rest, usize::MAX as u64)?;
    let (limit, rest) = number_word(rest, usize::MAX as u64)?;
    let (distances, rest) = distances_word(alloc, rest)?;
    let (picture_id, rest) = picture_id_word(rest)?;
    rest.end()?;
    Ok(Command::Send(SendCommand {
        letter,
        mid,
        ssrc,
        pt,
        first,
        mtu: mtu as usize,
        limit: limit as usize,
        distances,
        picture_id,
    }))
}

#[tactic(auto, unfolding(crate::specs::LineForms::open_of))]
fn open_of(alloc: Global, words: WordsLeft<'_>) -> Result<Command, Misread>
    ensures { Reads result (open_of words.entry) }
{
    let (letter, rest) = letter_word(words)?;
    let (mid, rest) = text_word(alloc, rest)?;
    let (ssrc, rest) = number_word(rest, u32::MAX as u64)?;
    let (pt, rest) = number_word(rest, u8::MAX as u64)?;
    let (hold_back, rest) = number_word(rest, usize::MAX as u64)?;
    let held = held_value(rest)?;
    Ok(Command::Open(OpenCommand {
        letter,
        mid,
        ssrc: ssrc as u32,
        pt: pt as u8,
        hold_back: hold_back as usize,
        held,
    }))
}

#[tactic(auto, unfolding(crate::specs::LineForms::sample_of))]
fn sample_of(alloc: Global, words: WordsLeft<'_>) -> Result<Command, Misread>
    ensures { Reads result (sample_of words.entry) }
{
    let (letter, rest) = letter_word(words)?;
    let (stream, rest) = number_word(rest, usize::MAX as u64)?;
    let (time, rest) = number_word(rest, u64::MAX)?;
    let (sample, rest) = hex_word(alloc, rest)?;
    let mid = mid_value(alloc, rest)?;
    Ok(Command::Sample(SampleCommand {
        letter,
        stream: stream as usize,
        time,
        sample,
        mid,
    }))
}

#[tactic(auto, unfolding(crate::specs::LineForms::receive_of))]
fn receive_of(alloc: Global, words: WordsLeft<'_>) -> Result<Command, Misread>
    ensures { Reads result (receive_of words.entry) }
{
    let (letter, rest) = letter_word(words)?;
    let (datagram, rest) = hex_word(alloc, rest)?;
    rest.end()?;
    Ok(Command::Receive(ReceiveCommand { letter, datagram }))
}

#[tactic(auto, unfolding(crate::specs::LineForms::poll_of))]
fn poll_of(words: WordsLeft<'_>) -> Result<Command, Misread>
    ensures { Reads result (poll_of words.entry) }
{
    let (letter, rest) = letter_word(words)?;
    let (stream, rest) = number_word(rest, usize::MAX as u64)?;
    rest.end()?;
    Ok(Command::Poll(PollCommand {
        letter,
        stream: stream as usize,
    }))
}

#[tactic(auto, unfolding(crate::specs::LineForms::ask_of))]
fn ask_of(ask: Ask, words: WordsLeft<'_>) -> Result<Command, Misread>
    ensures { Reads result (ask_of ask words.entry) }
{
    let (letter, rest) = letter_word(words)?;
    let (stream, rest) = number_word(rest, usize::MAX as u64)?;
    rest.end()?;
    Ok(Command::AskStream(AskCommand {
        letter,
        stream: stream as usize,
        ask,
    }))
}

#[tactic(auto, unfolding(crate::specs::LineForms::bound_of))]
fn bound_of(bound: Bound, words: WordsLeft<'_>) -> Result<Command, Misread>
    ensures { Reads result (bound_of bound words.entry) }
{
    let (letter, rest) = letter_word(words)?;
    let (stream, rest) = number_word(rest, usize::MAX as u64)?;
    let (number, rest) = number_word(rest, u64::MAX)?;
    rest.end()?;
    Ok(Command::BoundStream(BoundCommand {
        letter,
        stream: stream as usize,
        number,
        bound,
    }))
}

#[tactic(auto, unfolding(crate::specs::LineForms::repair_of))]
fn repair_of(alloc: Global, words: WordsLeft<'_>) -> Result<Command, Misread>
    ensures { Reads result (repair_of words.entry) }
{
    let (letter, rest) = letter_word(words)?;
    let (stream, rest) = number_word(rest, usize::MAX as u64)?;
    let (datagram, rest) = hex_word(alloc, rest)?;
    rest.end()?;
    Ok(Command::Repair(RepairCommand {
        letter,
        stream: stream as usize,
        datagram,
    }))
}

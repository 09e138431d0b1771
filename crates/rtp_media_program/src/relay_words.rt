//! The lines of forwarders.

ghost use Rattle.std.specs.Prelude.{◌≡◌};
ghost use Rattle.rtp_media_program.specs.Misreads.{Reads};
ghost use Rattle.rtp_media_program.specs.RelayLines.{begin_of, forward_of, mark_of, relay_command_of, switch_of};

use crate::command::Command;
use crate::fields::{hex_word, letter_word, number_word};
use crate::misread::Misread;
use crate::owned::Bytes;
use crate::words::{Letter, WordsLeft};
use std::alloc::Global;

/// `forward E N R HEX`: have an end send on the packet that a datagram brings to it.
#[derive(Drop)]
pub struct ForwardCommand {
    /// The end.
    pub letter: Letter,
    /// The number of the sending stream that sends it on.
    pub stream: usize,
    /// The number of the forwarder that says under which number and timestamp.
    pub forwarder: usize,
    /// The datagram's bytes.
    pub datagram: Bytes,
}

/// `switch R SOURCE NUMBER TIMESTAMP AT`: have a forwarder go over to a source.
#[derive(Clone, Copy)]
pub struct SwitchCommand {
    /// The number of the forwarder.
    pub forwarder: usize,
    /// The number of the receiving stream.
    pub source: u64,
    /// The number of its first packet that is sent on.
    pub number: u64,
    /// The timestamp of that packet.
    pub time: u32,
    /// The timestamp under which it is sent on.
    pub at: u32,
}

/// What a forwarder is told about a number.
#[derive(Clone, Copy)]
pub enum Mark {
    /// What the source sends before its packet of this number is left out.
    Leave,
    /// What is sent on ends before the source's packet of this number.
    Ends,
    /// This many numbers are kept for others.
    Reserve,
}

/// `leave R NUMBER`, `ends R NUMBER`, `reserve R COUNT`: tell a forwarder about a number.
#[derive(Clone, Copy)]
pub struct MarkCommand {
    /// The number of the forwarder.
    pub forwarder: usize,
    /// The number.
    pub number: u64,
    /// What it means.
    pub mark: Mark,
}

/// A line of forwarders.
#[derive(Drop)]
pub enum RelayCommand {
    /// `forwarder FIRST`: make a forwarder whose first packet gets this number.
    Begin(u64),
    /// Have a forwarder go over to a source.
    Switch(SwitchCommand),
    /// Tell a forwarder about a number.
    Mark(MarkCommand),
    /// Have an end send a packet on.
    Forward(ForwardCommand),
}

/// What a line of forwarders says, by its first word.
pub(crate) fn relay_command_of(
    alloc: Global,
    verb: &str,
    rest: WordsLeft<'_>,
) -> Result<Command, Misread>
    ensures { Reads result (relay_command_of verb.now rest.entry) }
{
    match verb {
        "forwarder" => begin_of(rest),
        "forward" => forward_of(alloc, rest),
        "switch" => switch_of(rest),
        "leave" => mark_of(Mark::Leave, rest),
        "ends" => mark_of(Mark::Ends, rest),
        "reserve" => mark_of(Mark::Reserve, rest),
        _ => Err(Misread::NotUnderstood),
    }
}

#[tactic(auto, unfolding(crate::specs::RelayLines::begin_of))]
fn begin_of(words: WordsLeft<'_>) -> Result<Command, Misread>
    ensures { Reads result (begin_of words.entry) }
{
    let (first, rest) = number_word(words, u64::MAX)?;
    rest.end()?;
    Ok(Command::Relay(RelayCommand::Begin(first)))
}

#[tactic(auto, unfolding(crate::specs::RelayLines::forward_of))]
fn forward_of(alloc: Global, words: WordsLeft<'_>) -> Result<Command, Misread>
    ensures { Reads result (forward_of words.entry) }
{
    let (letter, rest) = letter_word(words)?;
    let (stream, rest) = number_word(rest, usize::MAX as u64)?;
    let (forwarder, rest) = number_word(rest, usize::MAX as u64)?;
    let (datagram, rest) = hex_word(alloc, rest)?;
    rest.end()?;
    Ok(Command::Relay(RelayCommand::Forward(ForwardCommand {
        letter,
        stream: stream as usize,
        forwarder: forwarder as usize,
        datagram,
    })))
}

#[tactic(auto, unfolding(crate::specs::RelayLines::switch_of))]
fn switch_of(words: WordsLeft<'_>) -> Result<Command, Misread>
    ensures { Reads result (switch_of words.entry) }
{
    let (forwarder, rest) = number_word(words, usize::MAX as u64)?;
    let (source, rest) = number_word(rest, u64::MAX)?;
    let (number, rest) = number_word(rest, u64::MAX)?;
    let (time, rest) = number_word(rest, u32::MAX as u64)?;
    let (at, rest) = number_word(rest, u32::MAX as u64)?;
    rest.end()?;
    Ok(Command::Relay(RelayCommand::Switch(SwitchCommand {
        forwarder: forwarder as usize,
        source,
        number,
        time: time as u32,
        at: at as u32,
    })))
}

#[tactic(auto, unfolding(crate::specs::RelayLines::mark_of))]
fn mark_of(mark: Mark, words: WordsLeft<'_>) -> Result<Command, Misread>
    ensures { Reads result (mark_of mark words.entry) }
{
    let (forwarder, rest) = number_word(words, usize::MAX as u64)?;
    let (number, rest) = number_word(rest, u64::MAX)?;
    rest.end()?;
    Ok(Command::Relay(RelayCommand::Mark(MarkCommand {
        forwarder: forwarder as usize,
        number,
        mark,
    })))
}

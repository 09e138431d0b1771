//! The lines of whole runs.

ghost use Rattle.std.specs.Prelude.{◌≡◌, ◌^◌, ℕ, List};
ghost use Rattle.rtp_media_program.specs.Misreads.{Reads};
ghost use Rattle.rtp_media_program.specs.PlayLines.{item_of, items_of, play_of, queue_of};
ghost use Rattle.rtp_media_program.specs.Words.{number_below};

use crate::command::Command;
use crate::fields::{behind, hex_of, hex_word, number_up_to, number_word};
use crate::misread::Misread;
use crate::owned::Bytes;
use crate::words::WordsLeft;
use std::alloc::Global;
use std::marker::Model;

/// `queue TIME HEX`: keep a sample for a run.
#[derive(Drop)]
pub struct QueueCommand {
    /// The time, at the clock rate of the row of the stream that sends it.
    pub time: u64,
    /// The sample's bytes.
    pub sample: Bytes,
}

/// What happens in a run.
#[derive(Drop)]
pub enum PlayItem {
    /// `a3`: the sender's datagram with index 3 (from 0) arrives.
    Arrive(usize),
    /// `r3`: the sender's datagram with index 3 (from 0) is retransmitted, and the retransmission
    /// arrives.
    Repair(usize),
    /// `fHEX`: other bytes arrive.
    Foreign(Bytes),
    /// `p`: the receiving stream is polled.
    Poll,
}

/// What happens in a run, one after the other.
#[derive(Drop)]
pub struct PlayItems {
    items: Vec<PlayItem>,
}

impl Model for PlayItems {
    ghost use Rattle.std.specs.Prelude.{List};
    ghost use Rattle.rtp_media_program.specs.declared.play_words.PlayItem.{PlayItem};

    ghost Value = { List PlayItem };

    ghost view = { λ s. s.items.items };
}

impl PlayItems {
    /// The items as a vector, which is not copied.
    pub fn into_vec(self) -> Vec<PlayItem>
        ensures { result.items ≡ self }
    {
        let PlayItems { items } = self;
        items
    }
}

/// `play TX RX ITEM..`: send what was kept at `a`, and let a schedule happen at `b`.
#[derive(Drop)]
pub struct PlayCommand {
    /// The number of the sending stream of `a`.
    pub tx: usize,
    /// The number of the receiving stream of `b`.
    pub rx: usize,
    /// What happens at `b`.
    pub items: PlayItems,
}

/// What the words after the first one of `queue TIME HEX` say.
///
/// # Errors
/// `NotUnderstood` if they aren't such words, `Memory` if memory runs out.
#[tactic(auto, unfolding(crate::specs::PlayLines::queue_of))]
pub fn queue_of(alloc: Global, words: WordsLeft<'_>) -> Result<Command, Misread>
    ensures { Reads result (queue_of words.entry) }
{
    let (time, rest) = number_word(words, u64::MAX)?;
    let (sample, rest) = hex_word(alloc, rest)?;
    rest.end()?;
    Ok(Command::Queue(QueueCommand { time, sample }))
}

/// What the words after the first one of `play TX RX ITEM..` say.
///
/// # Errors
/// `NotUnderstood` if they aren't such words, `Memory` if memory runs out.
#[tactic(auto, unfolding(crate::specs::PlayLines::play_of))]
pub fn play_of(alloc: Global, words: WordsLeft<'_>) -> Result<Command, Misread>
    ensures { Reads result (play_of words.entry) }
{
    let (tx, rest) = number_word(words, usize::MAX as u64)?;
    let (rx, rest) = number_word(rest, usize::MAX as u64)?;
    let items = item_words(alloc, rest)?;
    Ok(Command::Play(PlayCommand {
        tx: tx as usize,
        rx: rx as usize,
        items,
    }))
}

/// The item of a word.
#[tactic(auto, unfolding(crate::specs::PlayLines::item_of))]
fn item_of(alloc: Global, word: &str) -> Result<PlayItem, Misread>
    ensures { Reads result (item_of word.now) }
{
    if word == "p" {
        return Ok(PlayItem::Poll);
    }
    if let Some(bytes) = behind(word, "f") {
        return Ok(PlayItem::Foreign(hex_of(alloc, bytes)?));
    }
    if let Some(number) = behind(word, "r") {
        return Ok(PlayItem::Repair(place_of(number)?));
    }
    let Some(number) = behind(word, "a") else {
        return Err(Misread::NotUnderstood);
    };
    Ok(PlayItem::Arrive(place_of(number)?))
}

/// The place of a datagram.
fn place_of(number: &str) -> Result<usize, Misread>
    ensures { Reads result (number_below (2 ^ 64) number.now) }
{
    match number_up_to(number, usize::MAX as u64) {
        Some(number) => Ok(number as usize),
        None => Err(Misread::NotUnderstood),
    }
}

/// The items of all words that are left.
fn item_words(alloc: Global, words: WordsLeft<'_>) -> Result<PlayItems, Misread>
    ensures { Reads result (items_of words.entry) }
{
    let mut items = Vec::new(alloc);
    let mut rest = words;
    while let Ok((word, after)) = rest.next() {
        items.push(item_of(alloc, word)?)?;
        rest = after;
    }
    Ok(PlayItems { items })
}

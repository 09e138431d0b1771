//! The lines that make ends and exchange their texts.

ghost use Rattle.rtp_media_program.specs.Misreads.{Reads};
ghost use Rattle.rtp_media_program.specs.ExchangeLines.{row_of, ext_of, end_of, offer_of, answer_of, accept_of};
ghost use Rattle.rtp_media_program.specs.ExchangeLines.{withdraw_of, connect_of, rest_of_row};

use crate::command::Command;
use crate::fields::{
    hex_word, letter_word, number_or_dash_word, number_word, text_or_dash_word, text_word,
};
use crate::misread::Misread;
use crate::owned::{Bytes, Word};
use crate::sections::{Sections, section_words, sections_before_slash};
use crate::words::{Letter, WordsLeft};
use std::alloc::Global;

/// `row E PT RTX RED CODEC CLOCK CHANNELS FMTP`: put a row into the draft of an end.
#[derive(Drop)]
pub struct RowCommand {
    /// The end whose draft it is.
    pub letter: Letter,
    /// The payload type (RFC 3551 6).
    pub pt: u8,
    /// The type of retransmissions (RFC 4588), or none at a dash.
    pub resend: Option<u8>,
    /// The type of redundant audio (RFC 2198), or none at a dash.
    pub red: Option<u8>,
    /// The name of the codec (RFC 8866 6.6).
    pub codec: Word,
    /// The clock rate in ticks a second.
    pub clock_rate: u32,
    /// The number of channels, or none at a dash.
    pub channels: Option<u8>,
    /// The format parameters as an `a=fmtp` line has them (RFC 8866 6.15), or none at a dash.
    pub format: Option<Word>,
}

/// `ext E ID URI`: put a header extension into the draft of an end.
#[derive(Drop)]
pub struct ExtCommand {
    /// The end whose draft it is.
    pub letter: Letter,
    /// The number in headers (RFC 8285 4).
    pub id: u8,
    /// The URI that names the extension.
    pub uri: Word,
}

/// `end E SESSION`: replace an end by a new one of its draft.
#[derive(Clone, Copy, Debug, PartialEq, Eq)]
pub struct EndCommand {
    /// The end.
    pub letter: Letter,
    /// The number of its session (RFC 8866 5.2).
    pub session: u64,
}

/// `offer E SECTION..`: ask for the text of an offer.
#[derive(Drop)]
pub struct OfferCommand {
    /// The end that offers.
    pub letter: Letter,
    /// The sections that it wants.
    pub sections: Sections,
}

/// `answer E HEX SECTION..`: answer an offer.
#[derive(Drop)]
pub struct AnswerCommand {
    /// The end that answers.
    pub letter: Letter,
    /// The bytes of the offer's text.
    pub text: Bytes,
    /// The sections that it wants.
    pub sections: Sections,
}

/// `accept E HEX`: take the answer to an offer.
#[derive(Drop)]
pub struct AcceptCommand {
    /// The end that offered.
    pub letter: Letter,
    /// The bytes of the answer's text.
    pub text: Bytes,
}

/// `connect SECTION.. / SECTION..`: let `a` offer and `b` answer.
#[derive(Drop)]
pub struct ConnectCommand {
    /// The sections that `a` wants.
    pub offered: Sections,
    /// The sections that `b` wants.
    pub answered: Sections,
}

/// What the words after the first one of `row E PT RTX RED CODEC CLOCK CHANNELS FMTP` say.
///
/// # Errors
/// `NotUnderstood` if they aren't such words, `Memory` if memory runs out.
#[tactic(auto, unfolding(crate::specs::ExchangeLines::row_of))]
pub fn row_of(alloc: Global, words: WordsLeft<'_>) -> Result<Command, Misread>
    ensures { Reads result (row_of words.entry) }
{
    let (letter, rest) = letter_word(words)?;
    let (pt, rest) = number_word(rest, u8::MAX as u64)?;
    let (resend, rest) = number_or_dash_word(rest)?;
    let (red, rest) = number_or_dash_word(rest)?;
    rest_of_row(alloc, letter, pt as u8, resend, red, rest)
}

/// The words of a `row` line after its types.
fn rest_of_row(
    alloc: Global,
    letter: Letter,
    pt: u8,
    resend: Option<u8>,
    red: Option<u8>,
    words: WordsLeft<'_>,
) -> Result<Command, Misread>
    ensures { Reads result (rest_of_row letter pt resend red words.entry) }
{
    let (codec, rest) = text_word(alloc, words)?;
    let (clock_rate, rest) = number_word(rest, u32::MAX as u64)?;
    let (channels, rest) = number_or_dash_word(rest)?;
    let (format, rest) = text_or_dash_word(alloc, rest)?;
    rest.end()?;
    Ok(Command::Row(RowCommand {
        letter,
        pt,
        resend,
        red,
        codec,
        clock_rate: clock_rate as u32,
        channels,
        format,
    }))
}

/// What the words after the first one of `ext E ID URI` say.
///
/// # Errors
/// `NotUnderstood` if they aren't such words, `Memory` if memory runs out.
#[tactic(auto, unfolding(crate::specs::ExchangeLines::ext_of))]
pub fn ext_of(alloc: Global, words: WordsLeft<'_>) -> Result<Command, Misread>
    ensures { Reads result (ext_of words.entry) }
{
    let (letter, rest) = letter_word(words)?;
    let (id, rest) = number_word(rest, u8::MAX as u64)?;
    let (uri, rest) = text_word(alloc, rest)?;
    rest.end()?;
    Ok(Command::Ext(ExtCommand {
        letter,
        id: id as u8,
        uri,
    }))
}

/// What the words after the first one of `end E SESSION` say.
///
/// # Errors
/// `NotUnderstood` if they aren't such words.
#[tactic(auto, unfolding(crate::specs::ExchangeLines::end_of))]
pub fn end_of(words: WordsLeft<'_>) -> Result<Command, Misread>
    ensures { Reads result (end_of words.entry) }
{
    let (letter, rest) = letter_word(words)?;
    let (session, rest) = number_word(rest, u64::MAX)?;
    rest.end()?;
    Ok(Command::End(EndCommand { letter, session }))
}

/// What the words after the first one of `offer E SECTION..` say.
///
/// # Errors
/// `NotUnderstood` if they aren't such words, `Memory` if memory runs out.
#[tactic(auto, unfolding(crate::specs::ExchangeLines::offer_of))]
pub fn offer_of(alloc: Global, words: WordsLeft<'_>) -> Result<Command, Misread>
    ensures { Reads result (offer_of words.entry) }
{
    let (letter, rest) = letter_word(words)?;
    let sections = section_words(alloc, rest)?;
    Ok(Command::Offer(OfferCommand { letter, sections }))
}

/// What the words after the first one of `answer E HEX SECTION..` say.
///
/// # Errors
/// `NotUnderstood` if they aren't such words, `Memory` if memory runs out.
#[tactic(auto, unfolding(crate::specs::ExchangeLines::answer_of))]
pub fn answer_of(alloc: Global, words: WordsLeft<'_>) -> Result<Command, Misread>
    ensures { Reads result (answer_of words.entry) }
{
    let (letter, rest) = letter_word(words)?;
    let (text, rest) = hex_word(alloc, rest)?;
    let sections = section_words(alloc, rest)?;
    Ok(Command::Answer(AnswerCommand {
        letter,
        text,
        sections,
    }))
}

/// What the words after the first one of `accept E HEX` say.
///
/// # Errors
/// `NotUnderstood` if they aren't such words, `Memory` if memory runs out.
#[tactic(auto, unfolding(crate::specs::ExchangeLines::accept_of))]
pub fn accept_of(alloc: Global, words: WordsLeft<'_>) -> Result<Command, Misread>
    ensures { Reads result (accept_of words.entry) }
{
    let (letter, rest) = letter_word(words)?;
    let (text, rest) = hex_word(alloc, rest)?;
    rest.end()?;
    Ok(Command::Accept(AcceptCommand { letter, text }))
}

/// What the words after the first one of `withdraw E` say.
///
/// # Errors
/// `NotUnderstood` if they aren't such words.
#[tactic(auto, unfolding(crate::specs::ExchangeLines::withdraw_of))]
pub fn withdraw_of(words: WordsLeft<'_>) -> Result<Command, Misread>
    ensures { Reads result (withdraw_of words.entry) }
{
    let (letter, rest) = letter_word(words)?;
    rest.end()?;
    Ok(Command::Withdraw(letter))
}

/// What the words after the first one of `connect SECTION.. / SECTION..` say.
///
/// # Errors
/// `NotUnderstood` if they aren't such words, `Memory` if memory runs out.
#[tactic(auto, unfolding(crate::specs::ExchangeLines::connect_of))]
pub fn connect_of(alloc: Global, words: WordsLeft<'_>) -> Result<Command, Misread>
    ensures { Reads result (connect_of words.entry) }
{
    let (offered, rest) = sections_before_slash(alloc, words)?;
    let answered = section_words(alloc, rest)?;
    Ok(Command::Connect(ConnectCommand { offered, answered }))
}

//! The commands that exchange texts.

ghost use Rattle.std.specs.Prelude.{◌≡◌, [], ◌∷◌, IfOk, IfSome, IfNone, map, string_bytes, true, false};
ghost use Rattle.std.specs.List.{filter_map};
ghost use Rattle.std.specs.Str.{is_utf8};
ghost use Rattle.rtp_media_program.specs.Exchanging.{AnswersAccept, AnswersAnswer, AnswersConnect};
ghost use Rattle.rtp_media_program.specs.Exchanging.{AnswersOffer, AnswersWithdraw, ConnectsEnds, WithText};
ghost use Rattle.rtp_media_program.specs.Exchanging.{pair_of, wanted_in, wanted_of};

use crate::exchange::{AcceptCommand, AnswerCommand, ConnectCommand, OfferCommand};
use crate::exchange_error_names::exchange_error_name;
use crate::owned::Bytes;
use crate::replies::one;
use crate::reply::Reply;
use crate::sections::{SectionWord, SourceWord};
use rtp_media_ends::{End, connect};
use rtp_media_sections::{SectionSpec, are_sound};
use rtp_wire::{Mid, Ssrc};
use std::alloc::{AllocError, Global};

/// The (SSRC, RTX SSRC) pair of a source that has an RTX stream.
fn pair_of(source: &SourceWord) -> Option<(Ssrc, Ssrc)>
    ensures { result ≡ pair_of source.now }
{
    let repair = source.repair?;
    Some((Ssrc::from(source.ssrc), Ssrc::from(repair)))
}

/// The SSRCs of sources.
fn ssrcs_in(alloc: Global, sources: &[SourceWord]) -> Result<Vec<Ssrc>, AllocError>
    ensures { IfOk result (λ ssrcs. ssrcs.items ≡ map (λ source. source.ssrc) sources.now) }
{
    let ssrcs: Vec<Ssrc> = sources
        .iter()
        .map(|source| Ssrc::from(source.ssrc))
        .collect(alloc)?;
    Ok(ssrcs)
}

/// The pairs of the sources that others repair.
fn repairs_in(alloc: Global, sources: &[SourceWord]) -> Result<Vec<(Ssrc, Ssrc)>, AllocError>
    ensures { IfOk result (λ pairs. pairs.items ≡ filter_map pair_of sources.now) }
{
    let mut pairs = Vec::new(alloc);
    for source in sources {
        if let Some(pair) = pair_of(source) {
            pairs.push(pair)?;
        }
    }
    Ok(pairs)
}

/// The section that a word names.
fn wanted_of(alloc: Global, section: &SectionWord) -> Result<SectionSpec, AllocError>
    ensures { IfOk result (λ wanted. wanted ≡ wanted_of section.now) }
{
    let ssrcs = ssrcs_in(alloc, section.sources.as_slice())?;
    let repairs = repairs_in(alloc, section.sources.as_slice())?;
    Ok(SectionSpec {
        mid: Mid::from(section.mid.as_str()),
        kind: section.kind,
        dir: section.direction,
        ssrcs,
        repairs,
    })
}

/// The sections that words name.
fn wanted_in(alloc: Global, sections: &[SectionWord]) -> Result<Vec<SectionSpec>, AllocError>
    ensures { IfOk result (λ wanted. wanted.items ≡ wanted_in sections.now) }
{
    let mut wanted = Vec::new(alloc);
    for section in sections {
        wanted.push(wanted_of(alloc, section)?)?;
    }
    Ok(wanted)
}

/// Asks an end for the text of an offer: an error line, if the repairs of a section don't fit its sources; a refusal
/// is printed by its name.
///
/// # Errors
/// If memory for sections or replies runs out.
pub fn offer(alloc: Global, end: &mut End, command: OfferCommand) -> Result<Vec<Reply>, AllocError>
    ensures { IfOk result (λ replies. AnswersOffer end.old (wanted_in command.sections) end.new replies.items) }
{
    let sections = wanted_in(alloc, command.sections.as_slice())?;
    if !are_sound(sections.as_slice()) {
        return one(alloc, Reply::ErrorLine);
    }
    match end.offer(sections) {
        Ok(text) => one(alloc, text_reply(text)),
        Err(error) => one(alloc, Reply::Refused(exchange_error_name(&error))),
    }
}

/// The text that bytes are, if they are UTF-8.
#[tactic(auto, using(payload_core_base::proofs::Texts::text, payload_core_base::proofs::Texts::no_text))]
fn text_in(bytes: &[u8]) -> Option<&str>
    ensures some { IfSome result (λ text. (text.now ≡ bytes.now) × (is_utf8 bytes.now ≡ true)) }
    ensures none { IfNone result (is_utf8 bytes.now ≡ false) }
{
    match str::from_utf8(bytes) {
        Ok(text) => Some(text),
        Err(_) => None,
    }
}

/// Has an end answer an offer's text: an error line, if it isn't UTF-8, or the repairs of a section don't fit its
/// sources; a refusal is printed by its name.
///
/// # Errors
/// If memory for sections or replies runs out.
pub fn answer_offer(
    alloc: Global,
    end: &mut End,
    command: AnswerCommand,
) -> Result<Vec<Reply>, AllocError>
    ensures { IfOk result (λ replies. WithText command.text end.old end.new replies.items
        (AnswersAnswer end.old command.text (wanted_in command.sections) end.new replies.items)) }
{
    match text_in(command.text.as_slice()) {
        Some(text) => answer_text(alloc, end, text, command.sections.as_slice()),
        None => one(alloc, Reply::ErrorLine),
    }
}

fn answer_text(
    alloc: Global,
    end: &mut End,
    text: &str,
    sections: &[SectionWord],
) -> Result<Vec<Reply>, AllocError>
    ensures { IfOk result (λ replies. AnswersAnswer end.old text.now (wanted_in sections.now) end.new replies.items) }
{
    let sections = wanted_in(alloc, sections)?;
    if !are_sound(sections.as_slice()) {
        return one(alloc, Reply::ErrorLine);
    }
    match end.answer(text, sections) {
        Ok(text) => one(alloc, text_reply(text)),
        Err(error) => one(alloc, Reply::Refused(exchange_error_name(&error))),
    }
}

/// Has an end take an answer's text: an error line, if it isn't UTF-8; a refusal is printed by its name.
///
/// # Errors
/// If memory for the reply runs out.
pub fn accept(
    alloc: Global,
    end: &mut End,
    command: AcceptCommand,
) -> Result<Vec<Reply>, AllocError>
    ensures { IfOk result (λ replies. WithText command.text end.old end.new replies.items
        (AnswersAccept end.old command.text end.new replies.items)) }
{
    match text_in(command.text.as_slice()) {
        Some(text) => accept_text(alloc, end, text),
        None => one(alloc, Reply::ErrorLine),
    }
}

fn accept_text(alloc: Global, end: &mut End, text: &str) -> Result<Vec<Reply>, AllocError>
    ensures { IfOk result (λ replies. AnswersAccept end.old text.now end.new replies.items) }
{
    match end.accept(text) {
        Ok(()) => one(alloc, Reply::Done),
        Err(error) => one(alloc, Reply::Refused(exchange_error_name(&error))),
    }
}

/// Gives up the offer that is pending, if one is.
///
/// # Errors
/// If memory for the reply runs out.
pub fn withdraw(alloc: Global, end: &mut End) -> Result<Vec<Reply>, AllocError>
    ensures { IfOk result (λ replies. AnswersWithdraw end.old end.new replies.items) }
{
    if end.withdraw() {
        one(alloc, Reply::Done)
    } else {
        one(alloc, Reply::NoOffer)
    }
}

/// Lets `a` offer and `b` answer: an error line, if one of them is none, or the repairs of a section don't fit its
/// sources; a refusal is printed by its name.
///
/// # Errors
/// If memory for sections or replies runs out.
pub fn connect_ends(
    alloc: Global,
    a: &mut Option<End>,
    b: &mut Option<End>,
    command: ConnectCommand,
) -> Result<Vec<Reply>, AllocError>
    ensures { IfOk result (λ replies. ConnectsEnds a.old b.old command a.new b.new replies.items) }
{
    let Some(a) = a else {
        return one(alloc, Reply::ErrorLine);
    };
    let Some(b) = b else {
        return one(alloc, Reply::ErrorLine);
    };
    let offered = wanted_in(alloc, command.offered.as_slice())?;
    let answered = wanted_in(alloc, command.answered.as_slice())?;
    connect_made(alloc, a, b, offered, answered)
}

/// The same if both ends are there.
fn connect_made(
    alloc: Global,
    a: &mut End,
    b: &mut End,
    offered: Vec<SectionSpec>,
    answered: Vec<SectionSpec>,
) -> Result<Vec<Reply>, AllocError>
    ensures { IfOk result (λ replies. AnswersConnect a.old b.old offered.items answered.items a.new b.new
        replies.items) }
{
    if !are_sound(offered.as_slice()) || !are_sound(answered.as_slice()) {
        return one(alloc, Reply::ErrorLine);
    }
    match connect(a, b, offered, answered) {
        Ok((offer, answer)) => both_texts(alloc, offer, answer),
        Err(error) => one(alloc, Reply::Refused(exchange_error_name(&error))),
    }
}

/// A line for each text.
fn both_texts(alloc: Global, offer: String, answer: String) -> Result<Vec<Reply>, AllocError>
    ensures { IfOk result (λ replies. replies.items ≡ Reply.Text (string_bytes offer)
        ∷ Reply.Text (string_bytes answer) ∷ []) }
{
    let mut replies = one(alloc, text_reply(offer))?;
    replies.push(text_reply(answer))?;
    Ok(replies)
}

/// The line for a text.
fn text_reply(text: String) -> Reply
    ensures { result ≡ Reply.Text (string_bytes text) }
{
    Reply::Text(Bytes::from_vec(text.into_bytes()))
}

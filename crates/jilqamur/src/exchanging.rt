//! Texts of offers and answers.
//! Each call returns `CLOSED` at a closed handle, and changes nothing then.

ghost use Rattle.std.specs.Prelude.{◌≡◌, ◌≢◌};
ghost use Rattle.jilqamur.specs.Codes.{ok};
ghost use Rattle.jilqamur.specs.Handles.{AtObject};
ghost use Rattle.jilqamur.specs.Answers.{AtEnd, WithText};
ghost use Rattle.jilqamur.specs.HeldEnds.{behind_end, behind_text};
ghost use Rattle.jilqamur.specs.Exchanges.{AnswersOffer, AnswersAnswer, AnswersAccept, AnswersWithdraw};
ghost use Rattle.jilqamur.specs.Exchanges.{AnswersTypes, exchange_code};
ghost use Rattle.jilqamur.specs.Held.{end_in};

use crate::codes;
use crate::copying::text_in;
use crate::handle::EndHandle;
use crate::object::Object;
use rtp_media_exchange::ExchangeError;
use rtp_media_sections::are_sound;
use std::alloc::Global;

/// The number of a refused exchange.
pub(crate) fn exchange_code(error: &ExchangeError) -> u32
    ensures { result ≡ exchange_code error.now }
{
    match error {
        ExchangeError::Unreadable(_) => codes::TEXT_UNREADABLE,
        ExchangeError::OutOfTurn => codes::OUT_OF_TURN,
        ExchangeError::NotMedia(_) => codes::NOT_MEDIA,
        ExchangeError::NotCorresponding => codes::NOT_CORRESPONDING,
        ExchangeError::Round(_) => codes::ROUND,
        ExchangeError::NoCommonRow(_) => codes::NO_COMMON_ROW,
        ExchangeError::NotWritable => codes::NOT_WRITABLE,
        ExchangeError::Memory => codes::MEMORY,
    }
}

/// Offers the gathered sections, which are used up, and returns `OK`: the text is left to be
/// fetched. `NOT_MADE` without an end, `OUT_OF_RANGE` if a section's RTX pairs don't fit its SSRCs;
/// otherwise the first that applies of `OUT_OF_TURN`, `NOT_CORRESPONDING`, `NO_COMMON_ROW` and
/// `NOT_WRITABLE`, or `MEMORY`; end and text then don't change.
#[unsafe(no_mangle)]
pub extern "C" fn jilqamur_end_offer(alloc: Global, end: &mut EndHandle) -> u32
    ensures answer { AtObject (end_in end.old) (end_in end.new) result
        (λ p after. AtEnd p.end after.end result
        (λ e now. AnswersOffer e p.draft.sections result after.text now)) }
    ensures kept { AtObject (end_in end.old) (end_in end.new) result
        (λ p after. result ≢ ok → after.text ≡ p.text) }
    ensures rest { AtObject (end_in end.old) (end_in end.new) result
        (λ p after. after ≡ behind_text p after.end after.text) }
{
    if !end.slot.is_open() {
        return codes::CLOSED;
    }
    let Object::End(held) = end.slot.place.held() else {
        unreachable!();
    };
    let sections = held.draft.take_sections(alloc);
    let Some(end) = &mut held.end else {
        return codes::NOT_MADE;
    };
    if !are_sound(sections.as_slice()) {
        return codes::OUT_OF_RANGE;
    }
    match end.offer(sections) {
        Ok(offer) => {
            held.text = offer.into_bytes();
            codes::OK
        }
        Err(error) => exchange_code(&error),
    }
}

/// Answers an offer by the gathered sections, which are used up, and returns `OK`: the text is left to be fetched.
/// `NOT_TEXT` for bytes that aren't UTF-8, `NOT_MADE` without an end, `OUT_OF_RANGE` if the repairs of a section
/// don't fit its SSRCs; else the first that holds of `TEXT_UNREADABLE`, `OUT_OF_TURN`, `NOT_MEDIA`,
/// `NOT_CORRESPONDING`, `ROUND`, `NO_COMMON_ROW` and `NOT_WRITABLE`, or `MEMORY`, and end and text stay.
#[unsafe(no_mangle)]
pub extern "C" fn jilqamur_end_answer(alloc: Global, end: &mut EndHandle, offer: &[u8]) -> u32
    ensures answer { AtObject (end_in end.old) (end_in end.new) result
        (λ p after. WithText offer.now p.end after.end result
        (λ e now. AnswersAnswer e offer.now p.draft.sections result after.text now)) }
    ensures kept { AtObject (end_in end.old) (end_in end.new) result
        (λ p after. result ≢ ok → after.text ≡ p.text) }
    ensures rest { AtObject (end_in end.old) (end_in end.new) result
        (λ p after. after ≡ behind_text p after.end after.text) }
{
    if !end.slot.is_open() {
        return codes::CLOSED;
    }
    let Object::End(held) = end.slot.place.held() else {
        unreachable!();
    };
    let sections = held.draft.take_sections(alloc);
    let Some(offer) = text_in(offer) else {
        return codes::NOT_TEXT;
    };
    let Some(end) = &mut held.end else {
        return codes::NOT_MADE;
    };
    if !are_sound(sections.as_slice()) {
        return codes::OUT_OF_RANGE;
    }
    match end.answer(offer, sections) {
        Ok(answer) => {
            held.text = answer.into_bytes();
            codes::OK
        }
        Err(error) => exchange_code(&error),
    }
}

/// Takes the answer to the pending offer, and returns `OK`. `NOT_TEXT` for bytes that aren't UTF-8, `NOT_MADE`
/// without an end; else the first that holds of `TEXT_UNREADABLE`, `OUT_OF_TURN`, `NOT_MEDIA`,
/// `NOT_CORRESPONDING`, `ROUND` and `NO_COMMON_ROW`, or `MEMORY`, and the end stays.
#[unsafe(no_mangle)]
pub extern "C" fn jilqamur_end_accept(end: &mut EndHandle, answer: &[u8]) -> u32
    ensures answer { AtObject (end_in end.old) (end_in end.new) result
        (λ p after. WithText answer.now p.end after.end result
        (λ e now. AnswersAccept e answer.now result now)) }
    ensures rest { AtObject (end_in end.old) (end_in end.new) result
        (λ p after. after ≡ behind_end p after.end) }
{
    if !end.slot.is_open() {
        return codes::CLOSED;
    }
    let Object::End(held) = end.slot.place.held() else {
        unreachable!();
    };
    let Some(answer) = text_in(answer) else {
        return codes::NOT_TEXT;
    };
    let Some(end) = &mut held.end else {
        return codes::NOT_MADE;
    };
    match end.accept(answer) {
        Ok(()) => codes::OK,
        Err(error) => exchange_code(&error),
    }
}

/// Takes the payload types of the agreed sections from a text, each from the section of its name, and returns `OK`:
/// streams that are opened from then on have the types that this section lists. `NOT_TEXT` for bytes that aren't UTF-8,
/// `NOT_MADE` without an end, `TEXT_UNREADABLE`, or `MEMORY`; nothing then changes.
#[unsafe(no_mangle)]
pub extern "C" fn jilqamur_end_take_types(end: &mut EndHandle, text: &[u8]) -> u32
    ensures answer { AtObject (end_in end.old) (end_in end.new) result
        (λ p after. WithText text.now p.end after.end result
        (λ e now. AnswersTypes e text.now result now)) }
    ensures rest { AtObject (end_in end.old) (end_in end.new) result
        (λ p after. after ≡ behind_end p after.end) }
{
    if !end.slot.is_open() {
        return codes::CLOSED;
    }
    let Object::End(held) = end.slot.place.held() else {
        unreachable!();
    };
    let Some(text) = text_in(text) else {
        return codes::NOT_TEXT;
    };
    let Some(end) = &mut held.end else {
        return codes::NOT_MADE;
    };
    match end.take_types(text) {
        Ok(()) => codes::OK,
        Err(error) => exchange_code(&error),
    }
}

/// Gives a pending offer up, and returns `OK`; `NOTHING` if none is pending, `NOT_MADE` without an end.
#[unsafe(no_mangle)]
pub extern "C" fn jilqamur_end_withdraw(end: &mut EndHandle) -> u32
    ensures answer { AtObject (end_in end.old) (end_in end.new) result
        (λ p after. AtEnd p.end after.end result (λ e now. AnswersWithdraw e result now)) }
    ensures rest { AtObject (end_in end.old) (end_in end.new) result
        (λ p after. after ≡ behind_end p after.end) }
{
    if !end.slot.is_open() {
        return codes::CLOSED;
    }
    let Object::End(held) = end.slot.place.held() else {
        unreachable!();
    };
    let Some(end) = &mut held.end else {
        return codes::NOT_MADE;
    };
    if end.withdraw() {
        codes::OK
    } else {
        codes::NOTHING
    }
}

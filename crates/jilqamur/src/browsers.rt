//! Offers and answers of browsers.
//! Each call returns `CLOSED` at a closed handle, and changes nothing then.

ghost use Rattle.std.specs.Prelude.{◌≡◌, ◌≢◌, IfErr, IfOk, OnErr};
ghost use Rattle.std.specs.String.{string_bytes};
ghost use Rattle.jilqamur.specs.Codes.{ok};
ghost use Rattle.jilqamur.specs.Handles.{AtObject};
ghost use Rattle.jilqamur.specs.Answers.{AtEnd, WithText};
ghost use Rattle.jilqamur.specs.Browsers.{AcceptsBrowser, AnswersBrowser, AnswersOffered, AnswersTaken};
ghost use Rattle.jilqamur.specs.Browsers.{IsHanded, IsUnanswered, IsUntaken, browser_code};
ghost use Rattle.jilqamur.specs.HeldEnds.{behind_answer, behind_offer};
ghost use Rattle.rtp_media_browsers.specs.InCommon.{RefusesInCommon};
ghost use Rattle.rtp_media_browsers.specs.Tidied.{tidied};
ghost use Rattle.jilqamur.specs.Held.{end_in};

use crate::codes;
use crate::copying::text_in;
use crate::exchanging::exchange_code;
use crate::handle::EndHandle;
use crate::object::Object;
use rtp_media_browsers::{
    BrowserError, BrowserState, SectionRequest, answer_for_end, for_end, requests_in_common,
    sections_for,
};
use rtp_media_ends::End;
use rtp_media_sections::{SectionSpec, are_sound};
use sdp_formats_rounds::CodecConfig;
use std::alloc::Global;

/// The number of a refusal of a browser's text, or of one for a browser.
pub(crate) fn browser_code(error: &BrowserError) -> u32
    ensures { result ≡ browser_code error.now }
{
    match error {
        BrowserError::Unreadable => codes::TEXT_UNREADABLE,
        BrowserError::RestUnread => codes::REST_UNREAD,
        BrowserError::MidNotKept(_) => codes::MID_NOT_KEPT,
        BrowserError::MidTwice => codes::MID_TWICE,
        BrowserError::NotCorresponding => codes::NOT_CORRESPONDING,
        BrowserError::Rejected(_) => codes::SECTION_REJECTED,
        BrowserError::SeveralBundles => codes::SEVERAL_BUNDLES,
        BrowserError::OutsideBundle(_) => codes::OUTSIDE_BUNDLE,
        BrowserError::NothingLeft => codes::NOTHING_LEFT,
        BrowserError::KeysAlone(_) => codes::KEYS_ALONE,
        BrowserError::UfragNotFit => codes::UFRAG_NOT_FIT,
        BrowserError::PasswordNotFit => codes::PASSWORD_NOT_FIT,
        BrowserError::SetupNotFit => codes::SETUP_NOT_FIT,
        BrowserError::NotWritable => codes::NOT_WRITABLE,
        BrowserError::Memory => codes::MEMORY,
    }
}

/// What an end of this config is handed of a browser's offer, and the sections of its answer. Sections without a row in
/// common are rejected alone.
///
/// # Errors
///
/// Why the offer isn't passed on.
fn handed(
    alloc: Global,
    state: &mut BrowserState,
    config: &CodecConfig,
    offer: &str,
    requests: Vec<SectionRequest>,
) -> Result<(String, Vec<SectionSpec>), BrowserError>
    ensures handed { IfOk result
        (λ r. IsHanded state.old config.now.rows requests.items offer.now state.new (string_bytes r.0) r.1.items) }
    ensures refused { IfErr result
        (λ e. RefusesInCommon (tidied offer.now) state.old config.now.rows requests.items e) }
{
    let requests = requests_in_common(alloc, state, config, offer, requests)?;
    let text = for_end(alloc, state, offer, requests.as_slice())?;
    let sections = sections_for(alloc, state, requests.as_slice())?;
    Ok((text, sections))
}

/// The text of the end's answer to a browser's offer.
///
/// # Errors
///
/// The number of the refusal.
fn answered(
    alloc: Global,
    end: &mut End,
    state: &mut BrowserState,
    offer: &str,
    requests: Vec<SectionRequest>,
) -> Result<String, u32>
    ensures answered { IfOk result
        (λ text. AnswersBrowser end.old state.old requests.items offer.now (string_bytes text) state.new end.new) }
    ensures refused { IfErr result (λ code. IsUnanswered end.old state.old requests.items offer.now code) }
    ensures unchanged { OnErr result (end.new ≡ end.old) }
{
    let (text, sections) = match handed(alloc, state, end.config(), offer, requests) {
        Ok(handed) => handed,
        Err(error) => return Err(browser_code(&error)),
    };
    if !are_sound(sections.as_slice()) {
        return Err(codes::OUT_OF_RANGE);
    }
    match end.answer(text.as_str(), sections) {
        Ok(answer) => Ok(answer),
        Err(error) => Err(exchange_code(&error)),
    }
}

/// Answers a browser's offer by the requests, which are used up, and returns `OK`: the text of the end's answer is left
/// to be fetched, and the state is updated. A section without a row in common is rejected alone (RFC 3264 6).
/// `NOT_TEXT` for bytes that aren't UTF-8, `NOT_MADE` without an end; otherwise the first that applies of
/// `TEXT_UNREADABLE`,
/// `REST_UNREAD`, `MID_NOT_KEPT`, `MID_TWICE`, `SEVERAL_BUNDLES`, `OUTSIDE_BUNDLE`, `NOTHING_LEFT` and `KEYS_ALONE`;
/// otherwise `OUT_OF_RANGE` if a request's RTX pairs don't fit its SSRCs; otherwise what the end refuses, as in
/// `answer`; or `MEMORY`. Then end, text and state don't change.
#[tactic(auto, using(crate::proofs::Bare::want_of_offer))]
#[unsafe(no_mangle)]
pub extern "C" fn jilqamur_end_answer_browser(
    alloc: Global,
    end: &mut EndHandle,
    offer: &[u8],
) -> u32
    ensures answer { AtObject (end_in end.old) (end_in end.new) result
        (λ p after. WithText offer.now p.end after.end result
        (λ e now. AnswersOffered e p.state p.draft.requests offer.now result after.text after.state now)) }
    ensures kept { AtObject (end_in end.old) (end_in end.new) result
        (λ p after. result ≢ ok → (after.text ≡ p.text) × (after.state ≡ p.state)) }
    ensures rest { AtObject (end_in end.old) (end_in end.new) result
        (λ p after. after ≡ behind_offer p after.end after.state after.text) }
{
    if !end.slot.is_open() {
        return codes::CLOSED;
    }
    let Object::End(held) = end.slot.place.held() else {
        unreachable!();
    };
    let requests = held.draft.take_requests(alloc);
    let Some(offer) = text_in(offer) else {
        return codes::NOT_TEXT;
    };
    let Some(end) = &mut held.end else {
        return codes::NOT_MADE;
    };
    let Ok(mut state) = held.state.clone(alloc) else {
        return codes::MEMORY;
    };
    match answered(alloc, end, &mut state, offer, requests) {
        Ok(text) => {
            held.state = state;
            held.text = text.into_bytes();
            codes::OK
        }
        Err(code) => code,
    }
}

/// Hands a browser's answer to the end.
///
/// # Errors
///
/// The number of the refusal.
fn accepted(alloc: Global, end: &mut End, state: &mut BrowserState, answer: &str) -> Result<(), u32>
    ensures accepted { IfOk result (λ _. AcceptsBrowser end.old state.old answer.now state.new end.new) }
    ensures refused { IfErr result (λ code. IsUntaken end.old state.old answer.now code) }
    ensures unchanged { OnErr result (end.new ≡ end.old) }
{
    let text = match answer_for_end(alloc, state, answer) {
        Ok(text) => text,
        Err(error) => return Err(browser_code(&error)),
    };
    match end.accept(text.as_str()) {
        Ok(()) => Ok(()),
        Err(error) => Err(exchange_code(&error)),
    }
}

/// Takes a browser's answer to the pending offer, and returns `OK`: the browser is remembered. `NOT_TEXT` for bytes
/// that aren't UTF-8, `NOT_MADE` without an end; else the first that holds of `TEXT_UNREADABLE`, `REST_UNREAD`,
/// `MID_NOT_KEPT`, `MID_TWICE`, `NOT_CORRESPONDING`, `SECTION_REJECTED`, `SEVERAL_BUNDLES`, `OUTSIDE_BUNDLE`,
/// `NOTHING_LEFT` and `KEYS_ALONE`; else what the end refuses, as `accept`; or `MEMORY`. All then stays.
#[tactic(auto, using(crate::proofs::Bare::want_of_text))]
#[unsafe(no_mangle)]
pub extern "C" fn jilqamur_end_accept_browser(
    alloc: Global,
    end: &mut EndHandle,
    answer: &[u8],
) -> u32
    ensures answer { AtObject (end_in end.old) (end_in end.new) result
        (λ p after. WithText answer.now p.end after.end result
        (λ e now. AnswersTaken e p.state answer.now result after.state now)) }
    ensures kept { AtObject (end_in end.old) (end_in end.new) result
        (λ p after. result ≢ ok → after.state ≡ p.state) }
    ensures rest { AtObject (end_in end.old) (end_in end.new) result
        (λ p after. after ≡ behind_answer p after.end after.state) }
{
    if !end.slot.is_open() {
        return codes::CLOSED;
    }
    let Object::End(held) = end.slot.place.held() else {
        unreachable!();
    };
    let Some(answer) = text_in(answer) else {
        return codes::NOT_TEXT;
    };
    let Some(end) = &mut held.end else {
        return codes::NOT_MADE;
    };
    let Ok(mut state) = held.state.clone(alloc) else {
        return codes::MEMORY;
    };
    match accepted(alloc, end, &mut state, answer) {
        Ok(()) => {
            held.state = state;
            codes::OK
        }
        Err(code) => code,
    }
}

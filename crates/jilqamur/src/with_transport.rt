//! Texts of an end, made for a browser.

ghost use Rattle.std.specs.Prelude.{◌≡◌, ◌≢◌, IfErr, IfOk, OnErr};
ghost use Rattle.std.specs.String.{string_bytes};
ghost use Rattle.jilqamur.specs.Codes.{ok};
ghost use Rattle.jilqamur.specs.Handles.{AtObject};
ghost use Rattle.jilqamur.specs.WithTransport.{AtSetup, AddsTransport, StaysBare, WithTexts, are_texts, setup_of};
ghost use Rattle.jilqamur.specs.WithTransport.{transport_of};
ghost use Rattle.jilqamur.specs.HeldEnds.{after_transport};
ghost use Rattle.rtp_media_browsers.specs.Calls.{HasTransport};
ghost use Rattle.jilqamur.specs.Held.{end_in};

use crate::browsers::browser_code;
use crate::codes;
use crate::copying::text_in;
use crate::handle::EndHandle;
use crate::object::Object;
use rtp_media_browsers::{BrowserState, Gathering, Transport};
use sdp_formats_grammar::{Listed, Text};
use sdp_formats_values::{Fingerprint, IceCreds, Setup};
use std::alloc::{AllocError, Global};

/// The part in the connection of a number.
fn setup_of(number: u8) -> Option<Setup>
    ensures { result ≡ setup_of number }
{
    match number {
        0 => Some(Setup::ActPass),
        1 => Some(Setup::Active),
        2 => Some(Setup::Passive),
        _ => None,
    }
}

/// A text of these words.
fn copied(alloc: Global, words: &str) -> Result<Text, AllocError>
    ensures { IfOk result (λ text. text ≡ words.now) }
{
    Ok(Text::of(String::from_str(alloc, words)?))
}

/// The transport with these parts; its ICE candidates come later (trickle).
fn transport_of(
    alloc: Global,
    setup: Setup,
    is_lite: bool,
    ufrag: &str,
    password: &str,
    hash: &str,
    digest: &[u8],
) -> Result<Transport, AllocError>
    ensures { IfOk result
        (λ t. t ≡ transport_of setup is_lite ufrag.now password.now hash.now digest.now) }
{
    Ok(Transport {
        creds: IceCreds {
            ufrag: copied(alloc, ufrag)?,
            pass: copied(alloc, password)?,
        },
        gathering: Gathering::Trickling,
        fingerprint: Fingerprint {
            hash_func: copied(alloc, hash)?,
            bytes: Listed::of(Vec::from_slice(alloc, digest)?),
        },
        setup,
        is_lite,
    })
}

/// The text for a browser.
///
/// # Errors
///
/// The number of the refusal.
fn with_transport(
    alloc: Global,
    state: &mut BrowserState,
    text: &str,
    transport: &Transport,
) -> Result<String, u32>
    ensures with_transport { IfOk result (λ out. HasTransport text.now state.old transport.now state.new
        (string_bytes out)) }
    ensures refused { IfErr result (λ code. StaysBare text.now state.old transport.now code) }
    ensures unchanged { OnErr result (state.new ≡ state.old) }
{
    match rtp_media_browsers::for_browser(alloc, state, text, transport) {
        Ok(text) => Ok(text),
        Err(error) => Err(browser_code(&error)),
    }
}

/// Makes one of this end's texts into one for a browser, with the lines of a transport whose
/// candidates come later, and returns `OK`: it is left to be fetched. `setup` is the DTLS role: 0
/// (actpass) in an offer; in an answer 1 (active: this end opens the connection) or 2 (passive),
/// the same in every answer (RFC 8842 5.3). `ufrag` and `password` are the ICE credentials, `hash`
/// and `digest` the certificate's fingerprint. `NOT_TEXT` for bytes that aren't UTF-8,
/// `OUT_OF_RANGE` for another `setup`; otherwise the first that applies of `TEXT_UNREADABLE`,
/// `REST_UNREAD`, `UFRAG_NOT_FIT`, `PASSWORD_NOT_FIT`, `SETUP_NOT_FIT`, `NOT_CORRESPONDING` and
/// `NOT_WRITABLE`, or `MEMORY`; `CLOSED` for a closed handle. Then nothing has changed.
#[tactic(auto, using(crate::proofs::Bare::want))]
#[unsafe(no_mangle)]
pub extern "C" fn jilqamur_end_for_browser(
    alloc: Global,
    end: &mut EndHandle,
    text: &[u8],
    setup: u8,
    is_lite: bool,
    ufrag: &[u8],
    password: &[u8],
    hash: &[u8],
    digest: &[u8],
) -> u32
    ensures answer { AtObject (end_in end.old) (end_in end.new) result
        (λ p after. WithTexts (are_texts text.now ufrag.now password.now hash.now) result
        (AtSetup (setup_of setup) result (λ s. AddsTransport text.now p.state
        (transport_of s is_lite ufrag.now password.now hash.now digest.now) result after.text after.state))) }
    ensures kept { AtObject (end_in end.old) (end_in end.new) result
        (λ p after. result ≢ ok → (after.text ≡ p.text) × (after.state ≡ p.state)) }
    ensures rest { AtObject (end_in end.old) (end_in end.new) result
        (λ p after. after ≡ after_transport p after.state after.text) }
{
    if !end.slot.is_open() {
        return codes::CLOSED;
    }
    let Object::End(held) = end.slot.place.held() else {
        unreachable!();
    };
    let Some(text) = text_in(text) else {
        return codes::NOT_TEXT;
    };
    let (Some(ufrag), Some(password)) = (text_in(ufrag), text_in(password)) else {
        return codes::NOT_TEXT;
    };
    let Some(hash) = text_in(hash) else {
        return codes::NOT_TEXT;
    };
    let Some(setup) = setup_of(setup) else {
        return codes::OUT_OF_RANGE;
    };
    let made = transport_of(alloc, setup, is_lite, ufrag, password, hash, digest);
    let Ok(transport) = made else {
        return codes::MEMORY;
    };
    match with_transport(alloc, &mut held.state, text, &transport) {
        Ok(text) => {
            held.text = text.into_bytes();
            codes::OK
        }
        Err(code) => code,
    }
}

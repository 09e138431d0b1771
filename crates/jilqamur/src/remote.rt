//! What a browser's texts tell of its transport.
//! Each call returns `CLOSED` at a closed handle, and changes nothing then.

ghost use Rattle.std.specs.Prelude.{◌≡◌, IfOk};
ghost use Rattle.std.specs.Option.{option_map};
ghost use Rattle.std.specs.String.{string_bytes};
ghost use Rattle.jilqamur.specs.Codes.{closed, nothing, ok};
ghost use Rattle.jilqamur.specs.Handles.{AtObject};
ghost use Rattle.jilqamur.specs.Remotes.{IsPrinted, candidate_of, part_of, remote_told, setup_told};
ghost use Rattle.jilqamur.specs.Held.{end_in};

use crate::codes;
use crate::copying::copy_out;
use crate::handle::EndHandle;
use crate::object::Object;
use rtp_media_browsers::{BrowserState, Remote};
use sdp_formats_values::Setup;
use std::alloc::{AllocError, Global};

/// What is known of a browser's transport, apart from its texts. A DTLS role is 0 for actpass, 1
/// for active (opens the connection), 2 for passive (RFC 8842 5); 0 if unknown.
#[repr(C)]
#[derive(Clone, Copy, Drop)]
pub struct WireRemote {
    /// Whether the browser states its DTLS role.
    pub has_setup: bool,
    /// The browser's DTLS role.
    pub setup: u8,
    /// Whether this end's own DTLS role was answered before.
    pub has_own_setup: bool,
    /// The browser's DTLS role.
    pub own_setup: u8,
    /// Whether further candidates may come later (RFC 8840 4.1).
    pub is_trickling: bool,
    /// Whether it only answers connectivity checks (ICE-lite, RFC 8839 5.3).
    pub is_lite: bool,
    /// How many candidates it tells.
    pub candidates: usize,
}

/// The number of a part in the connection.
fn setup_told(setup: Option<Setup>) -> u8
    ensures { result ≡ setup_told setup }
{
    match setup {
        None => 0,
        Some(Setup::ActPass) => 0,
        Some(Setup::Active) => 1,
        Some(Setup::Passive) => 2,
    }
}

/// What is told of a browser.
fn remote_told(state: &BrowserState) -> WireRemote
    ensures { result ≡ remote_told state.now }
{
    let remote = &state.remote;
    WireRemote {
        has_setup: remote.setup.is_some(),
        setup: setup_told(remote.setup),
        has_own_setup: state.setup.is_some(),
        own_setup: setup_told(state.setup),
        is_trickling: remote.is_trickling,
        is_lite: remote.is_lite,
        candidates: remote.candidates.as_slice().len(),
    }
}

/// The text of a part, if it is told.
fn part_of(alloc: Global, remote: &Remote, part: u8) -> Result<Option<String>, AllocError>
    ensures { IfOk result (λ text. option_map string_bytes text ≡ part_of remote.now part) }
{
    if part == 2 {
        let Some(fingerprint) = &remote.fingerprint else {
            return Ok(None);
        };
        return Ok(Some(fingerprint.to_string(alloc)?));
    }
    let Some(creds) = &remote.creds else {
        return Ok(None);
    };
    if part == 0 {
        return Ok(Some(String::from_str(alloc, creds.ufrag.as_str())?));
    }
    if part == 1 {
        return Ok(Some(String::from_str(alloc, creds.pass.as_str())?));
    }
    Ok(None)
}

/// The text of a candidate, if there is one of that place.
fn candidate_of(alloc: Global, remote: &Remote, index: usize) -> Result<Option<String>, AllocError>
    ensures { IfOk result (λ text. option_map string_bytes text ≡ candidate_of remote.now index) }
{
    let Some(candidate) = remote.candidates.as_slice().get(index) else {
        return Ok(None);
    };
    Ok(Some(candidate.to_sdp_string(alloc)?))
}

/// Tells what the last text of a browser, which an end was handed, says of its transport, and returns `OK`.
#[unsafe(no_mangle)]
pub extern "C" fn jilqamur_end_remote(end: &mut EndHandle, told: &mut WireRemote) -> u32
    ensures told { AtObject (end_in end.old) (end_in end.new) result
        (λ p after. (result ≡ ok) × (told.new ≡ remote_told p.state)) }
    ensures closed { result ≡ closed → told.new ≡ told.old }
    ensures unchanged { end_in end.new ≡ end_in end.old }
{
    if !end.slot.is_open() {
        return codes::CLOSED;
    }
    let Object::End(held) = end.slot.place.held() else {
        unreachable!();
    };
    *told = remote_told(&held.state);
    codes::OK
}

/// Copies a text of the browser's transport: 0 is the ICE ufrag, 1 the ICE password, 2 the
/// fingerprint. `OK`; or `TOO_SMALL`, leaving the buffer unchanged; `needed` is its length in
/// bytes. `NOTHING` if it is unknown, or for other numbers; or `MEMORY`, and nothing has changed.
#[unsafe(no_mangle)]
pub extern "C" fn jilqamur_end_remote_text(
    alloc: Global,
    end: &mut EndHandle,
    part: u8,
    buffer: &mut [u8],
    needed: &mut usize,
) -> u32
    ensures text { AtObject (end_in end.old) (end_in end.new) result
        (λ p after. IsPrinted (part_of p.state.remote part) buffer.old result needed.old needed.new buffer.new) }
    ensures closed { result ≡ closed → (buffer.new ≡ buffer.old) × (needed.new ≡ needed.old) }
    ensures nothing { result ≡ nothing → needed.new ≡ needed.old }
    ensures unchanged { end_in end.new ≡ end_in end.old }
{
    if !end.slot.is_open() {
        return codes::CLOSED;
    }
    let Object::End(held) = end.slot.place.held() else {
        unreachable!();
    };
    match part_of(alloc, &held.state.remote, part) {
        Ok(Some(text)) => copy_out(text.as_bytes(), buffer, needed),
        Ok(None) => codes::NOTHING,
        Err(_) => codes::MEMORY,
    }
}

/// Copies the text of the browser's candidate of this place, counted from 0, as it follows `a=` (RFC 8839
/// 5.1). `OK`, or `TOO_SMALL`, and the buffer is unchanged; `needed` is its length in bytes. `NOTHING` if there
/// is none of that place; or `MEMORY`, and nothing has changed.
#[unsafe(no_mangle)]
pub extern "C" fn jilqamur_end_remote_candidate(
    alloc: Global,
    end: &mut EndHandle,
    index: usize,
    buffer: &mut [u8],
    needed: &mut usize,
) -> u32
    ensures text { AtObject (end_in end.old) (end_in end.new) result
        (λ p after. IsPrinted (candidate_of p.state.remote index) buffer.old result needed.old needed.new buffer.new) }
    ensures closed { result ≡ closed → (buffer.new ≡ buffer.old) × (needed.new ≡ needed.old) }
    ensures nothing { result ≡ nothing → needed.new ≡ needed.old }
    ensures unchanged { end_in end.new ≡ end_in end.old }
{
    if !end.slot.is_open() {
        return codes::CLOSED;
    }
    let Object::End(held) = end.slot.place.held() else {
        unreachable!();
    };
    match candidate_of(alloc, &held.state.remote, index) {
        Ok(Some(text)) => copy_out(text.as_bytes(), buffer, needed),
        Ok(None) => codes::NOTHING,
        Err(_) => codes::MEMORY,
    }
}

//! Ends: handles opened and closed, ends made of drafts.
//! Each call but `open` returns `CLOSED` at a closed handle, and changes nothing then.

ghost use Rattle.std.specs.Prelude.{◌≡◌, ◌≢◌, None, Some, IsSome};
ghost use Rattle.jilqamur.specs.Codes.{ok, memory, in_use};
ghost use Rattle.jilqamur.specs.Handles.{AtObject, answer_of};
ghost use Rattle.jilqamur.specs.HeldEnds.{empty_held_end};
ghost use Rattle.jilqamur.specs.Making.{end_code, make_outcome, made, without_draft};
ghost use Rattle.jilqamur.specs.Held.{end_in};

use crate::codes;
use crate::handle::EndHandle;
use crate::held_end::HeldEnd;
use crate::object::Object;
use rtp_media_browsers::BrowserState;
use rtp_media_ends::End;
use rtp_media_exchange::EndError;
use rtp_wire::SessionId;
use sdp_formats_data::Session;
use std::alloc::Global;

/// Holds no end, an empty draft and no results, and returns `OK`; or `IN_USE` if it is open, or
/// `MEMORY`, and is unchanged.
#[unsafe(no_mangle)]
pub extern "C" fn jilqamur_end_open(alloc: Global, end: &mut EndHandle) -> u32
    ensures opened { result ≡ ok → end_in end.new ≡ Some empty_held_end }
    ensures held_none { result ≡ ok → end_in end.old ≡ None }
    ensures in_use { IsSome (end_in end.old) → result ≡ in_use }
    ensures only_in_use { result ≡ in_use → IsSome (end_in end.old) }
    ensures refusal { result ≢ ok → result ≢ memory → result ≡ in_use }
    ensures unchanged { result ≢ ok → end_in end.new ≡ end_in end.old }
{
    if end.slot.is_open() {
        return codes::IN_USE;
    }
    match Box::new(alloc, Object::End(HeldEnd::empty(alloc))) {
        Ok(held) => {
            end.slot.put(held);
            codes::OK
        }
        Err(_) => codes::MEMORY,
    }
}

/// Frees its contents and returns `OK`, or `CLOSED` if it was closed; from now on it is closed.
#[unsafe(no_mangle)]
pub extern "C" fn jilqamur_end_close(alloc: Global, end: &mut EndHandle) -> u32
    ensures held { result ≡ answer_of (end_in end.old) }
    ensures empty { end_in end.new ≡ None }
{
    end.slot.close(alloc)
}

/// The number of a refusal to make an end.
fn end_code(error: EndError) -> u32
    ensures { result ≡ end_code error }
{
    match error {
        EndError::RowNotPlain(_) => codes::ROW_NOT_PLAIN,
        EndError::TypesNotDistinct(_) => codes::TYPES_NOT_DISTINCT,
        EndError::NotWritable => codes::NOT_WRITABLE,
        EndError::Memory => codes::MEMORY,
    }
}

/// Makes a new end of the draft, under this session number, in place of an end that was made, and returns `OK`; or
/// the first that holds of `ROW_NOT_PLAIN`, `TYPES_NOT_DISTINCT` and `NOT_WRITABLE`, or `MEMORY`, and the
/// end stays. The draft is then empty, refused or not.
#[tactic(auto, using(rtp_media_ends::proofs::BareSession::refused_bare))]
#[unsafe(no_mangle)]
pub extern "C" fn jilqamur_end_make(alloc: Global, end: &mut EndHandle, session: u64) -> u32
    ensures outcome { AtObject (end_in end.old) (end_in end.new) result
        (λ p after. result ≢ memory → result ≡ make_outcome p) }
    ensures made { AtObject (end_in end.old) (end_in end.new) result
        (λ p after. result ≡ ok → after ≡ made p session) }
    ensures refused { AtObject (end_in end.old) (end_in end.new) result
        (λ p after. result ≢ ok → after ≡ without_draft p) }
{
    if !end.slot.is_open() {
        return codes::CLOSED;
    }
    let Object::End(held) = end.slot.place.held() else {
        unreachable!();
    };
    let (config, exts) = held.draft.take_media(alloc);
    let session = Session::new(alloc, SessionId::from(session));
    match End::new(alloc, config, session, exts) {
        Ok(made) => {
            held.end = Some(made);
            held.state = BrowserState::new(alloc);
            codes::OK
        }
        Err(error) => end_code(error),
    }
}

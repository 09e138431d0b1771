//! Requests for the sections of a browser's offer.

ghost use Rattle.std.specs.Prelude.{◌≡◌, ◌≢◌};
ghost use Rattle.jilqamur.specs.Codes.{ok, memory};
ghost use Rattle.jilqamur.specs.Handles.{AtObject};
ghost use Rattle.jilqamur.specs.HeldEnds.{with_draft};
ghost use Rattle.jilqamur.specs.Requests.{HasRequest};
ghost use Rattle.rtp_media_sections.specs.Answered.{flow};
ghost use Rattle.jilqamur.specs.Held.{end_in};

use crate::codes;
use crate::handle::EndHandle;
use crate::object::Object;
use std::alloc::Global;

/// Puts a request after those for the sections of the next browser's offer, with the repairs that are there, which are
/// used up, and returns `OK`; or `MEMORY`, and nothing has changed. At a closed handle it is `CLOSED`.
#[unsafe(no_mangle)]
pub extern "C" fn jilqamur_end_request(
    alloc: Global,
    end: &mut EndHandle,
    is_accepted: bool,
    sends: bool,
    receives: bool,
    ssrcs: &[u32],
) -> u32
    ensures outcome { AtObject (end_in end.old) (end_in end.new) result
        (λ p after. result ≢ memory → result ≡ ok) }
    ensures added { AtObject (end_in end.old) (end_in end.new) result
        (λ p after. result ≡ ok → HasRequest p.draft is_accepted (flow sends receives) ssrcs.now after.draft) }
    ensures rest { AtObject (end_in end.old) (end_in end.new) result
        (λ p after. after ≡ with_draft p after.draft) }
    ensures unchanged { result ≢ ok → end_in end.new ≡ end_in end.old }
{
    if !end.slot.is_open() {
        return codes::CLOSED;
    }
    let Object::End(held) = end.slot.place.held() else {
        unreachable!();
    };
    held.draft
        .add_request(alloc, is_accepted, sends, receives, ssrcs)
}

//! Texts between a browser and an end.

ghost use Rattle.std.specs.Prelude.{◌≡◌, IfErr, IfOk, OnErr};
ghost use Rattle.std.specs.String.{string_bytes};
ghost use Rattle.rtp_media_browsers.specs.Calls.{AnswerPasses, HasTransport, HasNoTransport, OfferPasses};
ghost use Rattle.rtp_media_browsers.specs.Calls.{RefusesAnswer, RefusesOffer};
ghost use Rattle.rtp_media_browsers.specs.Tidied.{tidied};

use crate::error::BrowserError;
use crate::fit::{left_over, settled};
use crate::kept_lines::of_sections;
use crate::lines::{allows_mixed, bundled};
use crate::placing::{left, places_of};
use crate::reading::{handed, read_whole};
use crate::received::asked_of;
use crate::refusals::{test_answer, test_offer, test_own};
use crate::request::SectionRequest;
use crate::state::BrowserState;
use crate::stopping::{answered_places, told_places};
use crate::telling::told;
use crate::tidying::tidied;
use crate::transport::Transport;
use crate::versions::told_text;
use crate::with_transport::with_transport;
use std::alloc::Global;

/// What an end is handed of an offer that is tidied.
#[tactic(auto, using(crate::proofs::Refused::unread, crate::proofs::Refused::want_of_memory, crate::proofs::Refused::tested))]
pub(crate) fn offer_handed(
    alloc: Global,
    state: &mut BrowserState,
    offer: &str,
    requests: &[SectionRequest],
) -> Result<String, BrowserError>
    ensures passes { IfOk result (λ out. OfferPasses offer.now requests.now state.old state.new (string_bytes out)) }
    ensures refused { IfErr result (λ e. RefusesOffer offer.now state.old requests.now e) }
    ensures unchanged { OnErr result (state.new ≡ state.old) }
{
    let sdp = read_whole(alloc, offer)?;
    let all = sdp.media_lines.as_slice();
    let places = places_of(alloc, bundled(&sdp), requests, all)?;
    let sections = left(alloc, places.as_slice(), all)?;
    let olds = state.sections.as_slice();
    test_offer(alloc, offer, olds, &sdp, sections.as_slice())?;
    let remote = told(alloc, &sdp.session, sections.as_slice())?;
    let asked = asked_of(alloc, requests, places.as_slice(), all, sections)?;
    let kept = of_sections(alloc, &sdp.session, olds, asked)?;
    let text = handed(alloc, offer, &sdp, &kept)?;
    state.places = places;
    state.sections = kept.media_lines;
    state.allows_mixed = allows_mixed(sdp.session.attrs.as_slice());
    state.remote = remote;
    state.is_answering = true;
    Ok(text)
}

/// The text that an end understands of a browser's offer, for its `answer` with what `sections_for` then gives: first
/// the sections that the end has already, in its own order, then the offer's new ones in theirs. Sections of data,
/// those of port 0, those outside of the bundle (RFC 9143 7.3) and those that no request accepts are left out, and so
/// are the lines of the transport. A
/// section that the end has already is never left out: if the browser or the request stops it, it is inactive. A
/// section that only has no transport of its own, as Firefox's with `max-bundle`, is one like any other. `requests` has
/// a request for each section of the offer, in order; a section without one is rejected.
///
/// Lines that browsers pass over are passed over here: empty ones, a section's later lines of bandwidth and those after
/// an attribute, and further maps of a payload type. A section without a name gets one by its place, as `place_2`.
///
/// Of a section in which the end only receives by its request, the end reads that the browser only sends.
///
/// The state remembers the places, and what the offer tells of the browser's transport. If the end then refuses the
/// text, or the offer is given up, go on with a copy of the state that was made before.
///
/// # Errors
///
/// `Unreadable`, `RestUnread`, `MidNotKept`, `MidTwice`, `SeveralBundles`, `OutsideBundle`, `NothingLeft`, `KeysAlone`,
/// the first that applies; or `Memory`. The state is then as before.
#[tactic(auto, using(crate::proofs::Refused::want_of_memory))]
pub fn for_end(
    alloc: Global,
    state: &mut BrowserState,
    offer: &str,
    requests: &[SectionRequest],
) -> Result<String, BrowserError>
    ensures passes { IfOk result
        (λ out. OfferPasses (tidied offer.now) requests.now state.old state.new (string_bytes out)) }
    ensures refused { IfErr result (λ e. RefusesOffer (tidied offer.now) state.old requests.now e) }
    ensures unchanged { OnErr result (state.new ≡ state.old) }
{
    let offer = tidied(alloc, offer)?;
    offer_handed(alloc, state, offer.as_str(), requests)
}

/// What an end is handed of an answer that is tidied.
#[tactic(auto, using(crate::proofs::Refused::unread, crate::proofs::Refused::want_of_memory, crate::proofs::Refused::tested))]
fn answer_handed(
    alloc: Global,
    state: &mut BrowserState,
    answer: &str,
) -> Result<String, BrowserError>
    ensures passes { IfOk result (λ out. AnswerPasses answer.now state.old state.new (string_bytes out)) }
    ensures refused { IfErr result (λ e. RefusesAnswer answer.now state.old e) }
    ensures unchanged { OnErr result (state.new ≡ state.old) }
{
    let sdp = read_whole(alloc, answer)?;
    let all = sdp.media_lines.as_slice();
    let places = answered_places(alloc, state.places.as_slice(), all)?;
    let sections = left(alloc, places.as_slice(), all)?;
    test_answer(alloc, answer, state, &sdp, sections.as_slice())?;
    let remote = told(alloc, &sdp.session, sections.as_slice())?;
    let kept = of_sections(alloc, &sdp.session, state.sections.as_slice(), sections)?;
    let text = handed(alloc, answer, &sdp, &kept)?;
    state.places = places;
    state.sections = kept.media_lines;
    state.setup = left_over(state.setup, remote.setup);
    state.remote = remote;
    Ok(text)
}

/// The text that an end understands of a browser's answer to the end's own offer, for its `accept`: the sections of
/// the end's offer, without the lines of the transport. One that the end had before, and that the offer or the answer
/// stops, is inactive. The state remembers the places, and what the answer tells of the browser's transport.
///
/// # Errors
///
/// `Unreadable`, `RestUnread`, `MidNotKept`, `MidTwice`, `NotCorresponding`, `Rejected` (a section that is new in the
/// end's offer: withdraw the offer, and make it without the section), `SeveralBundles`, `OutsideBundle`, `NothingLeft`,
/// `KeysAlone`, the first that applies; or `Memory`. The state is then as before.
#[tactic(auto, using(crate::proofs::Refused::want_of_memory))]
pub fn answer_for_end(
    alloc: Global,
    state: &mut BrowserState,
    answer: &str,
) -> Result<String, BrowserError>
    ensures passes { IfOk result
        (λ out. AnswerPasses (tidied answer.now) state.old state.new (string_bytes out)) }
    ensures refused { IfErr result (λ e. RefusesAnswer (tidied answer.now) state.old e) }
    ensures unchanged { OnErr result (state.new ≡ state.old) }
{
    let answer = tidied(alloc, answer)?;
    answer_handed(alloc, state, answer.as_str())
}

/// The text that a browser gets for an end's answer or offer: its sections in the browser's places, with the
/// transport's lines after the name of each. A section that isn't answered, or that was stopped, is rejected in its
/// place, and isn't in the bundle (RFC 8829 5.2.2 and 5.3.1, RFC 9143 7.3.3). New ones of an offer get the places that
/// were rejected in an earlier exchange, from the first on, and follow after all places if there are more (RFC 8829
/// 5.2.2). An answer lists payload types in the offer's order (RFC 3264 6.1). The version of `o=` is 2 in the first
/// text, and the next one in each that differs from the last (RFC 3264 8). What the state's identity gives is in the
/// text.
///
/// # Errors
///
/// `Unreadable`, `RestUnread`, `UfragNotFit`, `PasswordNotFit`, `SetupNotFit`, `NotCorresponding`, `NotWritable`, the
/// first that applies; or `Memory`. The state is then as before.
#[tactic(auto, using(crate::proofs::Refused::own_unread, crate::proofs::Refused::own_want, crate::proofs::Refused::own_tested, crate::proofs::Refused::own_unwritten_by))]
pub fn for_browser(
    alloc: Global,
    state: &mut BrowserState,
    text: &str,
    transport: &Transport,
) -> Result<String, BrowserError>
    ensures passes { IfOk result (λ out. HasTransport text.now state.old transport.now state.new (string_bytes out)) }
    ensures refused { IfErr result (λ e. HasNoTransport text.now state.old transport.now e) }
    ensures unchanged { OnErr result (state.new ≡ state.old) }
{
    let sdp = read_whole(alloc, text)?;
    test_own(alloc, state, transport, &sdp)?;
    let with_transport = with_transport(alloc, state, transport, sdp)?;
    let (text, said) = told_text(alloc, &state.identity, &state.said, &with_transport)?;
    let places = told_places(alloc, state)?;
    state.places = places;
    state.setup = settled(state.setup, transport.setup);
    state.is_answering = false;
    state.said = Some(said);
    Ok(text)
}

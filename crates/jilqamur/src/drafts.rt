//! What an end is made of, gathered call by call.
//! Each call returns `CLOSED` at a closed handle, and changes nothing then.

ghost use Rattle.std.specs.Prelude.{◌≡◌, ◌≢◌};
ghost use Rattle.sdp_formats_rows.specs.DefaultRows.{default_rows};
ghost use Rattle.jilqamur.specs.Codes.{ok, memory};
ghost use Rattle.jilqamur.specs.Handles.{AtObject};
ghost use Rattle.jilqamur.specs.DraftedRows.{row_of, row_outcome};
ghost use Rattle.jilqamur.specs.Drafts.{extension_outcome, section_of, section_outcome};
ghost use Rattle.jilqamur.specs.Drafts.{with_extension, with_repair, with_row, with_rows, with_section};
ghost use Rattle.jilqamur.specs.HeldEnds.{with_draft};
ghost use Rattle.jilqamur.specs.Held.{end_in};

use crate::codes;
use crate::handle::EndHandle;
use crate::object::Object;
use crate::row::WireRow;
use std::alloc::Global;

/// Appends a row to the draft, with a codec by name and the parameters of an `a=fmtp` line, and
/// returns `OK`; or `OUT_OF_RANGE` for a clock rate of 0, otherwise `NOT_TEXT`, or `MEMORY`, and
/// nothing has changed.
#[unsafe(no_mangle)]
pub extern "C" fn jilqamur_end_row(
    end: &mut EndHandle,
    row: &WireRow,
    codec: &[u8],
    format: &[u8],
) -> u32
    ensures outcome { AtObject (end_in end.old) (end_in end.new) result
        (λ p after. result ≢ memory → result ≡ row_outcome row.now codec.now format.now) }
    ensures added { AtObject (end_in end.old) (end_in end.new) result
        (λ p after. result ≡ ok
        → after ≡ with_draft p (with_row p.draft (row_of row.now codec.now format.now))) }
    ensures unchanged { result ≢ ok → end_in end.new ≡ end_in end.old }
{
    if !end.slot.is_open() {
        return codes::CLOSED;
    }
    let Object::End(held) = end.slot.place.held() else {
        unreachable!();
    };
    held.draft.add_row(row, codec, format)
}

/// Puts the default rows of Opus, VP8, H.264, H.265, VP9 and AV1 after those of the draft, in this order, and
/// returns `OK`; or `MEMORY`, and nothing has changed.
#[unsafe(no_mangle)]
pub extern "C" fn jilqamur_end_default_rows(alloc: Global, end: &mut EndHandle) -> u32
    ensures outcome { AtObject (end_in end.old) (end_in end.new) result
        (λ p after. result ≢ memory → result ≡ ok) }
    ensures added { AtObject (end_in end.old) (end_in end.new) result
        (λ p after. result ≡ ok → after ≡ with_draft p (with_rows p.draft default_rows)) }
    ensures unchanged { result ≢ ok → end_in end.new ≡ end_in end.old }
{
    if !end.slot.is_open() {
        return codes::CLOSED;
    }
    let Object::End(held) = end.slot.place.held() else {
        unreachable!();
    };
    held.draft.add_default_rows(alloc)
}

/// Gives a header extension this id in the draft's map, replacing any that had it, and returns
/// `OK`; or `OUT_OF_RANGE` for an id outside 1 to 16, otherwise `NOT_TEXT`, or `MEMORY`, and
/// nothing has changed.
#[unsafe(no_mangle)]
pub extern "C" fn jilqamur_end_extension(
    alloc: Global,
    end: &mut EndHandle,
    id: u8,
    uri: &[u8],
) -> u32
    ensures outcome { AtObject (end_in end.old) (end_in end.new) result
        (λ p after. result ≢ memory → result ≡ extension_outcome id uri.now) }
    ensures put { AtObject (end_in end.old) (end_in end.new) result
        (λ p after. result ≡ ok → after ≡ with_draft p (with_extension p.draft id uri.now)) }
    ensures unchanged { result ≢ ok → end_in end.new ≡ end_in end.old }
{
    if !end.slot.is_open() {
        return codes::CLOSED;
    }
    let Object::End(held) = end.slot.place.held() else {
        unreachable!();
    };
    held.draft.set_extension(alloc, id, uri)
}

/// Makes one SSRC the RTX SSRC of another in the next section or request (RFC 4588 8.3), and returns
/// `OK`; or `MEMORY`, and nothing has changed.
#[unsafe(no_mangle)]
pub extern "C" fn jilqamur_end_section_repair(end: &mut EndHandle, ssrc: u32, repair: u32) -> u32
    ensures outcome { AtObject (end_in end.old) (end_in end.new) result
        (λ p after. result ≢ memory → result ≡ ok) }
    ensures added { AtObject (end_in end.old) (end_in end.new) result
        (λ p after. result ≡ ok → after ≡ with_draft p (with_repair p.draft ssrc repair)) }
    ensures unchanged { result ≢ ok → end_in end.new ≡ end_in end.old }
{
    if !end.slot.is_open() {
        return codes::CLOSED;
    }
    let Object::End(held) = end.slot.place.held() else {
        unreachable!();
    };
    held.draft.add_repair(ssrc, repair)
}

/// Appends a section to the next offer or answer, with the pairs collected so far, which are used
/// up, and returns `OK`; or `NOT_TEXT`, or `MEMORY`, and nothing has changed.
#[unsafe(no_mangle)]
pub extern "C" fn jilqamur_end_section(
    alloc: Global,
    end: &mut EndHandle,
    mid: &[u8],
    is_video: bool,
    sends: bool,
    receives: bool,
    ssrcs: &[u32],
) -> u32
    ensures outcome { AtObject (end_in end.old) (end_in end.new) result
        (λ p after. result ≢ memory → result ≡ section_outcome mid.now) }
    ensures added { AtObject (end_in end.old) (end_in end.new) result
        (λ p after. result ≡ ok → after
        ≡ with_draft p (with_section p.draft (section_of mid.now is_video sends receives ssrcs.now p.draft.repairs))) }
    ensures unchanged { result ≢ ok → end_in end.new ≡ end_in end.old }
{
    if !end.slot.is_open() {
        return codes::CLOSED;
    }
    let Object::End(held) = end.slot.place.held() else {
        unreachable!();
    };
    held.draft
        .add_section(alloc, mid, is_video, sends, receives, ssrcs)
}

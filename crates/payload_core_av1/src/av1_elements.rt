//! The elements of AV1 packets (RTP payload format for AV1, 4.4 and 4.5).

ghost use Rattle.payload_core_av1.specs.Av1Reading.{all_given, complete, counted_elements, elements_of, given};
ghost use Rattle.payload_core_av1.specs.Av1Reading.{opened};
ghost use Rattle.payload_core_av1.specs.Av1Reading.{opened_by, sized_elements};
ghost use Rattle.payload_core_av1.specs.Av1ReadingViews.{Gathers, Keeps, or_else};
ghost use Rattle.payload_core_base.specs.Format.{Fragment};
ghost use Rattle.std.specs.Prelude.{◌≡◌, ◌≢◌, ◌++◌, IfErr, IfOk, is_some, None, Some, map, option_map, length};

use crate::leb128::sized_part;
use crate::obu::whole_obu;
use payload_core_base::PacketError;
use std::alloc::{AllocError, Global};
use std::mem;

/// n elements with size fields, then the rest as the last element.
fn counted_elements(alloc: Global, count: u8, body: &[u8]) -> Result<Vec<&[u8]>, PacketError>
    ensures value { IfOk result (λ es. counted_elements count body.now ≡ Some (map (λ e. e.now) es.items)) }
    ensures refused { IfErr result (λ e. e ≢ PacketError.Memory → (e ≡ PacketError.ErrAv1CorruptedPacket)
        × (counted_elements count body.now ≡ None)) }
{
    let mut elements = Vec::new(alloc);
    let mut rest = body;
    for _ in 0..count {
        let Some((element, behind)) = sized_part(rest) else {
            return Err(PacketError::ErrAv1CorruptedPacket);
        };
        elements.push(element)?;
        rest = behind;
    }
    elements.push(rest)?;
    Ok(elements)
}

/// Elements after their sizes up to the end.
fn sized_elements(alloc: Global, body: &[u8]) -> Result<Vec<&[u8]>, PacketError>
    ensures value { IfOk result (λ es. sized_elements (length body.now) body.now ≡ Some (map (λ e. e.now) es.items)) }
    ensures refused { IfErr result (λ e. e ≢ PacketError.Memory → (e ≡ PacketError.ErrAv1CorruptedPacket)
        × (sized_elements (length body.now) body.now ≡ None)) }
{
    let mut elements = Vec::new(alloc);
    let mut rest = body;
    while !rest.is_empty() {
        let Some((element, behind)) = sized_part(rest) else {
            return Err(PacketError::ErrAv1CorruptedPacket);
        };
        elements.push(element)?;
        rest = behind;
    }
    Ok(elements)
}

/// The elements of a packet: W of them, the last without a size; with W = 0 any number.
pub fn elements_of(alloc: Global, w: u8, body: &[u8]) -> Result<Vec<&[u8]>, PacketError>
    ensures value { IfOk result (λ es. elements_of w body.now ≡ Some (map (λ e. e.now) es.items)) }
    ensures refused { IfErr result (λ e. e ≢ PacketError.Memory → (e ≡ PacketError.ErrAv1CorruptedPacket)
        × (elements_of w body.now ≡ None)) }
{
    if w == 0 {
        sized_elements(alloc, body)
    } else {
        counted_elements(alloc, w - 1, body)
    }
}

/// Whether an element is empty or a unit.
fn is_unit(element: &[u8]) -> bool
    ensures { result ≡ is_some (given element.now) }
{
    element.is_empty() || whole_obu(element).is_some()
}

/// Whether each of these elements is empty or a unit.
pub fn are_units(elements: &[&[u8]]) -> bool
    ensures { result ≡ is_some (all_given (map (λ e. e.now) elements.now)) }
{
    for element in elements {
        if !is_unit(element) {
            return false;
        }
    }
    true
}

/// Writes the unit that a complete element is, if it is kept.
fn give(element: &[u8], out: &mut Vec<u8>) -> Result<(), PacketError>
    ensures given { IfOk result (λ _. Gathers out.old.items (given element.now) out.new.items) }
    ensures kept { Keeps out.old.items out.new.items }
    ensures refused { IfErr result (λ e. e ≢ PacketError.Memory → (e ≡ PacketError.ErrAv1CorruptedPacket)
        × (given element.now ≡ None)) }
{
    if element.is_empty() {
        return Ok(());
    }
    let Some(obu) = whole_obu(element) else {
        return Err(PacketError::ErrAv1CorruptedPacket);
    };
    if obu.is_kept() {
        obu.push_with_size(out)?;
    }
    Ok(())
}

/// Writes what complete elements give, one after the other.
fn give_all(elements: &[&[u8]], out: &mut Vec<u8>) -> Result<(), PacketError>
    ensures given { IfOk result (λ _. Gathers out.old.items (all_given (map (λ e. e.now) elements.now)) out.new.items) }
    ensures kept { Keeps out.old.items out.new.items }
    ensures refused { IfErr result (λ e. e ≢ PacketError.Memory → (e ≡ PacketError.ErrAv1CorruptedPacket)
        × (all_given (map (λ e. e.now) elements.now) ≡ None)) }
{
    for element in elements {
        match give(element, out) {
            Ok(()) => {}
            Err(e) => return Err(e),
        }
    }
    Ok(())
}

/// The fragment that an element opens, in the memory of an earlier one: none if it is empty.
fn opened_by(
    alloc: Global,
    spare: &mut Vec<u8>,
    element: &[u8],
) -> Result<Option<Vec<u8>>, AllocError>
    ensures { IfOk result (λ f. (before : Fragment) → opened_by before element.now
        ≡ or_else (option_map (λ v. v.items) f) before) }
{
    if element.is_empty() {
        return Ok(None);
    }
    let mut opened = mem::replace(spare, Vec::new(alloc));
    opened.clear();
    opened.extend_from_slice(element)?;
    Ok(Some(opened))
}

/// The elements that are complete: with `opens_last` all but the last.
pub fn complete<'a>(opens_last: bool, elements: &'a [&'a [u8]]) -> &'a [&'a [u8]]
    ensures { map (λ e. e.now) result.now ≡ complete opens_last (map (λ e. e.now) elements.now) }
{
    if !opens_last {
        return elements;
    }
    let Some((_, front)) = elements.split_last() else {
        return elements;
    };
    front
}

/// Writes what elements give, and returns the fragment that the last one opens: with `opens_last` it does, and the
/// others are complete. It takes the memory of an earlier one.
pub fn give_and_open(
    alloc: Global,
    spare: &mut Vec<u8>,
    opens_last: bool,
    elements: &[&[u8]],
    out: &mut Vec<u8>,
) -> Result<Option<Vec<u8>>, PacketError>
    ensures given { IfOk result (λ _. Gathers out.old.items
        (all_given (complete opens_last (map (λ e. e.now) elements.now))) out.new.items) }
    ensures fragment { IfOk result (λ f. (before : Fragment) → opened opens_last before (map (λ e. e.now) elements.now)
        ≡ or_else (option_map (λ v. v.items) f) before) }
    ensures kept { Keeps out.old.items out.new.items }
    ensures refused { IfErr result (λ e. e ≢ PacketError.Memory → (e ≡ PacketError.ErrAv1CorruptedPacket)
        × (all_given (complete opens_last (map (λ e. e.now) elements.now)) ≡ None)) }
{
    if !opens_last {
        give_all(elements, out)?;
        return Ok(None);
    }
    let Some((last, front)) = elements.split_last() else {
        return Ok(None);
    };
    let opened = opened_by(alloc, spare, last)?;
    give_all(front, out)?;
    Ok(opened)
}

/// Writes the unit that an open fragment is with an element after it, if it is kept; the fragment stays as it was.
pub fn give_joined(
    fragment: &mut Vec<u8>,
    element: &[u8],
    out: &mut Vec<u8>,
) -> Result<(), PacketError>
    ensures given { IfOk result (λ _. Gathers out.old.items (given (fragment.old.items ++ element.now)) out.new.items) }
    ensures kept { Keeps out.old.items out.new.items }
    ensures unchanged { fragment.new.items ≡ fragment.old.items }
    ensures refused { IfErr result (λ e. e ≢ PacketError.Memory → (e ≡ PacketError.ErrAv1CorruptedPacket)
        × (given (fragment.old.items ++ element.now) ≡ None)) }
{
    let len = fragment.len();
    fragment.extend_from_slice(element)?;
    let outcome = give(fragment, out);
    fragment.truncate(len);
    outcome
}

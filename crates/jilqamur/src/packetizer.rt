//! Handles of packetizers: opened, given samples, and closed.
//! Each call returns `CLOSED` at a closed handle, and changes nothing then.

ghost use Rattle.std.specs.Prelude.{◌≡◌, ◌≢◌, ◌+◌, ◌==◌, length, None, Some, IsSome, MatchOption};
ghost use Rattle.std.specs.List.{slice_get};
ghost use Rattle.jilqamur.specs.Codes.{ok, memory, nothing, closed, in_use};
ghost use Rattle.jilqamur.specs.Copies.{IsFetched};
ghost use Rattle.jilqamur.specs.Handles.{AtObject, answer_of};
ghost use Rattle.jilqamur.specs.PacketOutboxes.{new_packet_outbox, packetizer_outcome, cut, cut_outcome};
ghost use Rattle.jilqamur.specs.PacketOutboxes.{after_cut, packing_in};
ghost use Rattle.jilqamur.specs.Held.{packetizer_in};

use crate::codes;
use crate::format::WireFormat;
use crate::handle::PacketizerHandle;
use crate::object::Object;
use crate::packet_outbox::{PacketOutbox, WirePacketizer};
use std::alloc::Global;

/// Holds a packetizer that cut nothing, and returns `OK`; or `IN_USE` if it holds one already, why the
/// parameters make none, or `MEMORY`, and is unchanged.
#[unsafe(no_mangle)]
pub extern "C" fn jilqamur_packetizer_open(
    alloc: Global,
    packetizer: &mut PacketizerHandle,
    params: &WirePacketizer,
    format: &WireFormat,
    codec: &[u8],
) -> u32
    ensures opened { result ≡ ok
        → packetizer_in packetizer.new ≡ Some (new_packet_outbox params.now format.now codec.now) }
    ensures held_none { result ≡ ok → packetizer_in packetizer.old ≡ None }
    ensures accepted { result ≡ ok → packetizer_outcome params.now format.now codec.now ≡ ok }
    ensures in_use { IsSome (packetizer_in packetizer.old) → result ≡ in_use }
    ensures only_in_use { result ≡ in_use → IsSome (packetizer_in packetizer.old) }
    ensures refusal { result ≢ ok → result ≢ memory → result ≢ in_use
        → result ≡ packetizer_outcome params.now format.now codec.now }
    ensures unchanged { result ≢ ok → packetizer_in packetizer.new ≡ packetizer_in packetizer.old }
{
    if packetizer.slot.is_open() {
        return codes::IN_USE;
    }
    let opened = match PacketOutbox::new(alloc, params, format, codec) {
        Ok(opened) => opened,
        Err(code) => return code,
    };
    match Box::new(alloc, Object::Packetizer(opened)) {
        Ok(opened) => {
            packetizer.slot.put(opened);
            codes::OK
        }
        Err(_) => codes::MEMORY,
    }
}

/// Frees the packetizer, and returns `OK`, or `CLOSED` if it holds none; it holds nothing from now on.
#[unsafe(no_mangle)]
pub extern "C" fn jilqamur_packetizer_close(alloc: Global, packetizer: &mut PacketizerHandle) -> u32
    ensures held { result ≡ answer_of (packetizer_in packetizer.old) }
    ensures empty { packetizer_in packetizer.new ≡ None }
{
    packetizer.slot.close(alloc)
}

/// Cuts a sample into packets of at most `mtu` bytes, and returns `OK`: they are left to be fetched in place of
/// those before, and `count` is how many there are. Else the number of why the codec refuses the sample, or
/// `MEMORY`, and nothing has changed.
#[unsafe(no_mangle)]
pub extern "C" fn jilqamur_packetizer_packetize(
    packetizer: &mut PacketizerHandle,
    mtu: usize,
    sample: &[u8],
    count: &mut usize,
) -> u32
    ensures outcome { AtObject (packetizer_in packetizer.old) (packetizer_in packetizer.new) result
        (λ p after. result ≢ memory → result ≡ cut_outcome (cut p mtu sample.now)) }
    ensures after { AtObject (packetizer_in packetizer.old) (packetizer_in packetizer.new) result
        (λ p after. result ≢ memory → after ≡ after_cut p (cut p mtu sample.now)) }
    ensures count { AtObject (packetizer_in packetizer.old) (packetizer_in packetizer.new) result
        (λ p after. count.new ≡ length after.packets) }
    ensures kept { result ≢ ok → packetizer_in packetizer.new ≡ packetizer_in packetizer.old }
    ensures closed { result ≡ closed → count.new ≡ count.old }
{
    if !packetizer.slot.is_open() {
        return codes::CLOSED;
    }
    let Object::Packetizer(outbox) = packetizer.slot.place.held() else {
        unreachable!();
    };
    outbox.packetize(mtu, sample, count)
}

/// Copies the packet of this place, counted from 0, that the last sample left, and returns `OK`, or `TOO_SMALL`,
/// and the buffer is unchanged; `needed` is its length in bytes, and `marker` its marker. `NOTHING` if there is
/// none of that place.
#[unsafe(no_mangle)]
pub extern "C" fn jilqamur_packetizer_packet(
    packetizer: &mut PacketizerHandle,
    index: usize,
    buffer: &mut [u8],
    needed: &mut usize,
    marker: &mut bool,
) -> u32
    ensures bytes { AtObject (packetizer_in packetizer.old) (packetizer_in packetizer.new) result
        (λ p after. IsFetched (slice_get p.packets index) buffer.old result needed.new buffer.new) }
    ensures marker { AtObject (packetizer_in packetizer.old) (packetizer_in packetizer.new) result
        (λ p after. MatchOption (slice_get p.packets index) (marker.new ≡ marker.old)
        (λ packet. marker.new ≡ (packing_in p).marks packet (index + 1 == length p.packets))) }
    ensures closed { result ≡ closed
        → (buffer.new ≡ buffer.old) × (needed.new ≡ needed.old) × (marker.new ≡ marker.old) }
    ensures nothing { result ≡ nothing → needed.new ≡ needed.old }
    ensures unchanged { packetizer_in packetizer.new ≡ packetizer_in packetizer.old }
{
    if !packetizer.slot.is_open() {
        return codes::CLOSED;
    }
    let Object::Packetizer(outbox) = packetizer.slot.place.held() else {
        unreachable!();
    };
    outbox.packet(index, buffer, needed, marker)
}

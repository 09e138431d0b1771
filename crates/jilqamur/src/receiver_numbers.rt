//! Sequence numbers of receiving streams by codec: what is missing, and what is passed over.
//! Each call returns `CLOSED` at a closed handle, and changes nothing then.

ghost use Rattle.std.specs.Prelude.{◌≡◌, ◌≢◌};
ghost use Rattle.rtp_media_streams.specs.Missing.{missing};
ghost use Rattle.jilqamur.specs.Codes.{memory, ok, too_small};
ghost use Rattle.jilqamur.specs.Copies.{IsCopied};
ghost use Rattle.jilqamur.specs.Handles.{AtObject};
ghost use Rattle.jilqamur.specs.Held.{receiver_in};
ghost use Rattle.jilqamur.specs.Inboxes.{limited_inbox, passed_inbox};

use crate::codes;
use crate::copying::copy_numbers;
use crate::handle::ReceiverHandle;
use crate::numbers::wide;
use crate::object::Object;
use rtp_wire::SeqNo;
use std::alloc::Global;

/// Copies the missing numbers of a stream, as `jilqamur_end_missing` those of an end's: `OK`, or `TOO_SMALL`, and the
/// buffer is unchanged; `needed` is their count, at most 1,023. Or `MEMORY`.
#[unsafe(no_mangle)]
pub extern "C" fn jilqamur_receiver_missing(
    alloc: Global,
    receiver: &mut ReceiverHandle,
    numbers: &mut [u64],
    needed: &mut usize,
) -> u32
    ensures answer { AtObject (receiver_in receiver.old) (receiver_in receiver.new) result
        (λ p after. result ≢ memory
        → IsCopied (missing p.stream.stream) numbers.old result needed.new numbers.new) }
    ensures kept { result ≢ ok → numbers.new ≡ numbers.old }
    ensures needed { result ≢ ok → result ≢ too_small → needed.new ≡ needed.old }
    ensures unchanged { receiver_in receiver.new ≡ receiver_in receiver.old }
{
    if !receiver.slot.is_open() {
        return codes::CLOSED;
    }
    let Object::Receiver(inbox) = receiver.slot.place.held() else {
        unreachable!();
    };
    let Ok(missing) = inbox.missing() else {
        return codes::MEMORY;
    };
    let Ok(missing) = wide(alloc, missing.as_slice()) else {
        return codes::MEMORY;
    };
    copy_numbers(missing.as_slice(), numbers, needed)
}

/// Passes all numbers of a stream up to this one, and returns `OK`: what waits of them is dropped, and the frame after
/// it is next.
#[unsafe(no_mangle)]
pub extern "C" fn jilqamur_receiver_pass_to(receiver: &mut ReceiverHandle, number: u64) -> u32
    ensures passed { AtObject (receiver_in receiver.old) (receiver_in receiver.new) result
        (λ p after. (result ≡ ok) × (after ≡ passed_inbox number p)) }
{
    if !receiver.slot.is_open() {
        return codes::CLOSED;
    }
    let Object::Receiver(inbox) = receiver.slot.place.held() else {
        unreachable!();
    };
    inbox.pass_to(SeqNo::from(number));
    codes::OK
}

/// Gives memory of a stream back, as `jilqamur_end_keep_within` of an end's, and returns `OK`.
#[unsafe(no_mangle)]
pub extern "C" fn jilqamur_receiver_keep_within(receiver: &mut ReceiverHandle, bytes: usize) -> u32
    ensures limited { AtObject (receiver_in receiver.old) (receiver_in receiver.new) result
        (λ p after. (result ≡ ok) × (after ≡ limited_inbox bytes p)) }
{
    if !receiver.slot.is_open() {
        return codes::CLOSED;
    }
    let Object::Receiver(inbox) = receiver.slot.place.held() else {
        unreachable!();
    };
    inbox.keep_within(bytes);
    codes::OK
}

//! Streams that an end closes.
//! Each call returns `CLOSED` at a closed handle, and changes nothing then.

ghost use Rattle.std.specs.Prelude.{◌≡◌};
ghost use Rattle.jilqamur.specs.Answers.{AtEnd};
ghost use Rattle.jilqamur.specs.Handles.{AtObject};
ghost use Rattle.jilqamur.specs.Held.{end_in};
ghost use Rattle.jilqamur.specs.HeldEnds.{behind_end};
ghost use Rattle.jilqamur.specs.Numbers.{ClosesReceiver, ClosesSender};

use crate::codes;
use crate::handle::EndHandle;
use crate::object::Object;

/// Closes a sending stream, and returns `OK`: what it holds is given back, and its SSRC can be opened again, with new
/// numbers. The stream's own number isn't used again. `NOT_MADE` without an end, `NO_STREAM` if no sending stream has
/// the number.
#[unsafe(no_mangle)]
pub extern "C" fn jilqamur_end_close_sender(end: &mut EndHandle, stream: usize) -> u32
    ensures answer { AtObject (end_in end.old) (end_in end.new) result
        (λ p after. AtEnd p.end after.end result (λ e now. ClosesSender e stream result now)) }
    ensures rest { AtObject (end_in end.old) (end_in end.new) result
        (λ p after. after ≡ behind_end p after.end) }
{
    if !end.slot.is_open() {
        return codes::CLOSED;
    }
    let Object::End(held) = end.slot.place.held() else {
        unreachable!();
    };
    let Some(end) = &mut held.end else {
        return codes::NOT_MADE;
    };
    if !end.is_sender(stream) {
        return codes::NO_STREAM;
    }
    end.close_sender(stream);
    codes::OK
}

/// Closes a receiving stream, and returns `OK`: what it holds is given back, and its SSRC can be opened again, as one
/// that nothing came of. The stream's own number isn't used again, and datagrams of its SSRC and types are `FOREIGN`
/// from then on. `NOT_MADE` without an end, `NO_STREAM` if no receiving stream has the number.
#[unsafe(no_mangle)]
pub extern "C" fn jilqamur_end_close_receiver(end: &mut EndHandle, stream: usize) -> u32
    ensures answer { AtObject (end_in end.old) (end_in end.new) result
        (λ p after. AtEnd p.end after.end result (λ e now. ClosesReceiver e stream result now)) }
    ensures rest { AtObject (end_in end.old) (end_in end.new) result
        (λ p after. after ≡ behind_end p after.end) }
{
    if !end.slot.is_open() {
        return codes::CLOSED;
    }
    let Object::End(held) = end.slot.place.held() else {
        unreachable!();
    };
    let Some(end) = &mut held.end else {
        return codes::NOT_MADE;
    };
    if !end.is_receiver(stream) {
        return codes::NO_STREAM;
    }
    end.close_receiver(stream);
    codes::OK
}

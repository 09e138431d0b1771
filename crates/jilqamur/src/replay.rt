//! The replay window of one stream.

ghost use Rattle.std.specs.Prelude.{◌≡◌};
ghost use Rattle.rtp_wire.specs.Header.{header_in};
ghost use Rattle.rtp_wire.specs.Run.{reception_of};
ghost use Rattle.rtp_wire.specs.Maps.{empty_map};
ghost use Rattle.jilqamur.specs.Windows.{ReceivedAs, behind};

use crate::codes;
use rtp_wire::{ExtensionMap, Reception, SeqNoWindow, receive_one};

/// The replay window of one stream.
#[derive(Drop)]
pub struct Replay {
    /// The window; None before the first number.
    pub window: Option<SeqNoWindow>,
}

impl Replay {
    /// Takes a datagram in: its number, if it begins with a header, is widened and recorded, or refused.
    pub fn receive(&mut self, datagram: &[u8]) -> Reception
        ensures answer { result ≡ reception_of self.old.window (header_in empty_map datagram.now) }
        ensures after { self.new ≡ behind datagram.now self.old }
    {
        let exts = ExtensionMap::empty();
        receive_one(&mut self.window, datagram, &exts)
    }
}

/// What a reception is as a code: `OK`, and `number` is the sequence number that was taken; or `UNREADABLE` or
/// `REFUSED`.
pub(crate) fn reception_code(reception: Reception, number: &mut u64) -> u32
    ensures { ReceivedAs reception result number.old number.new }
{
    match reception {
        Reception::Unreadable => codes::UNREADABLE,
        Reception::Refused => codes::REFUSED,
        Reception::Taken(taken) => {
            *number = taken.get();
            codes::OK
        }
    }
}

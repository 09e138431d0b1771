//! Single events of a schedule.

ghost use Rattle.std.specs.Prelude.{◌≡◌, ◌⊎◌, true, IfOk, OnOk, OnErr, Some, option_to_list};
ghost use Rattle.rtp_media_ends.specs.EndArrivals.{after_datagram, verdict_of};
ghost use Rattle.rtp_media_ends.specs.Ends.{is_receiver_at, is_sender_at, receiver_at, sender_at, with_receiver};
ghost use Rattle.rtp_media_streams.specs.Repairing as repairing;
ghost use Rattle.rtp_media_streams.specs.Receiving.{polled_receiver};
ghost use Rattle.rtp_media_ends.specs.Stops.{PollStops};
ghost use Rattle.rtp_media_runs.specs.Pushing.{after_made};
ghost use Rattle.rtp_media_runs.specs.Schedules.{after_bytes, answer_at, answers_on, bytes_of};

use crate::schedule::Played;
use rtp_media_ends::End;
use rtp_media_streams::{PollFault, RepairError};
use std::alloc::AllocError;

/// Hands bytes to an end.
pub(crate) fn receive(end: &mut End, bytes: &[u8]) -> Result<Option<Played>, AllocError>
    ensures answer { IfOk result (λ answer. answer ≡ Some (Played.Received (verdict_of end.old bytes.now))) }
    ensures after { OnOk result (end.new ≡ after_datagram end.old bytes.now) }
    ensures unchanged { OnErr result (end.new ≡ end.old) }
{
    match end.receive(bytes) {
        Ok(verdict) => Ok(Some(Played::Received(verdict))),
        Err(_) => Err(AllocError),
    }
}

/// Has a sending stream of one end retransmit a datagram, and passes the result to the other end;
/// if that is refused, nothing is passed on. Running out of memory is an error, not an answer.
pub(crate) fn repair(
    a: &mut End,
    b: &mut End,
    tx: usize,
    datagram: &[u8],
) -> Result<Option<Played>, AllocError>
    requires { is_sender_at a.old tx ≡ true }
    ensures answer { let made = Some (repairing.repair (sender_at a.old tx) datagram.now) in
        IfOk result (λ answer. option_to_list answer ≡ answers_on b.old made) }
    ensures made { let made = Some (repairing.repair (sender_at a.old tx) datagram.now) in
        OnOk result (a.new ≡ after_made a.old tx made) }
    ensures after { let made = Some (repairing.repair (sender_at a.old tx) datagram.now) in
        OnOk result (b.new ≡ after_bytes b.old (bytes_of made)) }
    ensures unfinished { let made = Some (repairing.repair (sender_at a.old tx) datagram.now) in
        OnErr result ((a.new ≡ a.old) ⊎ (a.new ≡ after_made a.old tx made)) }
    ensures unchanged { OnErr result (b.new ≡ b.old) }
{
    match a.repair(tx, datagram) {
        Ok(repair) => receive(b, repair.as_slice()),
        Err(error) => match error {
            RepairError::Memory => Err(AllocError),
            refusal => Ok(Some(Played::NotRepaired(refusal))),
        },
    }
}

/// Polls a receiving stream of an end; lack of memory is no answer.
pub(crate) fn poll(end: &mut End, rx: usize) -> Result<Option<Played>, AllocError>
    requires { is_receiver_at end.old rx ≡ true }
    ensures answer { IfOk result (λ answer. answer ≡ Some (Played.Polled (answer_at end.old rx))) }
    ensures after { OnOk result (end.new ≡ with_receiver end.old rx (polled_receiver (receiver_at end.old rx))) }
    ensures stops { OnErr result (PollStops end.old rx end.new) }
{
    match end.poll(rx) {
        Ok(unit) => Ok(Some(Played::Polled(Ok(unit)))),
        Err(fault) => match fault {
            PollFault::Payload(refusal) => Ok(Some(Played::Polled(Err(refusal)))),
            PollFault::Memory => Err(AllocError),
        },
    }
}

//! Packets to units.

ghost use Rattle.payload_core_buffer.specs.Packets.{packet_from};
ghost use Rattle.payload_core_buffer.specs.Steps.{kept_in};
ghost use Rattle.std.specs.Prelude.{◌≡◌, OnErr, OnOk};
ghost use Rattle.stream_recording.specs.Recorded.{Appends, AppendsDue, IsPartRecorded, IsShort, NoneDue};
ghost use Rattle.stream_recording.specs.Recorded.{has_begun, pushed_in, waiting_of};

use payload_core_base::{Depacketizer, PacketError};
use payload_core_buffer::{DepacketizingBuffer, RtpMeta, Unit};
use std::alloc::AllocError;

/// Appends what the frames that are due become, one after another, until none is.
fn take_due<D: Depacketizer>(
    buffer: &mut DepacketizingBuffer<D>,
    hold_back: usize,
    recorded: &mut Vec<Result<Unit, PacketError>>,
) -> Result<(), AllocError>
    ensures format { D.format buffer.new.depacketizer ≡ D.format buffer.old.depacketizer }
    ensures holding { buffer.new.holding ≡ buffer.old.holding }
    ensures taken { OnOk result (Appends (D.format buffer.old.depacketizer) hold_back NoneDue
        (kept_in D.fragment buffer.old) (kept_in D.fragment buffer.new) recorded.old.items recorded.new.items) }
    ensures short { OnErr result (Appends (D.format buffer.old.depacketizer) hold_back IsShort
        (kept_in D.fragment buffer.old) (kept_in D.fragment buffer.new) recorded.old.items recorded.new.items) }
{
    loop {
        recorded.reserve(1)?;
        match buffer.unit_at(hold_back) {
            Ok(None) => return Ok(()),
            Ok(Some(unit)) => recorded.push(Ok(unit))?,
            Err(error) => match error {
                PacketError::Memory => return Err(AllocError),
                fault => recorded.push(Err(fault))?,
            },
        }
    }
}

/// Whether a recording has begun: a frame was handed out, more than `first` frames are complete, or no more packets may
/// wait.
fn has_begun<D: Depacketizer>(buffer: &DepacketizingBuffer<D>, first: usize) -> bool
    ensures { result ≡ has_begun (D.format buffer.now.depacketizer) (waiting_of first buffer.now)
        (kept_in D.fragment buffer.now) }
{
    buffer.cutoff().is_some() || buffer.complete_count() > first || buffer.is_full()
}

/// Holds a packet of a stream, and appends what the frames become that are due then, in their order: each its unit, or
/// why it can't be read. A packet that came before, or whose frame is done with, changes nothing.
///
/// The first frame waits too, since a packet of it may come late: none is due before more than `first` frames are
/// complete, or as many packets wait as may.
///
/// # Errors
/// Lack of memory: before the packet is held, and nothing changes, or after it, and what was appended is what came of
/// the first frames; the frame for which memory ran out stays, and some of its packets may have been read.
pub fn record_packet<D: Depacketizer>(
    buffer: &mut DepacketizingBuffer<D>,
    first: usize,
    meta: RtpMeta,
    payload: &[u8],
    recorded: &mut Vec<Result<Unit, PacketError>>,
) -> Result<(), AllocError>
    ensures format { D.format buffer.new.depacketizer ≡ D.format buffer.old.depacketizer }
    ensures holding { buffer.new.holding ≡ buffer.old.holding }
    ensures recorded { OnOk result (AppendsDue (D.format buffer.old.depacketizer) (waiting_of first buffer.old)
        (pushed_in D.fragment buffer.old (packet_from meta payload.now)) (kept_in D.fragment buffer.new)
        recorded.old.items recorded.new.items) }
    ensures short { OnErr result (IsPartRecorded (D.format buffer.old.depacketizer) first D.fragment buffer.old buffer.new
        (packet_from meta payload.now) recorded.old.items recorded.new.items) }
{
    if buffer.push(meta, payload).is_err() {
        return Err(AllocError);
    }
    if !has_begun(buffer, first) {
        return Ok(());
    }
    take_due(buffer, buffer.hold_back(), recorded)
}

/// Appends what the frames become that are left at the end of a stream, in their order, whatever packets before them
/// are missing.
///
/// # Errors
/// Lack of memory: what was appended is what came of the first frames; the frame for which memory ran out stays, and
/// some of its packets may have been read.
pub fn record_rest<D: Depacketizer>(
    buffer: &mut DepacketizingBuffer<D>,
    recorded: &mut Vec<Result<Unit, PacketError>>,
) -> Result<(), AllocError>
    ensures format { D.format buffer.new.depacketizer ≡ D.format buffer.old.depacketizer }
    ensures holding { buffer.new.holding ≡ buffer.old.holding }
    ensures recorded { OnOk result (Appends (D.format buffer.old.depacketizer) 0 NoneDue
        (kept_in D.fragment buffer.old) (kept_in D.fragment buffer.new) recorded.old.items recorded.new.items) }
    ensures short { OnErr result (Appends (D.format buffer.old.depacketizer) 0 IsShort
        (kept_in D.fragment buffer.old) (kept_in D.fragment buffer.new) recorded.old.items recorded.new.items) }
{
    take_due(buffer, 0, recorded)
}

//! The calls whose units the contracts of `carry` and `carry_frame` say.

ghost use Rattle.std.specs.Prelude.{IfSome};
ghost use Rattle.worked_rows.specs.Call.{IsShortSample};
ghost use Rattle.worked_rows.specs.VideoCall.{IsTwoPacketFrame};

use crate::calls::end;
use crate::carrying::carry;
use crate::video_call::carry_frame;
use media_types::Codec;
use rtp_media_runs::{Played, Sample};
use rtp_wire::{ExtensionValues, Frequency, MediaTime};
use sdp_formats_rows::{PayloadParams, rows};
use std::alloc::Global;

/// Prints each codec whose call came to its end, without redundancy and with each payload after the one before. None
/// if one does not.
pub(crate) fn print_calls(rt: &HostRuntime) -> Option<()> {
    for use_red in [false, true] {
        print_call(rt, rows::opus(use_red))?;
        print_call(rt, rows::pcmu(use_red))?;
        print_call(rt, rows::pcma(use_red))?;
        print_call(rt, rows::g722(use_red))?;
    }
    print_frame(rt)
}

/// Prints VP8, once a call of one frame of it came to its end.
fn print_frame(rt: &HostRuntime) -> Option<()> {
    let _answers = frame_call(rt.alloc())?;
    let _ = println!(*rt; "{}", Codec::Vp8.as_str());
    Some(())
}

/// A call of ends of VP8, of one frame of four bytes.
fn frame_call(alloc: Global) -> Option<Vec<Played>> {
    let row = rows::vp8();
    let mut a = end(alloc, row, 1)?;
    let mut b = end(alloc, row, 2)?;
    let frame = short_frame(alloc)?;
    carry_frame(alloc, row.pt(), &mut a, &mut b, frame)
}

/// A frame of four bytes.
fn short_frame(alloc: Global) -> Option<Sample>
    ensures { IfSome result IsTwoPacketFrame }
{
    let time = MediaTime::new(3000, Frequency::NINETY_KHZ);
    let bytes = vec![in alloc; 16, 2, 0, 157].ok()?;
    Some(Sample::new(time, ExtensionValues::absent(), bytes))
}

/// Prints the row's codec, once a call of ends of this row came to its end.
fn print_call(rt: &HostRuntime, row: PayloadParams) -> Option<()> {
    let _answers = call(rt.alloc(), row)?;
    let _ = println!(*rt; "{}", row.spec().codec.as_str());
    Some(())
}

/// A call of ends whose row this is, of three samples of 20 milliseconds.
fn call(alloc: Global, row: PayloadParams) -> Option<Vec<Played>> {
    let first = short_sample(alloc, 960, 10)?;
    let second = short_sample(alloc, 1920, 11)?;
    let third = short_sample(alloc, 2880, 12)?;
    let samples = [first, second, third];
    let mut a = end(alloc, row, 1)?;
    let mut b = end(alloc, row, 2)?;
    carry(alloc, row, &mut a, &mut b, &samples)
}

/// A sample of one byte.
fn short_sample(alloc: Global, time: u64, byte: u8) -> Option<Sample>
    ensures { IfSome result IsShortSample }
{
    let time = MediaTime::new(time, Frequency::FORTY_EIGHT_KHZ);
    let bytes = vec![in alloc; byte].ok()?;
    Some(Sample::new(time, ExtensionValues::absent(), bytes))
}

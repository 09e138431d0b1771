//! The frames of an IVF file, written one by one.

ghost use Rattle.std.specs.Prelude.{◌≡◌, ◌≢◌, ◌+◌, ◌-◌, ◌*◌, ◌++◌, ◌<◌, ◌≤◌, ◌⊎◌, IfErr, OnErr, OnOk, length};
ghost use Rattle.media_files.specs.Ivf.{framed, ivf_frame, ivf_header, nearest_time, size_of, ticks_of};

use crate::errors::RecordingError;
use crate::ivf::{IvfCodec, nearest_time, push_frame, push_header, ticks_of};
use crate::units::TimedUnit;
use std::alloc::AllocError;

/// The frames of a file so far: when the first and the last begin, on a clock that doesn't wrap, and how many they are.
#[derive(Debug, Clone, Copy)]
pub struct IvfFrames {
    codec: IvfCodec,
    first: u64,
    last: u64,
    count: u32,
    ghost early: { last ≤ 8589934592 + 2147483648 * count },
}

impl IvfFrames {
    /// No frames yet, of which the first will have this timestamp.
    pub fn new(codec: IvfCodec, time: u32) -> IvfFrames
        ensures codec { result.codec ≡ codec }
        ensures first { result.first ≡ 4294967296 + time }
        ensures last { result.last ≡ 4294967296 + time }
        ensures count { result.count ≡ 0 }
    {
        let first = 4294967296 + time as u64;
        IvfFrames {
            codec,
            first,
            last: first,
            count: 0,
        }
    }

    /// Writes a frame, with its time counted from the first.
    ///
    /// # Errors
    /// It has 2^32 bytes or more, there are 2^32 - 1 frames already, or there is no memory for it; then the frames are
    /// those of before, and a part of it may be written.
    pub fn push(&mut self, unit: &TimedUnit<'_>, out: &mut Vec<u8>) -> Result<(), RecordingError>
        ensures written { OnOk result (out.new.items ≡ out.old.items
            ++ ivf_frame (nearest_time self.old.last unit.now.time - self.old.first)
            (framed self.old.codec unit.now.bytes.now)) }
        ensures last { OnOk result (self.new.last ≡ nearest_time self.old.last unit.now.time) }
        ensures count { OnOk result (self.new.count ≡ self.old.count + 1) }
        ensures kept { (self.new.codec ≡ self.old.codec) × (self.new.first ≡ self.old.first) }
        ensures unchanged { OnErr result (self.new ≡ self.old) }
        ensures refused { IfErr result (λ e. e ≢ RecordingError.Memory → (e ≡ RecordingError.TooLong)
            × ((self.old.count ≡ 4294967295) ⊎ (4294967296 ≤ length (framed self.old.codec unit.now.bytes.now)))) }
    {
        if self.count == u32::MAX {
            return Err(RecordingError::TooLong);
        }
        let time = nearest_time(self.last, unit.time);
        push_frame(self.codec, time.saturating_sub(self.first), unit.bytes, out)?;
        self.last = time;
        self.count += 1;
        Ok(())
    }

    /// Writes the header of a file of these frames, whose pictures have this width and height, at so many ticks a
    /// second: the last frame lasts as long as the others do on average.
    ///
    /// # Errors
    /// There is no memory for it.
    pub fn push_header(
        &self,
        rate: u32,
        size: (u16, u16),
        out: &mut Vec<u8>,
    ) -> Result<(), AllocError>
        ensures { OnOk result (out.new.items ≡ out.old.items ++ ivf_header self.now.codec (size_of size.0 size.1) rate
            (ticks_of self.now.count (self.now.last - self.now.first))) }
    {
        let ticks = ticks_of(self.count, self.last.saturating_sub(self.first));
        push_header(self.codec, size, rate, ticks, out)
    }
}

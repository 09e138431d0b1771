//! The pages of an Ogg Opus file, written one by one (RFC 7845).

ghost use Rattle.std.specs.Prelude.{◌≡◌, ◌≢◌, ◌*◌, ◌≤◌, ◌++◌, ◌⊎◌, [], IfErr, OnErr, OnOk};
ghost use Rattle.media_files.specs.Opus.{IsLong, head_page, item, playing_after, sound_page, tags_page};
ghost use Rattle.media_files.specs.OpusViews.{stream_shown};

use crate::errors::RecordingError;
use crate::ogg::PagePlace;
use crate::opus::{
    OpusStream, last_flag, opus_duration, push_head_page, push_heard, push_tags_page, sound,
};
use std::alloc::{AllocError, Global};

/// Writes the pages in front of the first packet's: of the header, and of the comments, which is the last one if no
/// packet follows.
///
/// # Errors
/// There is no memory for them.
pub fn push_opus_front(
    alloc: Global,
    stream: OpusStream,
    is_last: bool,
    out: &mut Vec<u8>,
) -> Result<(), AllocError>
    ensures { OnOk result (out.new.items ≡ out.old.items
        ++ (head_page (stream_shown stream) ++ tags_page stream.serial is_last)) }
{
    push_head_page(alloc, stream, out)?;
    push_tags_page(alloc, stream.serial, is_last, out)
}

/// The packets of a stream so far: the last one that came whole, how many samples there were, and the number of the
/// next page.
#[derive(Debug, Drop)]
pub struct OpusPages {
    serial: u32,
    previous: Vec<u8>,
    granule: u64,
    sequence: u32,
    ghost early: { granule ≤ 5760 * sequence },
}

impl OpusPages {
    ghost use Rattle.media_files.specs.Opus.{playing};
    ghost use Rattle.media_files.specs.PagesViews.{playing_shown};

    /// No packets yet, of a stream with this serial number.
    pub fn new(alloc: Global, serial: u32) -> OpusPages
        ensures serial { result.serial ≡ serial }
        ensures begun { playing_shown result ≡ playing [] 0 2 }
    {
        OpusPages {
            serial,
            previous: Vec::new(alloc),
            granule: 0,
            sequence: 2,
        }
    }

    /// Writes the page of a packet, the last one or not. One that was lost (None) or is no packet of Opus is silence as
    /// long as the one before it.
    ///
    /// # Errors
    /// The packet has more than 65,024 bytes, there are 2^32 - 1 pages already, or there is no memory for it; then the
    /// packets are those of before, and a part of it may be written.
    pub fn push(
        &mut self,
        alloc: Global,
        packet: Option<&[u8]>,
        is_last: bool,
        out: &mut Vec<u8>,
    ) -> Result<(), RecordingError>
        ensures written { OnOk result (out.new.items ≡ out.old.items
            ++ sound_page self.old.serial (playing_shown self.old) (item packet.entry) is_last) }
        ensures after { OnOk result (playing_shown self.new
            ≡ playing_after (playing_shown self.old) (item packet.entry)) }
        ensures serial { self.new.serial ≡ self.old.serial }
        ensures unchanged { OnErr result (self.new ≡ self.old) }
        ensures refused { IfErr result (λ e. e ≢ RecordingError.Memory → (e ≡ RecordingError.TooLong)
            × ((self.old.sequence ≡ 4294967295) ⊎ IsLong (item packet.entry))) }
    {
        if self.sequence == u32::MAX {
            return Err(RecordingError::TooLong);
        }
        let found = sound(packet);
        let samples = opus_duration(found.unwrap_or(self.previous.as_slice())) as u64;
        let place = PagePlace {
            flags: last_flag(is_last),
            granule: self.granule + samples,
            serial: self.serial,
            sequence: self.sequence,
        };
        push_heard(alloc, &place, found, &self.previous, out)?;
        if let Some(bytes) = found {
            self.previous = Vec::from_slice(alloc, bytes)?;
        }
        self.granule += samples;
        self.sequence += 1;
        Ok(())
    }
}

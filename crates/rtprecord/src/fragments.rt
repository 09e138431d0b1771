//! Fragments of IP packets in a capture.

use crate::input::feed_datagram;
use crate::passed::{add, count};
use crate::recorder::Recorder;
use media_files::captures::{
    CapturedPacket, IpFragment, LinkType, Reassembly, fragment_in, make_room, take_fragment,
    udp_datagram_of,
};
use std::alloc::{AllocError, Global};

// How many fragments wait for others: more than a packet of 65,535 bytes has on Ethernet.
const MOST_FRAGMENTS: usize = 64;

/// A frame with a fragment.
#[derive(Drop)]
struct Frame {
    link: LinkType,
    bytes: Vec<u8>,
}

/// The fragments that wait for others of their packets.
#[derive(Drop)]
pub(crate) struct Fragments {
    alloc: Global,
    frames: Vec<Frame>,
}

/// What became of a fragment, of how many fragments that waited, and which frames are still waited with.
#[derive(Drop)]
struct Outcome {
    reassembly: Reassembly,
    /// How many made room for it, and how many waited then.
    dropped: usize,
    before: usize,
    /// How many wait now, and which of the frames they are.
    after: usize,
    kept: Vec<bool>,
}

/// Whether two fragments of different packets or places are the same.
fn is_same(one: &IpFragment<'_>, other: &IpFragment<'_>) -> bool {
    one.start == other.start
        && one.identification == other.identification
        && one.protocol == other.protocol
        && one.addresses == other.addresses
}

impl Fragments {
    /// No fragments.
    pub(crate) fn new(alloc: Global) -> Fragments {
        Fragments {
            alloc,
            frames: Vec::new(alloc),
        }
    }

    /// The fragments that wait.
    fn held(&self) -> Result<Vec<IpFragment<'_>>, AllocError> {
        let mut held = Vec::new(self.alloc);
        for frame in &self.frames {
            if let Some(fragment) = fragment_in(frame.link, &frame.bytes) {
                held.push(fragment)?;
            }
        }
        Ok(held)
    }

    /// Which of the frames' fragments are among these, which are in the same order.
    fn kept(&self, held: &[IpFragment<'_>]) -> Result<Vec<bool>, AllocError> {
        let (mut kept, mut next) = (Vec::new(self.alloc), 0usize);
        for frame in &self.frames {
            let is_kept = match (fragment_in(frame.link, &frame.bytes), held.get(next)) {
                (Some(fragment), Some(one)) => is_same(&fragment, one),
                _ => false,
            };
            if is_kept {
                next = next.saturating_add(1);
            }
            kept.push(is_kept)?;
        }
        Ok(kept)
    }

    /// What becomes of a fragment.
    fn outcome(&self, fragment: IpFragment<'_>) -> Result<Outcome, AllocError> {
        let mut held = self.held()?;
        let all = held.len();
        make_room(MOST_FRAGMENTS, &mut held);
        let before = held.len();
        let reassembly = take_fragment(self.alloc, fragment, &mut held)?;
        Ok(Outcome {
            reassembly,
            dropped: all.saturating_sub(before),
            before,
            after: held.len(),
            kept: self.kept(&held)?,
        })
    }

    /// Drops the frames that are not kept.
    fn drop_others(&mut self, kept: &[bool]) -> Result<(), AllocError> {
        let frames = std::mem::replace(&mut self.frames, Vec::new(self.alloc));
        for (place, frame) in frames.into_iter().enumerate() {
            if kept.get(place).copied().unwrap_or(false) {
                self.frames.push(frame)?;
            }
        }
        Ok(())
    }

    /// Takes a packet that is a fragment, and hands the datagram that it completes to the recorder.
    pub(crate) fn take(
        &mut self,
        packet: &CapturedPacket<'_>,
        recorder: &mut Recorder,
    ) -> Result<(), AllocError> {
        let Some(fragment) = fragment_in(packet.link, packet.bytes) else {
            count(&mut recorder.passed.fragments.unreadable);
            return Ok(());
        };
        let Outcome {
            reassembly,
            dropped,
            before,
            after,
            kept,
        } = self.outcome(fragment)?;
        add(&mut recorder.passed.fragments.alone, dropped);
        self.drop_others(&kept)?;
        match reassembly {
            Reassembly::Waiting => self.frames.push(Frame {
                link: packet.link,
                bytes: Vec::from_slice(self.alloc, packet.bytes)?,
            })?,
            Reassembly::Repeated => count(&mut recorder.passed.fragments.repeated),
            Reassembly::Overlapping => {
                let overlapping = before.saturating_sub(after).saturating_add(1);
                add(&mut recorder.passed.fragments.overlapping, overlapping);
            }
            Reassembly::Whole(payload) => match udp_datagram_of(fragment.protocol, &payload) {
                Ok(datagram) => return feed_datagram(packet, &datagram, recorder),
                Err(why) => recorder.pass_over(why),
            },
        }
        Ok(())
    }

    /// Counts the fragments whose others never came.
    pub(crate) fn leave(&self, recorder: &mut Recorder) {
        add(&mut recorder.passed.fragments.alone, self.frames.len());
    }
}

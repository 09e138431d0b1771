//! Gaps between packets of sound, which files fill so that time goes on.

use crate::units::Unit;
use h26x_payload::Codec;
use media_files::opus_duration;

// How many ticks a frame of AMR-WB has, and how many bytes follow the header of each type (RFC 4867 5.3).
const AMR_WB_FRAME: u32 = 320;

const AMR_WB_RATE: u32 = 16000;

const AMR_WB_BYTES: [usize; 16] = [17, 23, 32, 36, 40, 46, 50, 58, 60, 5, 0, 0, 0, 0, 0, 0];

// Ticks a second of packets of Opus, and of sound with a byte a tick.
const OPUS_RATE: u32 = 48000;

const SOUND_RATE: u32 = 8000;

/// How much of the gaps is filled.
#[derive(Clone, Copy)]
pub(crate) struct Silence {
    /// How many milliseconds of one gap.
    longest: u64,
    /// How many milliseconds of all gaps that are left.
    left: u64,
    /// How many gaps were longer than what was filled.
    pub(crate) shortened: u64,
}

impl Silence {
    /// So many seconds of one gap, and of all.
    pub(crate) fn of(longest_gap: usize, most_silence: usize) -> Silence {
        Silence {
            longest: (longest_gap as u64).saturating_mul(1000),
            left: (most_silence as u64).saturating_mul(1000),
            shortened: 0,
        }
    }

    /// How many of the missing steps of this many ticks are filled, at so many ticks a second.
    fn fill(&mut self, missing: u32, step: u32, rate: u32) -> u32 {
        let most = self.longest.min(self.left).saturating_mul(rate as u64) / 1000;
        let steps = most.checked_div(step as u64).unwrap_or(0);
        let filled = (missing as u64).min(steps);
        if filled < missing as u64 {
            self.shortened = self.shortened.saturating_add(1);
        }
        let ticks = filled.saturating_mul(step as u64).saturating_mul(1000);
        let spent = ticks.checked_div(rate as u64).unwrap_or(0);
        self.left = self.left.saturating_sub(spent);
        u32::try_from(filled).unwrap_or(missing)
    }
}

/// How many steps of `step` ticks are missing between a packet with a time and a duration and the
/// next packet.
fn missing(time: u32, ticks: u32, next: u32, step: u32) -> u32 {
    let elapsed = next.wrapping_sub(time);
    if step == 0 || elapsed >= 0x8000_0000 {
        return 0;
    }
    elapsed.saturating_sub(ticks) / step
}

/// How many ticks the frames of a unit of AMR-WB have.
fn amr_wb_ticks(unit: &[u8]) -> u32 {
    let mut ticks: u32 = 0;
    let mut place: usize = 0;
    for _ in 0..unit.len() {
        let Some(header) = unit.get(place) else {
            break;
        };
        let bytes = AMR_WB_BYTES[(*header / 8 % 16) as usize];
        place = place.saturating_add(bytes).saturating_add(1);
        ticks = ticks.saturating_add(AMR_WB_FRAME);
    }
    ticks
}

/// Sound whose gaps are filled: when the packet before began, and how many ticks it has.
#[derive(Clone, Copy)]
pub(crate) struct Sound {
    codec: Codec,
    before: Option<(u32, u32)>,
}

impl Sound {
    /// Sound of a codec, with no packet yet.
    pub(crate) fn new(codec: Codec) -> Sound {
        Sound {
            codec,
            before: None,
        }
    }

    /// How many ticks a packet has, how many of them a step has that is filled, and how many are in a second.
    fn ticks(&self, unit: &Unit) -> (u32, u32, u32) {
        match self.codec {
            Codec::Opus => {
                let ticks = u32::try_from(opus_duration(&unit.bytes)).unwrap_or(u32::MAX);
                (ticks, ticks, OPUS_RATE)
            }
            Codec::AmrWb => (amr_wb_ticks(&unit.bytes), AMR_WB_FRAME, AMR_WB_RATE),
            _ => {
                let ticks = u32::try_from(unit.bytes.len()).unwrap_or(u32::MAX);
                (ticks, 1, SOUND_RATE)
            }
        }
    }

    /// How many steps are filled before this packet: packets of Opus as long as the one before it, frames of AMR-WB, or
    /// bytes.
    pub(crate) fn fill(&mut self, unit: &Unit, silence: &mut Silence) -> u32 {
        let (ticks, own_step, rate) = self.ticks(unit);
        let Some((time, before)) = self.before else {
            self.before = Some((unit.time, ticks));
            return 0;
        };
        self.before = Some((unit.time, ticks));
        let step = if self.codec == Codec::Opus {
            before
        } else {
            own_step
        };
        silence.fill(missing(time, before, unit.time, step), step, rate)
    }
}

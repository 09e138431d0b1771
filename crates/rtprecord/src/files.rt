//! The files of streams.

use crate::gaps::{Silence, Sound};
use crate::stream::Stream;
use crate::units::UnitReader;
use crate::writing::{FileOptions, Output, Written};
use anyhow::bail;
use h26x_payload::Codec;
use media_files::{
    IvfCodec, IvfFrames, OpusPages, OpusStream, TimedUnit, WavCodec, opus_duration,
    push_amr_wb_frames, push_amr_wb_front, push_opus_front, push_wav_front, push_wav_padding,
};
use std::alloc::Global;
use std::io;

// What an encoder of Opus needs in front, at 48,000 samples a second, and a player skips.
pub(crate) const PRE_SKIP: u16 = 312;

// What is in front of a NAL unit in a byte stream (H.264, H.265 and H.266, Annex B).
const START_CODE: [u8; 4] = [0, 0, 0, 1];

// The most bytes of sound that a WAVE file has room for, and one more.
const MOST_SOUND: u64 = 2_147_483_648;

/// The ending of a file's name; None if the codec has no file.
pub(crate) fn ending_of(codec: Codec) -> Option<&'static str> {
    match codec {
        Codec::Vp8 | Codec::Vp9 | Codec::Av1 => Some("ivf"),
        Codec::H264 => Some("h264"),
        Codec::H265 => Some("h265"),
        Codec::H266 => Some("h266"),
        Codec::Opus => Some("opus"),
        Codec::PCMU | Codec::PCMA | Codec::G722 => Some("wav"),
        Codec::AmrWb => Some("awb"),
        _ => None,
    }
}

/// A stream whose file is written.
#[derive(Clone, Copy)]
struct Source<'a> {
    rt: &'a HostRuntime,
    alloc: Global,
    stream: &'a Stream,
    /// The parameter sets that its units lack.
    sets: &'a [Vec<u8>],
}

impl<'a> Source<'a> {
    /// Its units, from the first on.
    fn units(&self) -> io::Result<UnitReader<'a>> {
        self.stream.units.reader(self.rt)
    }

    /// Writes the frames of pictures, if there is a file; returns them.
    fn push_frames(
        &self,
        codec: IvfCodec,
        output: &mut Output,
        is_written: bool,
    ) -> anyhow::Result<IvfFrames> {
        let mut frames = IvfFrames::new(codec, self.stream.units.first.unwrap_or(0));
        let mut units = self.units()?;
        for _ in 0..self.stream.units.count {
            let Some(unit) = units.next()? else {
                break;
            };
            let timed = TimedUnit {
                time: unit.time,
                bytes: &unit.bytes,
            };
            frames.push(&timed, &mut output.waiting)?;
            if is_written {
                output.flow()?;
            } else {
                output.waiting.clear();
            }
        }
        Ok(frames)
    }

    /// Writes pictures as IVF.
    fn write_ivf(&self, codec: IvfCodec, output: &mut Output) -> anyhow::Result<()> {
        let frames = self.push_frames(codec, output, false)?;
        let (width, height) = self.stream.heads.size.unwrap_or((0, 0));
        let width = u16::try_from(width).unwrap_or(0);
        let height = u16::try_from(height).unwrap_or(0);
        frames.push_header(
            self.stream.row.rate.get(),
            (width, height),
            &mut output.waiting,
        )?;
        let _frames = self.push_frames(codec, output, true)?;
        Ok(())
    }

    /// Writes the parameter sets that the units lack, then the units, which begin with start codes.
    fn write_annex_b(&self, output: &mut Output) -> anyhow::Result<()> {
        for set in self.sets {
            output.waiting.extend_from_slice(&START_CODE)?;
            output.waiting.extend_from_slice(set)?;
            output.flow()?;
        }
        let mut units = self.units()?;
        for _ in 0..self.stream.units.count {
            let Some(unit) = units.next()? else {
                break;
            };
            output.waiting.extend_from_slice(&unit.bytes)?;
            output.flow()?;
        }
        Ok(())
    }

    /// How many packets of Opus there are from the first that is one, with those that fill gaps.
    fn count_packets(&self, mut silence: Silence) -> anyhow::Result<u64> {
        let (mut sound, mut units, mut count) = (Sound::new(Codec::Opus), self.units()?, 0u64);
        for _ in 0..self.stream.units.count {
            let Some(unit) = units.next()? else {
                break;
            };
            let lost = sound.fill(&unit, &mut silence) as u64;
            if count > 0 || opus_duration(&unit.bytes) > 0 {
                count = count.saturating_add(lost).saturating_add(1);
            }
        }
        Ok(count)
    }

    /// Writes packets of Opus.
    fn write_opus(&self, silence: &mut Silence, output: &mut Output) -> anyhow::Result<()> {
        let count = self.count_packets(*silence)?;
        let stream = OpusStream {
            channels: self.stream.row.channels.clamp(1, 2),
            pre_skip: PRE_SKIP,
            serial: self.stream.ssrc.get(),
        };
        push_opus_front(self.alloc, stream, count == 0, &mut output.waiting)?;
        let mut pages = OpusPages::new(self.alloc, stream.serial);
        let (mut sound, mut units, mut left) = (Sound::new(Codec::Opus), self.units()?, count);
        for _ in 0..self.stream.units.count {
            let Some(unit) = units.next()? else {
                break;
            };
            let lost = sound.fill(&unit, silence);
            if left == count && opus_duration(&unit.bytes) == 0 {
                continue;
            }
            for _ in 0..lost {
                left = left.saturating_sub(1);
                pages.push(self.alloc, None, left == 0, &mut output.waiting)?;
                output.flow()?;
            }
            left = left.saturating_sub(1);
            pages.push(
                self.alloc,
                Some(&unit.bytes),
                left == 0,
                &mut output.waiting,
            )?;
            output.flow()?;
        }
        Ok(())
    }

    /// Writes frames of AMR-WB.
    fn write_amr_wb(&self, silence: &mut Silence, output: &mut Output) -> anyhow::Result<()> {
        push_amr_wb_front(&mut output.waiting)?;
        let (mut sound, mut units) = (Sound::new(Codec::AmrWb), self.units()?);
        for _ in 0..self.stream.units.count {
            let Some(unit) = units.next()? else {
                break;
            };
            for _ in 0..sound.fill(&unit, silence) {
                push_amr_wb_frames(None, &mut output.waiting)?;
                output.flow()?;
            }
            push_amr_wb_frames(Some(&unit.bytes), &mut output.waiting)?;
            output.flow()?;
        }
        Ok(())
    }

    /// How many bytes sound has, with those that fill gaps.
    fn count_bytes(&self, mut silence: Silence) -> anyhow::Result<u64> {
        let (mut sound, mut units, mut len) = (Sound::new(Codec::PCMU), self.units()?, 0u64);
        for _ in 0..self.stream.units.count {
            let Some(unit) = units.next()? else {
                break;
            };
            let lost = sound.fill(&unit, &mut silence) as u64;
            len = len
                .saturating_add(lost)
                .saturating_add(unit.bytes.len() as u64);
        }
        Ok(len)
    }

    /// Writes sound with a byte a tick as WAVE.
    fn write_wav(
        &self,
        codec: WavCodec,
        quiet: u8,
        silence: &mut Silence,
        output: &mut Output,
    ) -> anyhow::Result<()> {
        let len = self.count_bytes(*silence)?;
        if len >= MOST_SOUND {
            bail!("it has more bytes than a WAVE file has room for")
        }
        push_wav_front(codec, len as u32, &mut output.waiting)?;
        let (mut sound, mut units) = (Sound::new(Codec::PCMU), self.units()?);
        for _ in 0..self.stream.units.count {
            let Some(unit) = units.next()? else {
                break;
            };
            for _ in 0..sound.fill(&unit, silence) {
                output.waiting.push(quiet)?;
                output.flow()?;
            }
            output.waiting.extend_from_slice(&unit.bytes)?;
            output.flow()?;
        }
        push_wav_padding(len as usize, &mut output.waiting)?;
        Ok(())
    }

    /// Writes the units.
    fn write(&self, silence: &mut Silence, output: &mut Output) -> anyhow::Result<()> {
        match self.stream.row.codec {
            Codec::Vp8 => self.write_ivf(IvfCodec::Vp8, output),
            Codec::Vp9 => self.write_ivf(IvfCodec::Vp9, output),
            Codec::Av1 => self.write_ivf(IvfCodec::Av1, output),
            Codec::Opus => self.write_opus(silence, output),
            Codec::AmrWb => self.write_amr_wb(silence, output),
            Codec::PCMU => self.write_wav(WavCodec::Pcmu, 0xff, silence, output),
            Codec::PCMA => self.write_wav(WavCodec::Pcma, 0xd5, silence, output),
            Codec::G722 => self.write_wav(WavCodec::G722, 0xfa, silence, output),
            _ => self.write_annex_b(output),
        }
    }
}

/// Writes the file of a stream, with the parameter sets that its units lack, under this name.
pub(crate) fn write_file(
    rt: &HostRuntime,
    stream: &Stream,
    sets: &[Vec<u8>],
    name: &str,
    silence: &mut Silence,
    options: FileOptions<'_>,
) -> anyhow::Result<Written> {
    if let Some(fault) = stream.units.fault() {
        bail!("its units couldn't be put away: {fault}")
    }
    options.allow(rt, name)?;
    let source = Source {
        rt,
        alloc: rt.alloc(),
        stream,
        sets,
    };
    let mut output = Output::create(rt, name, options.has_sum)?;
    match source.write(silence, &mut output) {
        Ok(()) => output.end(rt, name, options.is_forced),
        Err(fault) => {
            output.discard(rt);
            Err(fault)
        }
    }
}

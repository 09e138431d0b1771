//! WAVE files of one channel (RIFF, WAVEFORMATEX).

ghost use Rattle.std.specs.Prelude.{◌≡◌, ◌≢◌, ◌*◌, ◌++◌, ◌<◌, ◌≤◌, IfErr, IfOk, OnOk, length, map};
ghost use Rattle.media_files.specs.Wav.{bits_of, data_front, fact_chunk, format_chunk, format_rates, joined, padding};
ghost use Rattle.media_files.specs.Wav.{rate_of, riff_front, samples_of, tag_of, wav_file, wav_front};

use crate::errors::RecordingError;
use media_files_captures::{push_u16, push_u32};
use std::alloc::{AllocError, Global};

/// The coding of the samples.
#[derive(Debug, Clone, Copy, PartialEq, Eq)]
pub enum WavCodec {
    /// G.711 of the μ-law, 8,000 samples a second.
    Pcmu,
    /// G.711 of the A-law, 8,000 samples a second.
    Pcma,
    /// G.722 at 64 kbit/s, 16,000 samples a second.
    G722,
}

impl WavCodec {
    /// The tag of the format.
    fn tag(self) -> u16
        ensures { result ≡ tag_of self }
    {
        match self {
            WavCodec::Pcmu => 7,
            WavCodec::Pcma => 6,
            WavCodec::G722 => 0x028f,
        }
    }

    /// How many samples a second has.
    fn rate(self) -> u32
        ensures { result ≡ rate_of self }
    {
        match self {
            WavCodec::Pcmu | WavCodec::Pcma => 8000,
            WavCodec::G722 => 16000,
        }
    }

    /// How many bits a sample has.
    fn bits(self) -> u16
        ensures { result ≡ bits_of self }
    {
        match self {
            WavCodec::Pcmu | WavCodec::Pcma => 8,
            WavCodec::G722 => 4,
        }
    }

    /// How many samples this many bytes have.
    fn samples(self, len: u32) -> u32
        requires { len < 2147483648 }
        ensures { result ≡ samples_of self len }
    {
        match self {
            WavCodec::Pcmu | WavCodec::Pcma => len,
            WavCodec::G722 => 2 * len,
        }
    }
}

/// Writes the chunk of the format as far as the channels.
#[tactic(auto, unfolding(crate::specs::Wav::format_chunk))]
fn push_format(codec: WavCodec, out: &mut Vec<u8>) -> Result<(), AllocError>
    ensures { OnOk result (out.new.items ≡ out.old.items ++ format_chunk codec) }
{
    out.extend_from_slice(b"fmt ")?;
    push_u32(out, 18)?;
    push_u16(out, codec.tag())?;
    push_u16(out, 1)
}

/// Writes the rest of the chunk of the format.
#[tactic(auto, unfolding(crate::specs::Wav::format_rates))]
fn push_rates(codec: WavCodec, out: &mut Vec<u8>) -> Result<(), AllocError>
    ensures { OnOk result (out.new.items ≡ out.old.items ++ format_rates codec) }
{
    push_u32(out, codec.rate())?;
    push_u32(out, 8000)?;
    push_u16(out, 1)?;
    push_u16(out, codec.bits())?;
    push_u16(out, 0)
}

/// Writes the chunk that says how many samples there are.
#[tactic(auto, unfolding(crate::specs::Wav::fact_chunk))]
fn push_fact(codec: WavCodec, len: u32, out: &mut Vec<u8>) -> Result<(), AllocError>
    requires { len < 2147483648 }
    ensures { OnOk result (out.new.items ≡ out.old.items ++ fact_chunk codec len) }
{
    out.extend_from_slice(b"fact")?;
    push_u32(out, 4)?;
    push_u32(out, codec.samples(len))
}

/// Writes what a file begins with.
#[tactic(auto, unfolding(crate::specs::Wav::riff_front))]
fn push_riff(len: u32, out: &mut Vec<u8>) -> Result<(), AllocError>
    requires { len < 2147483648 }
    ensures { OnOk result (out.new.items ≡ out.old.items ++ riff_front len) }
{
    out.extend_from_slice(b"RIFF")?;
    push_u32(out, 50 + len + len % 2)?;
    out.extend_from_slice(b"WAVE")
}

/// Writes what is right in front of the samples.
#[tactic(auto, unfolding(crate::specs::Wav::data_front))]
fn push_data(len: u32, out: &mut Vec<u8>) -> Result<(), AllocError>
    ensures { OnOk result (out.new.items ≡ out.old.items ++ data_front len) }
{
    out.extend_from_slice(b"data")?;
    push_u32(out, len)
}

/// Writes what is in front of this many bytes of sound.
///
/// # Conditions
/// They are fewer than 2^31.
///
/// # Errors
/// There is no memory for it.
#[tactic(auto, unfolding(crate::specs::Wav::wav_front))]
pub fn push_wav_front(codec: WavCodec, len: u32, out: &mut Vec<u8>) -> Result<(), AllocError>
    requires { len < 2147483648 }
    ensures { OnOk result (out.new.items ≡ out.old.items ++ wav_front codec len) }
{
    push_riff(len, out)?;
    push_format(codec, out)?;
    push_rates(codec, out)?;
    push_fact(codec, len, out)?;
    push_data(len, out)
}

/// Writes what follows this many bytes of sound: after an odd number of them a byte of padding.
///
/// # Errors
/// There is no memory for it.
pub fn push_wav_padding(len: usize, out: &mut Vec<u8>) -> Result<(), AllocError>
    ensures { OnOk result (out.new.items ≡ out.old.items ++ padding len) }
{
    if len % 2 != 0 {
        out.push(0)?;
    }
    Ok(())
}

/// The bytes of packets one after the other.
fn joined(alloc: Global, packets: &[&[u8]]) -> Result<Vec<u8>, AllocError>
    ensures { IfOk result (λ v. v.items ≡ joined (map (λ p. p.now) packets.now)) }
{
    let mut out = Vec::new(alloc);
    for packet in packets {
        out.extend_from_slice(packet)?;
    }
    Ok(out)
}

/// The WAVE file of these packets of sound, one after the other.
///
/// # Errors
/// The packets have 2^31 bytes or more, or there is no memory for the file.
#[tactic(auto, unfolding(crate::specs::Wav::wav_file))]
pub fn wav_file(
    alloc: Global,
    codec: WavCodec,
    packets: &[&[u8]],
) -> Result<Vec<u8>, RecordingError>
    ensures value { IfOk result (λ v. v.items ≡ wav_file codec (joined (map (λ p. p.now) packets.now))) }
    ensures fits { OnOk result (length (joined (map (λ p. p.now) packets.now)) < 2147483648) }
    ensures refused { IfErr result (λ e. e ≢ RecordingError.Memory → (e ≡ RecordingError.TooLong)
        × (2147483648 ≤ length (joined (map (λ p. p.now) packets.now)))) }
{
    let data = joined(alloc, packets)?;
    if data.len() >= 2147483648 {
        return Err(RecordingError::TooLong);
    }
    let mut out = Vec::new(alloc);
    push_wav_front(codec, data.len() as u32, &mut out)?;
    out.extend_from_slice(&data)?;
    push_wav_padding(data.len(), &mut out)?;
    Ok(out)
}

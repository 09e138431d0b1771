//! Payload types, their codecs and their feedback.

ghost use Rattle.std.specs.Prelude.{◌≢◌, IfErr};
ghost use Rattle.sdp_formats_grammar.specs.Refusals.{Gives};
ghost use Rattle.sdp_formats_reader.specs.Maps.{payload_type, clock_rate, rtcp_fb, rtpmap};

use media_types::Codec;
use rtp_wire::{Frequency, Pt};
use sdp_formats_data::{MediaAttribute, RtpMap};
use sdp_formats_grammar::{
    Refusal, halves, maybe_number_8, number_8, number_32, some, split, text_of,
};
use std::alloc::Global;

/// A payload type, 0 to 127 (RFC 3550 5.1).
///
/// # Errors
///
/// `Unfit` if the text writes no such number.
pub fn payload_type(text: &str) -> Result<Pt, Refusal>
    ensures gives { Gives result (payload_type.reads text.now) }
    ensures never_memory { IfErr result (λ e. e ≢ Refusal.Memory) }
{
    let number = number_8(text)?;
    if number <= 127 {
        Ok(Pt::from(number))
    } else {
        Err(Refusal::Unfit)
    }
}

fn clock_rate(text: &str) -> Result<Frequency, Refusal>
    ensures gives { Gives result (clock_rate.reads text.now) }
    ensures never_memory { IfErr result (λ e. e ≢ Refusal.Memory) }
{
    let ticks = number_32(text)?;
    match Frequency::new(ticks) {
        Some(rate) => Ok(rate),
        None => Err(Refusal::Unfit),
    }
}

/// The value of an `a=rtcp-fb` line (RFC 4585 4.2).
///
/// # Errors
///
/// `Unfit` if it is no such value, `Memory` if memory runs out.
pub fn rtcp_fb(alloc: Global, value: &str) -> Result<MediaAttribute, Refusal>
    ensures { Gives result (rtcp_fb.reads value.now) }
{
    let (pt, feedback) = split(value, ' ')?;
    Ok(MediaAttribute::RtcpFb {
        pt: payload_type(pt)?,
        value: text_of(alloc, feedback)?,
    })
}

/// The value of an `a=rtpmap` line (RFC 8866 6.6).
///
/// # Errors
///
/// `Unfit` if it is no such value.
pub fn rtpmap(value: &str) -> Result<MediaAttribute, Refusal>
    ensures gives { Gives result (rtpmap.reads value.now) }
    ensures never_memory { IfErr result (λ e. e ≢ Refusal.Memory) }
{
    let (pt, map) = split(value, ' ')?;
    let pt = payload_type(pt)?;
    let (codec, rates) = split(map, '/')?;
    let codec = Codec::from(some(codec)?);
    let (clock, channels) = halves(rates, '/');
    let clock_rate = clock_rate(clock)?;
    let channels = maybe_number_8(channels)?;
    Ok(MediaAttribute::RtpMap {
        pt,
        value: RtpMap {
            codec,
            clock_rate,
            channels,
        },
    })
}

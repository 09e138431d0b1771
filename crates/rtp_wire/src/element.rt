//! The bytes of each extension's value.

ghost use Rattle.std.specs.Prelude.{◌≡◌, ◌≤◌, ◌<◌, length};
ghost use Rattle.rtp_wire.specs.Carried.{level_bytes, send_bytes};
ghost use Rattle.rtp_wire.specs.Carried.{delay_bytes, capture_bytes, value_bytes};

use crate::extension::Extension;
use crate::values::{AbsCaptureTime, ExtensionValues};
use std::marker::Model;

/// The bytes of a value, at most 16.
#[derive(Drop)]
pub struct ElementBytes {
    bytes: [u8; 16],
    len: usize,
}

impl Model for ElementBytes {
    ghost use Rattle.std.specs.Prelude.{List, ℕ, ◌≤◌, take};

    ghost Value = { List ℕ };

    ghost view = { λ e. take e.len e.bytes };

    ghost invariant = { λ e. e.len ≤ 16 };
}

impl ElementBytes {
    fn new(text: &[u8]) -> Self
        requires { length text.now ≤ 16 }
        ensures { result ≡ text.now }
    {
        let mut bytes = [0; 16];
        let len = text.len();
        bytes[..len].copy_from_slice(text);
        ElementBytes { bytes, len }
    }

    /// The bytes.
    pub fn as_slice(&self) -> &[u8]
        ensures value { result.now ≡ self.now }
        ensures short { length result.now ≤ 16 }
    {
        &self.bytes[..self.len]
    }
}

/// The audio level with voice (RFC 6464 3).
pub(crate) fn level_bytes(level: Option<i8>, voice: Option<bool>) -> Option<ElementBytes>
    ensures { result ≡ level_bytes level voice }
{
    let level = level?;
    let voice = voice?;
    if level > 0 || level < -127 {
        return None;
    }
    let number = level.unsigned_abs();
    let first = if voice { 128 + number } else { number };
    Some(ElementBytes::new(&[first]))
}

/// The send time, in 24 bits.
fn send_bytes(time: Option<u64>) -> Option<ElementBytes>
    ensures { result ≡ send_bytes time }
{
    let number = time? % 64_000_000 * 262_144 / 1_000_000;
    let bytes = [
        (number / 65536) as u8,
        (number / 256 % 256) as u8,
        (number % 256) as u8,
    ];
    Some(ElementBytes::new(&bytes))
}

/// Two 12-bit delays.
pub(crate) fn delay_bytes(least: Option<u16>, most: Option<u16>) -> Option<ElementBytes>
    ensures { result ≡ delay_bytes least most }
{
    let least = least?;
    let most = most?;
    if least >= 4096 || most >= 4096 {
        return None;
    }
    let bytes = [
        (least / 16) as u8,
        (least % 16 * 16 + most / 256) as u8,
        (most % 256) as u8,
    ];
    Some(ElementBytes::new(&bytes))
}

/// The capture time, with the clock's offset if it is there.
fn capture_bytes(time: Option<AbsCaptureTime>) -> Option<ElementBytes>
    ensures { result ≡ capture_bytes time }
{
    let time = time?;
    let mut bytes = [0; 16];
    bytes[..8].copy_from_slice(&time.capture_time.to_be_bytes());
    let Some(offset) = time.clock_offset else {
        return Some(ElementBytes::new(&bytes[..8]));
    };
    bytes[8..].copy_from_slice(&offset.cast_unsigned().to_be_bytes());
    Some(ElementBytes::new(&bytes))
}

/// The bytes that an extension has for these values, if any.
pub fn value_bytes(ext: &Extension, values: &ExtensionValues) -> Option<ElementBytes>
    ensures { result ≡ value_bytes ext.now values.now }
{
    match ext {
        Extension::AbsoluteSendTime => send_bytes(values.abs_send_time),
        Extension::AbsoluteCaptureTime => capture_bytes(values.abs_capture_time),
        Extension::AudioLevel => level_bytes(values.audio_level, values.voice_activity),
        Extension::VideoOrientation => {
            let turn = values.video_orientation?;
            Some(ElementBytes::new(&[turn.get()]))
        }
        Extension::TransportSequenceNumber => {
            let number = values.transport_cc?;
            Some(ElementBytes::new(&number.to_be_bytes()))
        }
        Extension::PlayoutDelay => delay_bytes(values.play_delay_min, values.play_delay_max),
        Extension::VideoContentType => Some(ElementBytes::new(&[values.video_content_type?])),
        Extension::RtpStreamId => Some(ElementBytes::new(values.rid?.as_bytes())),
        Extension::RepairedRtpStreamId => Some(ElementBytes::new(values.rid_repair?.as_bytes())),
        Extension::RtpMid => Some(ElementBytes::new(values.mid?.as_bytes())),
        Extension::UnknownUri(_) => None,
    }
}

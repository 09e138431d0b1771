//! Values read from the bytes of elements.

ghost use Rattle.std.specs.Prelude.{◌≡◌, ◌≤◌, ◌<◌, ◌+◌, MatchOption, true, false, length, drop};
ghost use Rattle.std.specs.Int.{w64, from_be_bytes};
ghost use Rattle.rtp_wire.specs.Carried.{is_text, with_value};

use crate::extension::Extension;
use crate::names::{Mid, Rid};
use crate::values::{AbsCaptureTime, ExtensionValues, VideoOrientation};

/// The bytes as text, if they are UTF-8.
fn text_of(bytes: &[u8]) -> Option<&str>
    ensures { MatchOption result (is_text bytes.now ≡ false)
        (λ text. (is_text bytes.now ≡ true) × (text.now ≡ bytes.now)) }
{
    match std::str::from_utf8(bytes) {
        Ok(text) => Some(text),
        Err(_) => None,
    }
}

/// The number of eight bytes at a place.
fn long_at(bytes: &[u8], at: usize) -> u64
    requires { at + 8 ≤ length bytes.now }
    ensures { result ≡ from_be_bytes w64 (drop at bytes.now) }
{
    u64::from_be_bytes([
        bytes[at],
        bytes[at + 1],
        bytes[at + 2],
        bytes[at + 3],
        bytes[at + 4],
        bytes[at + 5],
        bytes[at + 6],
        bytes[at + 7],
    ])
}

fn set_send_time(values: &mut ExtensionValues, bytes: &[u8])
    ensures { values.new ≡ with_value Extension.AbsoluteSendTime bytes.now values.old }
{
    if bytes.len() == 3 {
        let number = bytes[0] as u64 * 65536 + bytes[1] as u64 * 256 + bytes[2] as u64;
        values.abs_send_time = Some(number * 1_000_000 / 262_144);
    }
}

fn set_capture_time(values: &mut ExtensionValues, bytes: &[u8])
    ensures { values.new ≡ with_value Extension.AbsoluteCaptureTime bytes.now values.old }
{
    if bytes.len() == 8 {
        values.abs_capture_time = Some(AbsCaptureTime {
            capture_time: long_at(bytes, 0),
            clock_offset: None,
        });
    } else if bytes.len() == 16 {
        values.abs_capture_time = Some(AbsCaptureTime {
            capture_time: long_at(bytes, 0),
            clock_offset: Some(long_at(bytes, 8).cast_signed()),
        });
    }
}

fn set_audio_level(values: &mut ExtensionValues, bytes: &[u8])
    ensures { values.new ≡ with_value Extension.AudioLevel bytes.now values.old }
{
    if bytes.len() == 1 {
        values.audio_level = Some(-((bytes[0] % 128) as i8));
        values.voice_activity = Some(bytes[0] / 128 == 1);
    }
}

fn set_transport(values: &mut ExtensionValues, bytes: &[u8])
    ensures { values.new ≡ with_value Extension.TransportSequenceNumber bytes.now values.old }
{
    if bytes.len() == 2 {
        values.transport_cc = Some(u16::from_be_bytes([bytes[0], bytes[1]]));
    }
}

fn set_delay(values: &mut ExtensionValues, bytes: &[u8])
    ensures { values.new ≡ with_value Extension.PlayoutDelay bytes.now values.old }
{
    if bytes.len() == 3 {
        values.play_delay_min = Some(bytes[0] as u16 * 16 + bytes[1] as u16 / 16);
        values.play_delay_max = Some(bytes[1] as u16 % 16 * 256 + bytes[2] as u16);
    }
}

fn set_orientation(values: &mut ExtensionValues, bytes: &[u8])
    ensures { values.new ≡ with_value Extension.VideoOrientation bytes.now values.old }
{
    if bytes.len() == 1 {
        values.video_orientation = Some(VideoOrientation::from(bytes[0]));
    }
}

fn set_content_type(values: &mut ExtensionValues, bytes: &[u8])
    ensures { values.new ≡ with_value Extension.VideoContentType bytes.now values.old }
{
    if bytes.len() == 1 {
        values.video_content_type = Some(bytes[0]);
    }
}

fn set_rid(values: &mut ExtensionValues, bytes: &[u8])
    ensures { values.new ≡ with_value Extension.RtpStreamId bytes.now values.old }
{
    if let Some(text) = text_of(bytes) {
        values.rid = Some(Rid::from(text));
    }
}

fn set_rid_repair(values: &mut ExtensionValues, bytes: &[u8])
    ensures { values.new ≡ with_value Extension.RepairedRtpStreamId bytes.now values.old }
{
    if let Some(text) = text_of(bytes) {
        values.rid_repair = Some(Rid::from(text));
    }
}

fn set_mid(values: &mut ExtensionValues, bytes: &[u8])
    ensures { values.new ≡ with_value Extension.RtpMid bytes.now values.old }
{
    if let Some(text) = text_of(bytes) {
        values.mid = Some(Mid::from(text));
    }
}

/// Puts what the bytes of an extension say into the values; bytes of a wrong length say nothing.
pub fn set_value(values: &mut ExtensionValues, ext: &Extension, bytes: &[u8])
    ensures { values.new ≡ with_value ext.now bytes.now values.old }
{
    match ext {
        Extension::AbsoluteSendTime => set_send_time(values, bytes),
        Extension::AbsoluteCaptureTime => set_capture_time(values, bytes),
        Extension::AudioLevel => set_audio_level(values, bytes),
        Extension::VideoOrientation => set_orientation(values, bytes),
        Extension::TransportSequenceNumber => set_transport(values, bytes),
        Extension::PlayoutDelay => set_delay(values, bytes),
        Extension::VideoContentType => set_content_type(values, bytes),
        Extension::RtpStreamId => set_rid(values, bytes),
        Extension::RepairedRtpStreamId => set_rid_repair(values, bytes),
        Extension::RtpMid => set_mid(values, bytes),
        Extension::UnknownUri(_) => {}
    }
}

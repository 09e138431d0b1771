//! How many bytes each extension's value has.

ghost use Rattle.std.specs.Prelude.{◌≡◌, ◌≤◌, IfSome, length};
ghost use Rattle.std.specs.Option.{option_map};
ghost use Rattle.rtp_wire.specs.Carried.{value_bytes};

use crate::element::{delay_bytes, level_bytes};
use crate::extension::Extension;
use crate::values::ExtensionValues;

/// How many bytes an extension carries of the values, at most 16, if any.
pub fn value_len(ext: &Extension, values: &ExtensionValues) -> Option<usize>
    ensures value { result ≡ option_map length (value_bytes ext.now values.now) }
    ensures short { IfSome result (λ len. len ≤ 16) }
{
    match ext {
        Extension::AbsoluteSendTime => values.abs_send_time.is_some().then_some(3),
        Extension::AbsoluteCaptureTime => {
            let time = values.abs_capture_time?;
            Some(if time.clock_offset.is_some() { 16 } else { 8 })
        }
        Extension::AudioLevel => {
            let level = level_bytes(values.audio_level, values.voice_activity)?;
            Some(level.as_slice().len())
        }
        Extension::VideoOrientation => values.video_orientation.is_some().then_some(1),
        Extension::TransportSequenceNumber => values.transport_cc.is_some().then_some(2),
        Extension::PlayoutDelay => {
            let delay = delay_bytes(values.play_delay_min, values.play_delay_max)?;
            Some(delay.as_slice().len())
        }
        Extension::VideoContentType => values.video_content_type.is_some().then_some(1),
        Extension::RtpStreamId => Some(values.rid?.as_bytes().len()),
        Extension::RepairedRtpStreamId => Some(values.rid_repair?.as_bytes().len()),
        Extension::RtpMid => Some(values.mid?.as_bytes().len()),
        Extension::UnknownUri(_) => None,
    }
}

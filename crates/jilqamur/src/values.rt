//! Values of header extensions as C programs give and take them.

ghost use Rattle.std.specs.Prelude.{◌≡◌};
ghost use Rattle.jilqamur.specs.Values.{if_given, values_given, values_told};

use rtp_wire::{AbsCaptureTime, ExtensionValues, Mid, VideoOrientation};

/// Header extension values (RFC 8285), except mids and stream ids. A value that isn't given is
/// ignored, and is 0 or false when read.
#[repr(C)]
#[derive(Clone, Copy, Drop)]
pub struct WireValues {
    /// Whether the audio level is given.
    pub has_audio_level: bool,
    /// The audio level in dBov, -127 to 0; it is only carried together with the voice activity (RFC
    /// 6464).
    pub audio_level: i8,
    /// Whether the voice activity is given.
    pub has_voice_activity: bool,
    /// Whether the audio has voice; it is carried with the audio level alone (RFC 6464).
    pub voice_activity: bool,
    /// Whether the time of sending is given.
    pub has_abs_send_time: bool,
    /// When the packet was sent, in microseconds. It is carried modulo 64 seconds, in units of
    /// 2^-18 seconds.
    pub abs_send_time: u64,
    /// Whether the transport-wide sequence number is given.
    pub has_transport_cc: bool,
    /// The transport-wide sequence number.
    pub transport_cc: u16,
    /// Whether the orientation is given.
    pub has_video_orientation: bool,
    /// The video orientation; only the low two bits count (3GPP TS 26.114 7.4.5).
    pub video_orientation: u8,
    /// Whether the least delay is given.
    pub has_play_delay_min: bool,
    /// The minimum playout delay in units of 10 ms, 0 to 4095; it is only carried together with the
    /// maximum.
    pub play_delay_min: u16,
    /// Whether the greatest delay is given.
    pub has_play_delay_max: bool,
    /// The maximum playout delay in units of 10 ms, 0 to 4095; it is only carried together with the
    /// minimum.
    pub play_delay_max: u16,
    /// Whether the content type is given.
    pub has_video_content_type: bool,
    /// What the video shows.
    pub video_content_type: u8,
    /// Whether the capture time is given.
    pub has_capture_time: bool,
    /// When the frame was captured: NTP time in seconds, 32.32 fixed point.
    pub capture_time: u64,
    /// Whether the clock offset is given; it is carried with the capture time alone.
    pub has_clock_offset: bool,
    /// How far the sender's clock is ahead of the capturer's, in seconds, with 32 fractional bits.
    pub clock_offset: i64,
}

/// A value, if it is given.
pub fn if_given<T>(has: bool, value: T) -> Option<T>
where
    T: Copy + Drop,
    ensures { result ≡ if_given has value }
{
    if has { Some(value) } else { None }
}

const NO_CAPTURE: AbsCaptureTime = AbsCaptureTime {
    capture_time: 0,
    clock_offset: None,
};

impl WireValues {
    /// The values that are given, with this name of a media section, and no names of streams.
    pub fn values(&self, mid: Option<Mid>) -> ExtensionValues
        ensures { result ≡ values_given self.now mid }
    {
        let capture = AbsCaptureTime {
            capture_time: self.capture_time,
            clock_offset: if_given(self.has_clock_offset, self.clock_offset),
        };
        let orientation = VideoOrientation::from(self.video_orientation);
        ExtensionValues {
            audio_level: if_given(self.has_audio_level, self.audio_level),
            voice_activity: if_given(self.has_voice_activity, self.voice_activity),
            abs_send_time: if_given(self.has_abs_send_time, self.abs_send_time),
            transport_cc: if_given(self.has_transport_cc, self.transport_cc),
            mid,
            rid: None,
            rid_repair: None,
            video_orientation: if_given(self.has_video_orientation, orientation),
            play_delay_min: if_given(self.has_play_delay_min, self.play_delay_min),
            play_delay_max: if_given(self.has_play_delay_max, self.play_delay_max),
            video_content_type: if_given(self.has_video_content_type, self.video_content_type),
            abs_capture_time: if_given(self.has_capture_time, capture),
        }
    }

    /// What is told of values: which are there, and what they are.
    pub fn of(values: &ExtensionValues) -> WireValues
        ensures { result ≡ values_told values.now }
    {
        let capture = values.abs_capture_time.unwrap_or(NO_CAPTURE);
        let orientation = values.video_orientation.map(|turn| turn.get());
        WireValues {
            has_audio_level: values.audio_level.is_some(),
            audio_level: values.audio_level.unwrap_or(0),
            has_voice_activity: values.voice_activity.is_some(),
            voice_activity: values.voice_activity.unwrap_or(false),
            has_abs_send_time: values.abs_send_time.is_some(),
            abs_send_time: values.abs_send_time.unwrap_or(0),
            has_transport_cc: values.transport_cc.is_some(),
            transport_cc: values.transport_cc.unwrap_or(0),
            has_video_orientation: orientation.is_some(),
            video_orientation: orientation.unwrap_or(0),
            has_play_delay_min: values.play_delay_min.is_some(),
            play_delay_min: values.play_delay_min.unwrap_or(0),
            has_play_delay_max: values.play_delay_max.is_some(),
            play_delay_max: values.play_delay_max.unwrap_or(0),
            has_video_content_type: values.video_content_type.is_some(),
            video_content_type: values.video_content_type.unwrap_or(0),
            has_capture_time: values.abs_capture_time.is_some(),
            capture_time: capture.capture_time,
            has_clock_offset: capture.clock_offset.is_some(),
            clock_offset: capture.clock_offset.unwrap_or(0),
        }
    }
}

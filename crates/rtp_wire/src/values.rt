//! The values of header extensions.

ghost use Rattle.std.specs.Prelude.{◌≡◌, ◌%◌, ◌^◌, ◌<◌, ◌≤◌, IfSome, FitsSigned, length, true};
ghost use Rattle.rtp_wire.specs.Values.{absent};
ghost use Rattle.rtp_wire.specs.Carried.{AreValues, IsCapture};
ghost use Rattle.rtp_wire.specs.Names.{HasFullNames};
ghost use Rattle.rtp_wire.specs.Name.{IsName};
ghost use Rattle.std.specs.Int.{w64};

use crate::names::{Mid, Rid};
use std::marker::Model;

/// How a picture is turned, 0 to 3 (3GPP TS 26.114 7.4.5).
#[derive(Clone, Copy, Debug, PartialEq, Eq, Drop)]
pub struct VideoOrientation(u8);

impl Model for VideoOrientation {
    ghost use Rattle.std.specs.Prelude.{ℕ, ◌<◌};

    ghost Value = { ℕ };

    ghost view = { λ v. v.0 };

    ghost invariant = { λ v. v.0 < 4 };

    ghost inverse = { λ n. record { 0 = n } };
}

impl VideoOrientation {
    /// The number, 0 to 3.
    pub fn get(&self) -> u8
        ensures value { result ≡ self.now }
        ensures small { result < 4 }
    {
        self.0
    }
}

/// The low two bits.
impl From<u8> for VideoOrientation {
    ghost use Rattle.std.specs.Prelude.{◌≡◌, ◌%◌};

    ghost from_gives = { λ n v. v ≡ n % 4 };

    fn from(number: u8) -> VideoOrientation {
        VideoOrientation(number % 4)
    }
}

/// When a frame was captured, by the clock of the one that captured it.
#[derive(Clone, Copy, Debug, PartialEq, Eq, Drop)]
pub struct AbsCaptureTime {
    /// NTP time, in seconds with 32 bits before and 32 after the point.
    pub capture_time: u64,
    /// How far the sender's clock is ahead of the capturer's, in seconds, with 32 fractional bits.
    pub clock_offset: Option<i64>,
}

/// The values that the extensions of one header carry.
#[derive(Clone, Copy, Debug, PartialEq, Eq, Default, Drop)]
pub struct ExtensionValues {
    /// The audio level in dBov, -127 to 0; it is carried with `voice_activity` alone (RFC 6464).
    pub audio_level: Option<i8>,
    /// Whether the audio has voice; it is carried with `audio_level` alone (RFC 6464).
    pub voice_activity: Option<bool>,
    /// When the packet was sent, in microseconds. It is carried modulo 64 seconds, in units of
    /// 2^-18 seconds.
    pub abs_send_time: Option<u64>,
    /// The transport-wide sequence number.
    pub transport_cc: Option<u16>,
    /// The media section (RFC 9143 15.1).
    pub mid: Option<Mid>,
    /// The stream of the media section (RFC 8852 4.1).
    pub rid: Option<Rid>,
    /// The stream that is repaired (RFC 8852 4.2).
    pub rid_repair: Option<Rid>,
    /// How the picture is turned.
    pub video_orientation: Option<VideoOrientation>,
    /// The least delay until play, in 10 ms, 0 to 4095; it is carried with `play_delay_max` alone.
    pub play_delay_min: Option<u16>,
    /// The greatest delay until play, in 10 ms, 0 to 4095; it is carried with `play_delay_min` alone.
    pub play_delay_max: Option<u16>,
    /// What the video shows.
    pub video_content_type: Option<u8>,
    /// When the frame was captured.
    pub abs_capture_time: Option<AbsCaptureTime>,
}

impl ExtensionValues {
    /// No value.
    pub fn absent() -> Self
        ensures { result ≡ absent }
    {
        ExtensionValues {
            audio_level: None,
            voice_activity: None,
            abs_send_time: None,
            transport_cc: None,
            mid: None,
            rid: None,
            rid_repair: None,
            video_orientation: None,
            play_delay_min: None,
            play_delay_max: None,
            video_content_type: None,
            abs_capture_time: None,
        }
    }

    /// Whether each name that is there has a byte.
    pub fn has_full_names(&self) -> bool
        ensures full { result ≡ true → HasFullNames self.now }
        ensures always { HasFullNames self.now → result ≡ true }
    {
        !matches!(self.mid, Some(name) if name.as_bytes().is_empty())
            && !matches!(self.rid, Some(name) if name.as_bytes().is_empty())
            && !matches!(self.rid_repair, Some(name) if name.as_bytes().is_empty())
    }

    /// Reads each value, so that callers know the range of its type.
    pub fn in_range(&self)
        ensures { AreValues self.now }
    {
        number_in_range(self.transport_cc);
        byte_in_range(self.video_content_type);
        orientation_in_range(self.video_orientation);
        mid_in_range(self.mid);
        rid_in_range(self.rid);
        rid_in_range(self.rid_repair);
        capture_in_range(self.abs_capture_time);
    }
}

fn number_in_range(number: Option<u16>)
    ensures { IfSome number (λ n. n < 2 ^ 16) }
{
    if let Some(_number) = number {}
}

fn byte_in_range(number: Option<u8>)
    ensures { IfSome number (λ n. n < 256) }
{
    if let Some(_number) = number {}
}

fn orientation_in_range(orientation: Option<VideoOrientation>)
    ensures { IfSome orientation (λ n. n < 4) }
{
    if let Some(orientation) = orientation {
        let _number = orientation.get();
    }
}

fn mid_in_range(mid: Option<Mid>)
    ensures { IfSome mid (λ text. IsName 16 text) }
{
    if let Some(mid) = mid {
        let _text = mid.as_bytes();
    }
}

fn rid_in_range(rid: Option<Rid>)
    ensures { IfSome rid (λ text. IsName 8 text) }
{
    if let Some(rid) = rid {
        let _text = rid.as_bytes();
    }
}

fn capture_in_range(time: Option<AbsCaptureTime>)
    ensures { IfSome time IsCapture }
{
    if let Some(time) = time {
        offset_in_range(time.clock_offset);
        let _time = time.capture_time;
    }
}

fn offset_in_range(offset: Option<i64>)
    ensures { IfSome offset (λ z. FitsSigned w64 z) }
{
    if let Some(_offset) = offset {}
}

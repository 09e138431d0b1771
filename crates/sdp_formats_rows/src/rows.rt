//! The default rows of each codec.

ghost use Rattle.std.specs.Prelude.{◌≡◌, None};
ghost use Rattle.media_types.specs.declared.codec.Codec.TheVariants.{H264};
ghost use Rattle.sdp_formats_rows.specs.DefaultRows.{with_red_if, opus_row, pcmu_row, pcma_row, g722_row};
ghost use Rattle.sdp_formats_rows.specs.DefaultRows.{comfort_noise_row, amr_wb_row, video_row, vp8_row};
ghost use Rattle.sdp_formats_rows.specs.DefaultRows.{vp9_row, vp9_rows, av1_row, h264_format, h264_rows};
ghost use Rattle.sdp_formats_rows.specs.DefaultRows.{h265_row, h266_row, h265_default, h266_default};
ghost use Rattle.sdp_formats_rows.specs.Codecs.{spec_of};
ghost use Rattle.sdp_formats_rows.specs.Rows.{new_row};
ghost use Rattle.sdp_formats_rows.specs.Formats.{no_format};

use crate::format::FormatParams;
use crate::row::PayloadParams;
use crate::spec::CodecSpec;
use media_types::{Codec, H265ProfileTierLevel, H266ProfileTierLevel};
use rtp_wire::{Frequency, Pt};

fn no_format() -> FormatParams
    ensures { result ≡ no_format }
{
    FormatParams::default()
}

fn audio(number: u8, codec: Codec, clock_rate: Frequency) -> PayloadParams
    ensures { result ≡ new_row number None (spec_of codec clock_rate no_format) }
{
    let spec = CodecSpec {
        codec,
        clock_rate,
        channels: None,
        format: no_format(),
    };
    PayloadParams::new(Pt::new_with_value(number), None, spec)
}

fn with_red_if(row: PayloadParams, use_red: bool, red: u8) -> PayloadParams
    requires { row.red ≡ None }
    ensures { result ≡ with_red_if use_red red row }
{
    if use_red {
        return row.with_red(Pt::new_with_value(red));
    }
    row
}

/// Opus at 48,000 Hz and two channels under type 111, with frames of 10 milliseconds at least and forward error
/// correction (RFC 7587 7); with `use_red`, its redundant form under type 63 (RFC 2198).
pub fn opus(use_red: bool) -> PayloadParams
    ensures { result ≡ opus_row use_red }
{
    let spec = CodecSpec {
        codec: Codec::Opus,
        clock_rate: Frequency::FORTY_EIGHT_KHZ,
        channels: Some(2),
        format: FormatParams {
            min_p_time: Some(10),
            use_inband_fec: Some(true),
            ..no_format()
        },
    };
    let row = PayloadParams::new(Pt::new_with_value(111), None, spec);
    with_red_if(row, use_red, 63)
}

/// G.711 in mu-law at 8,000 Hz under its static type 0 (RFC 3551 6); with `use_red`, its redundant form under type 61
/// (RFC 2198).
pub fn pcmu(use_red: bool) -> PayloadParams
    ensures { result ≡ pcmu_row use_red }
{
    with_red_if(audio(0, Codec::PCMU, Frequency::EIGHT_KHZ), use_red, 61)
}

/// G.711 in A-law at 8,000 Hz under its static type 8 (RFC 3551 6); with `use_red`, its redundant form under type 60
/// (RFC 2198).
pub fn pcma(use_red: bool) -> PayloadParams
    ensures { result ≡ pcma_row use_red }
{
    with_red_if(audio(8, Codec::PCMA, Frequency::EIGHT_KHZ), use_red, 60)
}

/// G.722 at 16,000 Hz, the rate at which it samples, under its static type 9 (RFC 3551 4.5.2 and 6); with `use_red`,
/// its redundant form under type 62 (RFC 2198).
pub fn g722(use_red: bool) -> PayloadParams
    ensures { result ≡ g722_row use_red }
{
    with_red_if(audio(9, Codec::G722, Frequency::SIXTEEN_KHZ), use_red, 62)
}

/// Comfort noise at 8,000 Hz under its static type 13 (RFC 3389 4).
pub fn comfort_noise() -> PayloadParams
    ensures { result ≡ comfort_noise_row }
{
    audio(13, Codec::CN, Frequency::EIGHT_KHZ)
}

/// AMR-WB at 16,000 Hz and one channel, octet-aligned, under type 122 (RFC 4867 8.2).
pub fn amr_wb() -> PayloadParams
    ensures { result ≡ amr_wb_row }
{
    let spec = CodecSpec {
        codec: Codec::AmrWb,
        clock_rate: Frequency::SIXTEEN_KHZ,
        channels: Some(1),
        format: FormatParams {
            octet_align: Some(true),
            ..no_format()
        },
    };
    PayloadParams::new(Pt::new_with_value(122), None, spec)
}

fn spec_row(pt: Pt, resend: Option<Pt>, codec: Codec, format: FormatParams) -> PayloadParams
    ensures { result ≡ new_row pt resend (spec_of codec 90000 format) }
{
    let spec = CodecSpec {
        codec,
        clock_rate: Frequency::NINETY_KHZ,
        channels: None,
        format,
    };
    PayloadParams::new(pt, resend, spec)
}

fn video(number: u8, resend: u8, codec: Codec, format: FormatParams) -> PayloadParams
    ensures { result ≡ video_row codec number resend format }
{
    let resend = Some(Pt::new_with_value(resend));
    spec_row(Pt::new_with_value(number), resend, codec, format)
}

/// VP8 under type 96, its retransmissions under 97 (RFC 7741 6.1, RFC 4588 8.6).
pub fn vp8() -> PayloadParams
    ensures { result ≡ vp8_row }
{
    video(96, 97, Codec::Vp8, no_format())
}

fn vp9_profile(number: u8, resend: u8, profile: u32) -> PayloadParams
    ensures { result ≡ vp9_row number resend profile }
{
    let format = FormatParams {
        profile_id: Some(profile),
        ..no_format()
    };
    video(number, resend, Codec::Vp9, format)
}

/// VP9 of profile 0 under type 98 and of profile 2 under 100, their retransmissions under 99 and 101 (RFC 9628 7.1).
pub fn vp9() -> [PayloadParams; 2]
    ensures { result ≡ vp9_rows }
{
    [vp9_profile(98, 99, 0), vp9_profile(100, 101, 2)]
}

/// AV1 under type 45, its retransmissions under 46 (the AV1 payload format 7.1).
pub fn av1() -> PayloadParams
    ensures { result ≡ av1_row }
{
    video(45, 46, Codec::Av1, no_format())
}

fn h264_mode(number: u8, resend: u8, mode: bool, profile_level_id: u32) -> PayloadParams
    ensures { result ≡ video_row H264 number resend (h264_format mode profile_level_id) }
{
    let resend = Some(Pt::new_with_value(resend));
    h264_row(Pt::new_with_value(number), resend, mode, profile_level_id)
}

/// H.264 under this type, its retransmissions under `resend`, with level asymmetry, in packetization mode 1 if
/// `mode` holds and else 0; `profile_level_id` has the three bytes of profile, constraints and level (RFC 6184 8.1).
pub fn h264_row(pt: Pt, resend: Option<Pt>, mode: bool, profile_level_id: u32) -> PayloadParams
    ensures { result ≡ new_row pt resend (spec_of H264 90000 (h264_format mode profile_level_id)) }
{
    let format = FormatParams {
        level_asymmetry_allowed: Some(true),
        packetization_mode: Some(u8::from(mode)),
        profile_level_id: Some(profile_level_id),
        ..no_format()
    };
    spec_row(pt, resend, Codec::H264, format)
}

/// H.265 under this type, its retransmissions under `resend`. `numbers` are the profile, the tier and the level
/// (RFC 7798 7.1); if one is none that is known, the row is of what holds if nothing is said.
pub fn h265_row(pt: Pt, resend: Option<Pt>, numbers: (u8, u8, u8)) -> PayloadParams
    ensures { result ≡ h265_row pt resend numbers }
{
    let format = FormatParams {
        h265_profile_tier_level: Some(H265ProfileTierLevel::from(numbers)),
        ..no_format()
    };
    spec_row(pt, resend, Codec::H265, format)
}

/// H.266 under this type, its retransmissions under `resend`. `numbers` are the profile, the tier and the level
/// (RFC 9328 7.2); if one is none that is known, the row is of what holds if nothing is said.
pub fn h266_row(pt: Pt, resend: Option<Pt>, numbers: (u8, u8, u8)) -> PayloadParams
    ensures { result ≡ h266_row pt resend numbers }
{
    let format = FormatParams {
        h266_profile_tier_level: Some(H266ProfileTierLevel::from(numbers)),
        ..no_format()
    };
    spec_row(pt, resend, Codec::H266, format)
}

/// H.265 of the Main profile, main tier and level 6 under type 102, its retransmissions under 103 (RFC 7798 7.1).
pub fn h265() -> PayloadParams
    ensures { result ≡ h265_default }
{
    let resend = Some(Pt::new_with_value(103));
    h265_row(Pt::new_with_value(102), resend, (1, 0, 180))
}

/// H.266 of the Main 10 profile, main tier and level 6 under type 104, its retransmissions under 105 (RFC 9328 7.2).
pub fn h266() -> PayloadParams
    ensures { result ≡ h266_default }
{
    let resend = Some(Pt::new_with_value(105));
    h266_row(Pt::new_with_value(104), resend, (1, 0, 96))
}

/// H.264 of the Baseline, Constrained Baseline and Main profiles in packetization modes 1 and 0 and of the High
/// profile in mode 1, all of level 3.1, under types 127, 125, 108, 124, 123, 35 and 114 in this order, their
/// retransmissions under 121, 107, 109, 120, 119, 36 and 115 (RFC 6184 8.1).
pub fn h264() -> [PayloadParams; 7]
    ensures { result ≡ h264_rows }
{
    [
        h264_mode(127, 121, true, 0x42001f),
        h264_mode(125, 107, false, 0x42001f),
        h264_mode(108, 109, true, 0x42e01f),
        h264_mode(124, 120, false, 0x42e01f),
        h264_mode(123, 119, true, 0x4d001f),
        h264_mode(35, 36, false, 0x4d001f),
        h264_mode(114, 115, true, 0x64001f),
    ]
}

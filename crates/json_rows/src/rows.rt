//! A row of each codec, and one of which no field is as by default.

use media_types::{Codec, H265ProfileTierLevel, H266ProfileTierLevel};
use rtp_wire::{Frequency, Pt};
use sdp_formats_rows::{CodecSpec, FormatParams, PayloadParams};

/// A row of the codec as an offer may have it.
pub(crate) fn row_of(codec: Codec) -> PayloadParams {
    let spec = CodecSpec {
        codec,
        clock_rate: clock_rate_of(codec),
        channels: channels_of(codec),
        format: FormatParams::parse_line(format_of(codec)),
    };
    if codec == Codec::Opus {
        return PayloadParams::new(Pt::from(111), None, spec).with_red(Pt::from(63));
    }
    let resend = if codec.is_video() {
        Some(Pt::from(97))
    } else {
        None
    };
    PayloadParams::new(Pt::from(96), resend, spec)
}

fn clock_rate_of(codec: Codec) -> Frequency {
    match codec {
        Codec::Opus => Frequency::FORTY_EIGHT_KHZ,
        Codec::AmrWb | Codec::G722 => Frequency::SIXTEEN_KHZ,
        Codec::PCMU | Codec::PCMA | Codec::CN | Codec::Tele => Frequency::EIGHT_KHZ,
        _ => Frequency::NINETY_KHZ,
    }
}

fn channels_of(codec: Codec) -> Option<u8> {
    match codec {
        Codec::Opus => Some(2),
        Codec::AmrWb => Some(1),
        _ => None,
    }
}

/// The parameters that an offer may have for the codec.
fn format_of(codec: Codec) -> &'static str {
    match codec {
        Codec::Opus => "minptime=10;useinbandfec=1",
        Codec::AmrWb => "octet-align=1;mode-set=0,8",
        Codec::H264 => "level-asymmetry-allowed=1;packetization-mode=1;profile-level-id=42e01f",
        Codec::H265 => "profile-id=1;tier-flag=0;level-id=93",
        Codec::H266 => "profile-id=1;tier-flag=1;level-id=83;sprop-max-don-diff=32767",
        Codec::Vp9 => "profile-id=2",
        Codec::Av1 => "profile=0;level-idx=5;tier=0",
        Codec::Tele => "0-15",
        _ => "",
    }
}

/// A row of which no field is as by default, locked.
pub(crate) fn every_field() -> PayloadParams {
    let format = FormatParams {
        min_p_time: Some(1),
        stereo: Some(true),
        sprop_stereo: Some(false),
        use_inband_fec: Some(true),
        use_dtx: Some(false),
        level_asymmetry_allowed: Some(true),
        packetization_mode: Some(2),
        profile_level_id: Some(0x42e01f),
        profile_id: Some(3),
        profile: Some(4),
        level_idx: Some(5),
        tier: Some(6),
        h265_profile_tier_level: H265ProfileTierLevel::new(2, 1, 120),
        h266_profile_tier_level: H266ProfileTierLevel::new(1, 1, 83),
        sprop_max_don_diff: Some(7),
        telephone_event_max: Some(8),
        octet_align: Some(true),
        mode_set: Some(0b1_0000_0001),
    };
    let spec = CodecSpec {
        codec: Codec::H266,
        clock_rate: Frequency::SIXTEEN_KHZ,
        channels: Some(3),
        format,
    };
    let mut row = PayloadParams::new(Pt::from(119), Some(Pt::from(120)), spec).with_red(Pt::from(
        121,
    ));
    row.set_fb_transport_cc(false);
    row.set_fb_remb(false);
    row.lock();
    row
}

/// Whether two rows are the same, with their locks.
pub(crate) fn is_same(one: &PayloadParams, other: &PayloadParams) -> bool {
    *one == *other && one.is_locked() == other.is_locked()
}

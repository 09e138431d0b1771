//! What small calls return, beside what the standards and the usual numbers say.

use h26x_payload::{
    ANNEXB_NALUSTART_CODE, AUD_NALU_TYPE, FILLER_NALU_TYPE, FU_END_BITMASK, FU_START_BITMASK,
    FUA_HEADER_SIZE, FUA_NALU_TYPE, FUB_NALU_TYPE, IDR_NALU_TYPE, NALU_REF_IDC_BITMASK,
    NALU_TYPE_BITMASK, OUTPUT_STAP_AHEADER, PPS_NALU_TYPE, SPS_NALU_TYPE, STAPA_HEADER_SIZE,
    STAPA_NALU_LENGTH_SIZE, STAPA_NALU_TYPE,
};
use rtp_wire::{Extension, ExtensionMap, Frequency, MediaTime, Pt, SeqNo};
use sdp_formats_rows::CodecSpec;

/// Each row's name, and whether it is as it must be.
pub(crate) fn value_rows() -> [(&'static str, bool); 7] {
    [
        ("the standard map", the_standard_map()),
        ("numbers of another end", numbers_of_another_end()),
        ("clock rates of timestamps", clock_rates()),
        ("sequence numbers", sequence_numbers()),
        ("times at each clock", times()),
        ("numbers of H.264", h264_numbers()),
        ("clock rates by name", rates_by_name()),
    ]
}

/// The usual numbers of seven extensions, and no others.
fn the_standard_map() -> bool {
    let map = ExtensionMap::standard();
    let numbers = [
        (Extension::AudioLevel, 1),
        (Extension::AbsoluteSendTime, 2),
        (Extension::TransportSequenceNumber, 3),
        (Extension::RtpMid, 4),
        (Extension::RtpStreamId, 10),
        (Extension::RepairedRtpStreamId, 11),
        (Extension::VideoOrientation, 13),
    ];
    for (ext, id) in &numbers {
        if map.id_of(ext) != Some(*id) || map.lookup(*id).is_none() {
            return false;
        }
    }
    for id in &[0, 5, 6, 7, 8, 9, 12, 14, 15, 16, 17] {
        if map.lookup(*id).is_some() {
            return false;
        }
    }
    true
}

/// The other end's id is adopted, even 15 or 16, and the extension that had it takes the freed one.
fn numbers_of_another_end() -> bool {
    let mut map = ExtensionMap::standard();
    map.remap(&[
        (15, Extension::AudioLevel),
        (16, Extension::RtpMid),
        (3, Extension::AbsoluteSendTime),
    ]);
    map.id_of(&Extension::AudioLevel) == Some(15)
        && map.id_of(&Extension::RtpMid) == Some(16)
        && map.id_of(&Extension::AbsoluteSendTime) == Some(3)
        && map.id_of(&Extension::TransportSequenceNumber) == Some(2)
}

/// G.722 counts at 8,000 Hz whatever its row says (RFC 3551 4.5.2), PCMU at its own rate.
fn clock_rates() -> bool {
    for pt in &[0, 9] {
        match CodecSpec::from_static_pt(Pt::from(*pt)) {
            Some(spec) if spec.rtp_clock_rate() == Frequency::EIGHT_KHZ => {}
            _ => return false,
        }
    }
    true
}

/// The third wrap of 16 bits, and the number after it.
fn sequence_numbers() -> bool {
    let mut number = SeqNo::from(196_613);
    let before = number.inc();
    before.roc() == 3
        && number.get() == 196_614
        && before.is_next(number)
        && !number.is_next(before)
}

/// A count at each clock, with that clock's ticks a second.
fn times() -> bool {
    let times = [
        (MediaTime::from_micros(7), 1_000_000),
        (MediaTime::from_fixed_point_6_18(7), 262_144),
        (MediaTime::from_90khz(7), 90_000),
        (MediaTime::from_millis(7), 1_000),
        (MediaTime::from_hundredths(7), 100),
        (MediaTime::from_secs(7), 1),
    ];
    for (time, denom) in &times {
        if time.numer() != 7 || time.denom() != *denom {
            return false;
        }
    }
    true
}

/// Types, masks and sizes of H.264 (ITU-T H.264 7.3.1 and table 7-1, RFC 6184 5.2 to 5.8).
fn h264_numbers() -> bool {
    let types = [
        IDR_NALU_TYPE,
        SPS_NALU_TYPE,
        PPS_NALU_TYPE,
        AUD_NALU_TYPE,
        FILLER_NALU_TYPE,
        STAPA_NALU_TYPE,
        FUA_NALU_TYPE,
        FUB_NALU_TYPE,
    ];
    let masks = [
        NALU_TYPE_BITMASK,
        NALU_REF_IDC_BITMASK,
        FU_START_BITMASK,
        FU_END_BITMASK,
        OUTPUT_STAP_AHEADER,
    ];
    let sizes = [FUA_HEADER_SIZE, STAPA_HEADER_SIZE, STAPA_NALU_LENGTH_SIZE];
    types == [5, 7, 8, 9, 12, 24, 28, 29]
        && masks == [0x1f, 0x60, 0x80, 0x40, 0x78]
        && sizes == [2, 1, 2]
        && ANNEXB_NALUSTART_CODE == [0, 0, 0, 1]
}

/// Ticks a second of each clock rate that has a name.
fn rates_by_name() -> bool {
    let rates = [
        (Frequency::MICROS, 1_000_000),
        (Frequency::FIXED_POINT_6_18, 262_144),
        (Frequency::NINETY_KHZ, 90_000),
        (Frequency::FORTY_EIGHT_KHZ, 48_000),
        (Frequency::SIXTEEN_KHZ, 16_000),
        (Frequency::EIGHT_KHZ, 8_000),
        (Frequency::MILLIS, 1_000),
        (Frequency::HUNDREDTHS, 100),
        (Frequency::SECONDS, 1),
    ];
    for (rate, ticks) in &rates {
        if rate.get() != *ticks {
            return false;
        }
    }
    true
}

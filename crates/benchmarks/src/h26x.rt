//! H.264, H.265 and H.266.

use crate::formats::measure_codec;
use crate::samples::access_unit;
use h26x_payload::Codec;
use std::io;

/// How often an access unit is sent and read.
const ROUNDS: u32 = 2_000;

/// SPS and PPS.
pub(crate) const H264_SETS: &[u8] =
    b"\0\0\0\x01\x67parameters, 20 bytes\0\0\0\x01\x68parameters, 20 bytes";

/// VPS, SPS and PPS.
const H265_SETS: &[u8] =
    b"\0\0\0\x01\x40\x01parameters, 20 bytes\0\0\0\x01\x42\x01parameters, 20 bytes\
    \0\0\0\x01\x44\x01parameters, 20 bytes";

/// VPS, SPS and PPS.
const H266_SETS: &[u8] = b"\0\0\0\x01\0\x71parameters, 20 bytes\0\0\0\x01\0\x79parameters, 20 bytes\
    \0\0\0\x01\0\x81parameters, 20 bytes";

/// A keyframe of each format, with decoding order numbers too.
pub(crate) fn measure_all(rt: &HostRuntime) -> io::Result<()> {
    let h264 = access_unit(rt.alloc(), H264_SETS, b"\0\0\0\x01\x65")?;
    let h265 = access_unit(rt.alloc(), H265_SETS, b"\0\0\0\x01\x26\x01")?;
    let h266 = access_unit(rt.alloc(), H266_SETS, b"\0\0\0\x01\0\x39")?;
    for (format, codec, has_numbers, sample) in [
        ("H.264", Codec::H264, false, &h264),
        ("H.265", Codec::H265, false, &h265),
        ("H.265 with DONL", Codec::H265, true, &h265),
        ("H.266", Codec::H266, false, &h266),
    ] {
        measure_codec(rt, format, codec, has_numbers, sample, ROUNDS)?;
    }
    Ok(())
}

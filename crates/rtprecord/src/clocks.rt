//! Clocks of streams, and the clock that all share.

use crate::reports::SenderReport;
use crate::stream::Stream;
use std::collections::BTreeMap;

/// How many microseconds so many ticks are.
pub(crate) fn microseconds(ticks: i64, rate: u32) -> i64 {
    ticks
        .saturating_mul(1_000_000)
        .checked_div(rate as i64)
        .unwrap_or(0)
}

/// How many microseconds a stream's clock takes from one time to another, the nearest that has these 32 bits.
fn elapsed(from: u32, to: u32, rate: u32) -> i64 {
    let ahead = to.wrapping_sub(from) as i64;
    let behind = from.wrapping_sub(to) as i64;
    let ticks = if ahead <= behind {
        ahead
    } else {
        behind.saturating_neg()
    };
    microseconds(ticks, rate)
}

/// When a stream's first unit began by a report of its sender, in microseconds since 1900 (RFC 3550 6.4.1).
pub(crate) fn reported(stream: &Stream, reports: &BTreeMap<u32, SenderReport>) -> Option<i64> {
    let report = reports.get(&stream.ssrc.get())?;
    let time = stream.units.first?;
    let seconds = (report.ntp / 0x1_0000_0000).saturating_mul(1_000_000);
    let fraction = (report.ntp % 0x1_0000_0000).saturating_mul(1_000_000) / 0x1_0000_0000;
    let reported = i64::try_from(seconds.saturating_add(fraction)).ok()?;
    reported.checked_add(elapsed(report.rtp_time, time, stream.row.rate.get()))
}

/// When a stream's first unit came, in microseconds of the capture's clock.
pub(crate) fn arrived(stream: &Stream) -> Option<i64> {
    let (time, rtp_time) = stream.began?;
    let first = stream.units.first?;
    let time = i64::try_from(time).ok()?;
    time.checked_add(elapsed(rtp_time, first, stream.row.rate.get()))
}

/// How many ticks a unit is after the first, if another is so many after it and this has these 32 bits.
pub(crate) fn next_ticks(previous: i64, from: u32, to: u32) -> i64 {
    let ahead = to.wrapping_sub(from) as i64;
    let behind = from.wrapping_sub(to) as i64;
    if ahead <= behind {
        previous.saturating_add(ahead)
    } else {
        previous.saturating_sub(behind)
    }
}

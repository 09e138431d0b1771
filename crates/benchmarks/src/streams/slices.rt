//! The fastest of many slices of time.

use crate::streams::line::Line;
use std::io;
use std::time::Instant;

/// How many slices of time there are.
pub(crate) const SLICES: u32 = 300;

/// As many samples per slice as make about 200,000 bytes.
pub(crate) fn rounds_for(line: &Line<'_>) -> u32 {
    (200_000 / line.sample.len().max(1)).min(1_000).max(1) as u32
}

/// The shorter of a time in nanoseconds and that since the start.
pub(crate) fn shorter(rt: &HostRuntime, start: &Instant, least: u128) -> io::Result<u128> {
    Ok(start.elapsed(rt)?.as_nanos().min(least))
}

/// Prints how many MB of samples a second that is.
pub(crate) fn put_rate(
    rt: &HostRuntime,
    line: &Line<'_>,
    way: &str,
    nanos: u128,
) -> io::Result<()> {
    let bytes = (line.sample.len() as u128).wrapping_mul(rounds_for(line) as u128);
    let rate = bytes.wrapping_mul(1_000) / nanos.max(1);
    let (name, size) = (line.name, line.sample.len());
    eprintln!(*rt; "{name}, {size} bytes: {rate} MB a second {way}")
}

//! Timings, compared with plain copies: headers and windows, payload formats and the jitter buffer,
//! RED payloads, cutting access units, and SDP (one of them from standard input); and how fast streams
//! are, which is all with the argument `streams`. Counts go to standard output, times to standard error.
#![tactic(auto)]

mod buffers;
mod cut;
mod formats;
mod h26x;
mod headers;
mod line;
mod made_texts;
mod measured;
mod payloads;
mod redundant;
mod samples;
mod streams;
mod tally;
mod texts;

use std::{env, io};

fn main(rt: HostRuntime) -> anyhow::Result<()> {
    let words = env::args(&rt)?.collect::<Vec<String>>(rt.alloc())?;
    if words.len() < 2 {
        measure_layers(&rt)?;
    }
    Ok(streams::measure_all(&rt)?)
}

/// What lies below streams.
fn measure_layers(rt: &HostRuntime) -> io::Result<()> {
    headers::measure_all(rt)?;
    payloads::measure_all(rt)?;
    h26x::measure_all(rt)?;
    redundant::measure_all(rt)?;
    cut::measure_all(rt)?;
    texts::measure_all(rt)?;
    made_texts::measure_all(rt)
}

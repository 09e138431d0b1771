//! Uses of ends, exchanges and lines: worked rows that the program's lines can't express, line runs
//! that fail, and sessions between two ends. Rows and runs are compared with expected output; the
//! sessions are proved: two ends agree on Opus, G.711 or G.722, one sends three samples, and the
//! other hands out exactly these, in order, although the second arrives last; or they agree on VP8,
//! and a frame comes out although the second of its two packets is lost and has to be repaired.
#![tactic(auto)]

mod calls;
mod carrying;
mod compared;
mod failing_runs;
mod proved_calls;
mod refusal_rows;
mod sessions;
mod silence;
mod stream_rows;
mod value_rows;
mod video_call;
mod worked_rows;

use compared::print_rows;
use failing_runs::print_runs;
use proved_calls::print_calls;
use std::process::ExitCode;

/// Prints what comes of each; status 1 if something isn't as it must be, or a call does not come to its end.
fn main(rt: HostRuntime) -> ExitCode {
    let rows = print_rows(&rt);
    let runs = print_runs(&rt);
    let calls = print_calls(&rt).is_some();
    ExitCode::from(u8::from(!(rows && runs && calls)))
}

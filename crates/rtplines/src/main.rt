//! Reads lines of the media path's program from standard input, and writes the answers to standard output.
#![tactic(auto)]

use rtp_media::run;
use std::io;
use std::process::ExitCode;

/// Status 0, or 2 if an `error line` was printed; 1 if the input could not be read, the answers could not be
/// written, or memory ran out, after a line on standard error that says which.
fn main(rt: HostRuntime) -> ExitCode {
    match run(rt.alloc(), &mut rt.reader(), &mut io::writer(&rt)) {
        Ok(status) => ExitCode::from(status.code()),
        Err(fault) => {
            let _ = eprintln!(rt; "{fault}");
            ExitCode::from(1)
        }
    }
}

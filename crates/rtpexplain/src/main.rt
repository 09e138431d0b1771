//! Reads lines of the media path's program from standard input, of which some may be comments, and says in words what
//! came of each.
#![tactic(auto)]

mod explaining;

use explaining::explain_input;
use std::process::ExitCode;

/// Status 0, or 2 if an `error line` was printed; 1 if reading or writing failed or memory ran out,
/// with a message on standard error.
fn main(rt: HostRuntime) -> ExitCode {
    match explain_input(&rt) {
        Ok(status) => ExitCode::from(status.code()),
        Err(fault) => {
            let _ = eprintln!(rt; "{fault}");
            ExitCode::from(1)
        }
    }
}

//! What came of each line, in words.

use rtp_media_program::{Known, Program, RunFault, Status, answer_and_explain};
use std::io::{ErrorKind, Read};

/// Prints each line with its number, what the program replies to it, and why where it is an `error line` or refused; at
/// the end what became of each stream. The status is that of the program.
pub(crate) fn explain_input(rt: &HostRuntime) -> Result<Status, RunFault> {
    let mut input = Vec::new(rt.alloc());
    match rt.reader().read_to_end(&mut input) {
        Ok(_) => explain_lines(rt, input.strip_suffix(b"\n").unwrap_or(&input)),
        Err(fault) if fault.kind() == ErrorKind::OutOfMemory => Err(RunFault::Memory),
        Err(_) => Err(RunFault::Read),
    }
}

fn explain_lines(rt: &HostRuntime, lines: &[u8]) -> Result<Status, RunFault> {
    let (mut program, mut known) = (Program::new(rt.alloc()), Known::new(rt.alloc()));
    let mut status = Status::Success;
    let mut number: u64 = 0;
    for line in lines.split(is_line_feed) {
        number = number.saturating_add(1);
        let (said, of_line) = answer_and_explain(
            rt.alloc(),
            &mut program,
            &mut known,
            number,
            line,
        )?;
        if print!(*rt; "{said}").is_err() {
            return Err(RunFault::Write);
        }
        status = status.and(of_line);
    }
    match print!(*rt; "at the end\n{known}") {
        Ok(()) => Ok(status),
        Err(_) => Err(RunFault::Write),
    }
}

/// Whether a byte ends a line.
fn is_line_feed(byte: &u8) -> bool {
    *byte == b'\n'
}

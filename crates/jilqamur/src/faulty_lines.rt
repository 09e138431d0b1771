//! The line at which a session text can't be read on.

ghost use Rattle.std.specs.Prelude.{◌≡◌, ◌≢◌, false, true};
ghost use Rattle.std.specs.Str.{is_utf8};
ghost use Rattle.jilqamur.specs.Codes.{memory, not_text, ok, too_small};
ghost use Rattle.jilqamur.specs.FaultyLines.{TellsLine, line_fault, section_fault};

use crate::codes;
use crate::copying::{copy_out, text_in};
use sdp_formats_data::Inconsistency;
use sdp_formats_faults::{LineFault, faulty_line};
use std::alloc::Global;

/// The number of what is wrong with a section.
fn section_fault(fault: Inconsistency) -> u32
    ensures { result ≡ section_fault fault }
{
    match fault {
        Inconsistency::MissingMid => 5,
        Inconsistency::SeveralMids => 6,
        Inconsistency::SeveralSetups => 7,
        Inconsistency::Directions => 8,
        Inconsistency::NoPayloadType => 9,
        Inconsistency::RtpMaps => 10,
        Inconsistency::ConflictingApts => 11,
    }
}

/// The number of what is wrong with a line.
fn line_fault(fault: LineFault) -> u32
    ensures { result ≡ line_fault fault }
{
    match fault {
        LineFault::Version => 0,
        LineFault::Origin => 1,
        LineFault::Name => 2,
        LineFault::Times => 3,
        LineFault::Stray => 4,
        LineFault::Section(fault) => section_fault(fault),
    }
}

/// Finds the line at which a session text can't be read on: the first that fails if the text isn't read, or else the
/// first of the rest that isn't read. It is copied without its end to the front of the buffer, and `OK` is returned;
/// or `TOO_SMALL`, and the buffer is unchanged. `needed` is its length in bytes, `number` its number, counted from 1,
/// and `fault` what is wrong with it. `NOT_TEXT` for bytes that aren't UTF-8, `NOTHING` if the text is read to its end,
/// or `MEMORY`, and nothing is told.
#[unsafe(no_mangle)]
pub extern "C" fn jilqamur_faulty_line(
    alloc: Global,
    text: &[u8],
    buffer: &mut [u8],
    needed: &mut usize,
    number: &mut usize,
    fault: &mut u32,
) -> u32
    ensures text { is_utf8 text.now ≡ false → result ≡ not_text }
    ensures line { is_utf8 text.now ≡ true → result ≢ memory
        → TellsLine text.now buffer.old result needed.new number.new fault.new buffer.new }
    ensures kept { result ≢ ok → buffer.new ≡ buffer.old }
    ensures untold { result ≢ ok → result ≢ too_small
        → (needed.new ≡ needed.old) × (number.new ≡ number.old) × (fault.new ≡ fault.old) }
{
    let Some(text) = text_in(text) else {
        return codes::NOT_TEXT;
    };
    match faulty_line(alloc, text) {
        Ok(Some(line)) => {
            *number = line.number;
            *fault = line_fault(line.fault);
            copy_out(line.text.as_bytes(), buffer, needed)
        }
        Ok(None) => codes::NOTHING,
        Err(_) => codes::MEMORY,
    }
}

//! The commands.

use crate::headers::reading::{header_text, payload_text, run_text};
use crate::headers::writing::{set_map, written};
use crate::numbers::{extended, of_window};
use crate::times::{comparison, difference, frequency, micros};
use rtp_wire::{ExtensionMap, SeqNo, SeqNoWindow};
use words_and_replies::CommandLine;

/// What lines set for the lines after them: the ids of header extensions, and a window.
#[derive(Drop)]
pub(crate) struct Kept {
    map: ExtensionMap,
    window: SeqNoWindow,
}

impl Kept {
    /// No header extension has a number, and the window recorded number 0.
    pub(crate) fn new() -> Kept {
        Kept {
            map: ExtensionMap::empty(),
            window: SeqNoWindow::new_after(SeqNo::from(0)),
        }
    }
}

/// Answers a line by what those before it set.
pub(crate) fn answer(line: &mut CommandLine<'_>, kept: &mut Kept) {
    let Some(command) = line.command() else {
        return;
    };
    match command {
        "map" => set_map(line, &mut kept.map),
        "write-header" => written(line, &kept.map),
        "read-header" => header_text(line, &kept.map),
        "run" => run_text(line, &kept.map),
        "padded" => payload_text(line, true),
        "unpadded" => payload_text(line, false),
        "window" | "window-after" | "update" | "accepts" => {
            of_window(line, &mut kept.window, command)
        }
        "extend" => extended(line),
        "micros" => micros(line),
        "compare" => comparison(line),
        "minus" => difference(line),
        "frequency" => frequency(line),
        _ => line.refuse(format_args!("no command {command}")),
    }
}

//! Numbers and windows.

use rtp_wire::{SeqNo, SeqNoWindow, extend_u7, extend_u8, extend_u15, extend_u16, extend_u32};
use words_and_replies::CommandLine;

/// `extend BITS PREVIOUS LOW`: a number of few bits, widened by the one before it, or by none if a dash is.
pub(crate) fn extended(line: &mut CommandLine<'_>) {
    let (bits, previous, low) = (line.word(), line.word(), line.number::<u32>());
    let previous = match previous {
        "-" => None,
        word => Some(line.value::<u64>(word)),
    };
    line.put(match bits {
        "u7" if low < 128 => extend_u7(previous, low as u8),
        "u8" if low < 256 => extend_u8(previous, low as u8),
        "u15" if low < 32768 => extend_u15(previous, low as u16),
        "u16" if low < 65536 => extend_u16(previous, low as u16),
        "u32" => extend_u32(previous, low),
        _ => return line.refuse(format_args!("no number {low} of {bits}")),
    })
}

/// `window N` makes a window that recorded N alone, `window-after N` one that recorded everything
/// up to N, and `update N` records N: each prints the greatest number. `accepts N` prints whether
/// the window accepts N.
pub(crate) fn of_window(line: &mut CommandLine<'_>, window: &mut SeqNoWindow, command: &str) {
    let number = SeqNo::from(line.number::<u64>());
    match command {
        _ if line.is_refused() => {}
        "accepts" => return line.put_whether(window.accepts(number)),
        "window" => *window = SeqNoWindow::new(number),
        "window-after" => *window = SeqNoWindow::new_after(number),
        _ => window.update(number),
    }
    line.put(window.max_seq())
}

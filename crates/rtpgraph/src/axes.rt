//! The axes, with numbers and what they count.

use crate::counts::Counts;
use crate::frame::{BOTTOM, HELD_BOTTOM, HELD_TOP, LEFT, RIGHT, TOP, share, x_of};
use std::io;

/// The most parts that ticks cut an axis into.
const MOST_PARTS: u64 = 8;

/// Draws the axes of both plots.
pub(crate) fn draw_axes(rt: &HostRuntime, counts: &Counts, replies: u64) -> io::Result<()> {
    println!(*rt; "<path class=\"line\" d=\"M{LEFT} {TOP}V{BOTTOM}H{RIGHT}\"/>")?;
    println!(*rt; "<path class=\"line\" d=\"M{LEFT} {HELD_TOP}V{HELD_BOTTOM}H{RIGHT}\"/>")?;
    draw_numbers(rt, counts)?;
    draw_replies(rt, replies)?;
    let most = counts.most_held;
    put(rt, LEFT - 8, HELD_TOP + 4, "end", most)?;
    put(rt, LEFT - 8, HELD_BOTTOM + 4, "end", 0)?;
    let middle = (TOP + BOTTOM) / 2;
    println!(*rt;
        "<text class=\"ink\" text-anchor=\"middle\" transform=\"translate(14 {middle}) rotate(-90)\">\
         sequence number</text>"
    )?;
    let held = (HELD_TOP + HELD_BOTTOM) / 2;
    println!(*rt;
        "<text class=\"ink\" text-anchor=\"middle\" transform=\"translate(14 {held}) rotate(-90)\">\
         packets held</text>"
    )?;
    let (middle, foot) = ((LEFT + RIGHT) / 2, HELD_BOTTOM + 36);
    println!(*rt;
        "<text class=\"ink\" text-anchor=\"middle\" x=\"{middle}\" y=\"{foot}\">\
         replies of the program, one after the other</text>"
    )
}

/// The numbers at the left.
fn draw_numbers(rt: &HostRuntime, counts: &Counts) -> io::Result<()> {
    let span = counts.greatest.saturating_sub(counts.least);
    let step = step_of(span);
    for k in 0..=MOST_PARTS {
        let tick = first_tick(counts.least, step).saturating_add(k.saturating_mul(step));
        if tick > counts.greatest {
            break;
        }
        let part = share(BOTTOM - TOP, tick.saturating_sub(counts.least), span);
        let y = BOTTOM.saturating_sub(part);
        println!(*rt; "<path class=\"grid\" d=\"M{LEFT} {y}H{RIGHT}\"/>")?;
        put(rt, LEFT - 8, y.saturating_add(4), "end", tick)?;
    }
    Ok(())
}

/// The counts of replies below.
fn draw_replies(rt: &HostRuntime, replies: u64) -> io::Result<()> {
    let step = step_of(replies);
    for k in 1..=MOST_PARTS {
        let tick = k.saturating_mul(step);
        if tick > replies {
            break;
        }
        let x = x_of(tick.saturating_sub(1), replies);
        println!(*rt; "<path class=\"line\" d=\"M{x} {HELD_BOTTOM}v4\"/>")?;
        put(rt, x, HELD_BOTTOM + 18, "middle", tick)?;
    }
    Ok(())
}

/// A number at an axis.
fn put(rt: &HostRuntime, x: u64, y: u64, anchor: &str, number: u64) -> io::Result<()> {
    println!(*rt;
        "<text class=\"ink\" x=\"{x}\" y=\"{y}\" text-anchor=\"{anchor}\">{number}</text>"
    )
}

/// The smallest of 1, 2, 5, 10, 20, .. that divides a span into no more than the maximum number of
/// parts.
fn step_of(span: u64) -> u64 {
    let mut unit: u64 = 1;
    for _ in 0..20 {
        for times in [1, 2, 5] {
            let step = unit.saturating_mul(times);
            if step.saturating_mul(MOST_PARTS) >= span {
                return step;
            }
        }
        unit = unit.saturating_mul(10);
    }
    unit
}

/// The least multiple of a step from a number on.
fn first_tick(least: u64, step: u64) -> u64 {
    match least.checked_rem(step) {
        None | Some(0) => least,
        Some(rest) => least.saturating_add(step.saturating_sub(rest)),
    }
}

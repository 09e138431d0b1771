//! Draws what happened on a receiving stream: reads the replies of `rtplines`, or the output of
//! `rtpexplain`, and writes an SVG picture of the numbers taken, refused, lost and held, and of the
//! units, one reply after another.
#![tactic(auto)]

mod axes;
mod counts;
mod drawing;
mod frame;
mod legend;
mod steps;

use drawing::draw;
use std::io;
use steps::step_of;

fn main(rt: HostRuntime) -> io::Result<()> {
    let text = io::read_to_string(rt.alloc(), rt.reader())?;
    let mut steps = Vec::new(rt.alloc());
    for line in text.as_str().lines() {
        if let Some(step) = step_of(line) {
            steps.push(step)?;
        }
    }
    draw(&rt, &steps)
}

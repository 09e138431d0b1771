//! The picture.

use crate::axes::draw_axes;
use crate::counts::{Counts, Holding};
use crate::frame::{BOTTOM, HELD_BOTTOM, HELD_TOP, STRIP, TOP, share, x_of};
use crate::legend::draw_front;
use crate::steps::Step;
use std::io;

/// What was drawn so far of a run.
#[derive(Drop)]
struct Picture<'a> {
    counts: &'a Counts,
    replies: u64,
    index: u64,
    holding: Holding,
}

/// Draws the steps from left to right.
pub(crate) fn draw(rt: &HostRuntime, steps: &[Step]) -> io::Result<()> {
    let counts = Counts::of(rt.alloc(), steps)?;
    let replies = steps.len() as u64;
    draw_front(rt, &counts)?;
    draw_axes(rt, &counts, replies)?;
    let mut picture = Picture {
        counts: &counts,
        replies,
        index: 0,
        holding: Holding::new(rt.alloc()),
    };
    for step in steps {
        picture.show(rt, *step)?;
    }
    println!(*rt; "</svg>")
}

impl Picture<'_> {
    /// Draws a step, and how many packets are held after it.
    fn show(&mut self, rt: &HostRuntime, step: Step) -> io::Result<()> {
        match step {
            Step::Taken(number) if self.holding.is_passed(number) => {
                self.mark(rt, self.y(number), "late")?;
            }
            Step::Taken(number) => self.mark(rt, self.y(number), "taken")?,
            Step::Refused => self.mark(rt, STRIP, "refused")?,
            Step::Damaged => self.mark(rt, STRIP, "damaged")?,
            Step::Foreign => self.mark(rt, STRIP, "foreign")?,
            Step::Unit(first, last) => {
                if let Some((from, to)) = self.holding.gap_before(first) {
                    self.show_lost(rt, from, to)?;
                }
                self.bar(rt, first, last, "unit")?;
            }
            Step::Nothing => {}
        }
        self.holding.go_on(step)?;
        self.show_held(rt)?;
        self.index = self.index.saturating_add(1);
        Ok(())
    }

    fn x(&self) -> u64 {
        x_of(self.index, self.replies)
    }

    /// The height of a number.
    fn y(&self, number: u64) -> u64 {
        let (least, greatest) = (self.counts.least, self.counts.greatest);
        let (part, whole) = (number.saturating_sub(least), greatest.saturating_sub(least));
        BOTTOM.saturating_sub(share(BOTTOM - TOP, part, whole))
    }

    fn mark(&self, rt: &HostRuntime, y: u64, class: &str) -> io::Result<()> {
        let x = self.x();
        println!(*rt; "<circle class=\"{class}\" cx=\"{x}\" cy=\"{y}\" r=\"3\"/>")
    }

    /// A bar over numbers.
    fn bar(&self, rt: &HostRuntime, first: u64, last: u64, class: &str) -> io::Result<()> {
        let x = self.x().saturating_sub(2);
        let y = self.y(last).saturating_sub(3);
        let height = self.y(first).saturating_add(3).saturating_sub(y);
        println!(*rt;
            "<rect class=\"{class}\" x=\"{x}\" y=\"{y}\" width=\"4\" height=\"{height}\"/>"
        )
    }

    /// Bars over the numbers of a gap that never came.
    fn show_lost(&self, rt: &HostRuntime, from: u64, to: u64) -> io::Result<()> {
        let mut next = from;
        for number in &self.counts.numbers {
            if next < *number && *number <= to {
                self.bar(rt, next, number.saturating_sub(1), "lost")?;
            }
            if next <= *number && *number <= to {
                next = number.saturating_add(1);
            }
        }
        if next <= to {
            self.bar(rt, next, to, "lost")?;
        }
        Ok(())
    }

    /// How many packets are held, below the numbers.
    fn show_held(&self, rt: &HostRuntime) -> io::Result<()> {
        let most = self.counts.most_held;
        let height = share(HELD_BOTTOM - HELD_TOP, self.holding.count(), most);
        if height == 0 {
            return Ok(());
        }
        let x = self.x().saturating_sub(3);
        let y = HELD_BOTTOM.saturating_sub(height);
        println!(*rt; "<rect class=\"held\" x=\"{x}\" y=\"{y}\" width=\"6\" height=\"{height}\"/>")
    }
}

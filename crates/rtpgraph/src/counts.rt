//! What a run comes to.

use crate::steps::Step;
use std::alloc::{AllocError, Global};

/// A run's numbers, and how often each thing happened.
#[derive(Drop)]
pub(crate) struct Counts {
    /// The numbers that were taken, in ascending order.
    pub(crate) numbers: Vec<u64>,
    pub(crate) least: u64,
    pub(crate) greatest: u64,
    pub(crate) in_time: u64,
    pub(crate) late: u64,
    pub(crate) lost: u64,
    pub(crate) refused: u64,
    pub(crate) damaged: u64,
    pub(crate) foreign: u64,
    pub(crate) units: u64,
    /// The most packets that were held after a reply, and how many are at the end.
    pub(crate) most_held: u64,
    pub(crate) held: u64,
}

impl Counts {
    /// The counts of these steps.
    pub(crate) fn of(alloc: Global, steps: &[Step]) -> Result<Counts, AllocError> {
        let (least, greatest) = extent(steps);
        let mut counts = Counts {
            numbers: numbers_of(alloc, steps)?,
            least,
            greatest,
            in_time: 0,
            late: 0,
            lost: 0,
            refused: 0,
            damaged: 0,
            foreign: 0,
            units: 0,
            most_held: 0,
            held: 0,
        };
        let mut holding = Holding::new(alloc);
        for step in steps {
            counts.add(*step, &holding);
            holding.go_on(*step)?;
            counts.held = holding.count();
            counts.most_held = counts.most_held.max(counts.held);
        }
        Ok(counts)
    }

    /// Counts a step that comes while these are held.
    fn add(&mut self, step: Step, holding: &Holding) {
        match step {
            Step::Taken(number) if holding.is_passed(number) => raise(&mut self.late),
            Step::Taken(_) => raise(&mut self.in_time),
            Step::Refused => raise(&mut self.refused),
            Step::Damaged => raise(&mut self.damaged),
            Step::Foreign => raise(&mut self.foreign),
            Step::Unit(first, _) => {
                raise(&mut self.units);
                if let Some((from, to)) = holding.gap_before(first) {
                    self.lost = self.lost.saturating_add(self.missing(from, to));
                }
            }
            Step::Nothing => {}
        }
    }

    /// How many numbers from one to another were never taken.
    fn missing(&self, from: u64, to: u64) -> u64 {
        let taken = self.numbers.iter().filter(|n| from <= **n && **n <= to);
        let all = to.saturating_sub(from).saturating_add(1);
        all.saturating_sub(taken.count() as u64)
    }
}

/// Counts one more.
fn raise(count: &mut u64) {
    *count = count.saturating_add(1);
}

/// The numbers that were taken, in ascending order.
fn numbers_of(alloc: Global, steps: &[Step]) -> Result<Vec<u64>, AllocError> {
    let mut numbers = Vec::new(alloc);
    for step in steps {
        if let Step::Taken(number) = step {
            numbers.push(*number)?;
        }
    }
    numbers.sort()?;
    Ok(numbers)
}

/// The least and the greatest number of the steps; of none 0.
fn extent(steps: &[Step]) -> (u64, u64) {
    let mut extent = None;
    for step in steps {
        let (first, last) = match step {
            Step::Taken(number) => (*number, *number),
            Step::Unit(first, last) => (*first, *last),
            _ => continue,
        };
        extent = match extent {
            None => Some((first, last)),
            Some((least, greatest)) => Some((first.min(least), last.max(greatest))),
        };
    }
    extent.unwrap_or((0, 0))
}

/// The packets that are held after a step, and where the last unit ended.
#[derive(Drop)]
pub(crate) struct Holding {
    held: Vec<u64>,
    last: Option<u64>,
}

impl Holding {
    /// Nothing is held, and nothing was handed out.
    pub(crate) fn new(alloc: Global) -> Holding {
        Holding {
            held: Vec::new(alloc),
            last: None,
        }
    }

    pub(crate) fn count(&self) -> u64 {
        self.held.len() as u64
    }

    /// Whether a number was handed out or passed over.
    pub(crate) fn is_passed(&self, number: u64) -> bool {
        self.last >= Some(number)
    }

    /// The numbers that a unit passes over which begins with this one: from the first of them to the last.
    pub(crate) fn gap_before(&self, first: u64) -> Option<(u64, u64)> {
        let from = self.last?.saturating_add(1);
        if from < first {
            Some((from, first.saturating_sub(1)))
        } else {
            None
        }
    }

    /// Adds the packet a step takes; removes those of a unit it hands out or skips.
    pub(crate) fn go_on(&mut self, step: Step) -> Result<(), AllocError> {
        match step {
            Step::Taken(number) if !self.is_passed(number) => self.held.push(number)?,
            Step::Unit(_, last) => {
                self.held.retain(|number| *number > last);
                self.last = Some(last);
            }
            _ => {}
        }
        Ok(())
    }
}

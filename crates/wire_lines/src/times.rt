//! Clock rates and times.

use rtp_wire::{Frequency, MediaTime};
use std::cmp::Ordering;
use words_and_replies::{CommandLine, part};

/// `frequency RATE`: a clock rate again.
pub(crate) fn frequency(line: &mut CommandLine<'_>) {
    let rate = rate_of(line, line.rest());
    line.put(rate)
}

/// The clock rate that a word says.
fn rate_of(line: &mut CommandLine<'_>, word: &str) -> Frequency {
    line.value_or(word, Frequency::MICROS)
}

/// The next word, a time: `TICKS/RATE`.
fn time_of(line: &mut CommandLine<'_>) -> MediaTime {
    let (ticks, rate) = part(line.word(), '/');
    MediaTime::new(line.value::<u64>(ticks), rate_of(line, rate))
}

/// `micros TIME`: its whole microseconds.
pub(crate) fn micros(line: &mut CommandLine<'_>) {
    let time = time_of(line);
    match time.checked_rebase(Frequency::MICROS) {
        Some(_) => line.put(time.as_micros()),
        None => line.refuse("more than 64 bits of microseconds"),
    }
}

/// `compare TIME TIME`: how the first compares with the second.
pub(crate) fn comparison(line: &mut CommandLine<'_>) {
    let (first, second) = (time_of(line), time_of(line));
    line.put(match first.cmp(&second) {
        Ordering::Less => "less",
        Ordering::Equal => "equal",
        Ordering::Greater => "greater",
    })
}

/// `minus TIME TIME`: the difference, if there is one.
pub(crate) fn difference(line: &mut CommandLine<'_>) {
    let (first, second) = (time_of(line), time_of(line));
    match first.checked_sub(second) {
        Some(time) => line.put(format_args!("{}/{}", time.numer(), time.denom())),
        None => line.put("none"),
    }
}

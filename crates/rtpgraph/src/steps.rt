//! The steps of a run.

/// What a reply says of a receiving stream.
#[derive(Clone, Copy, Drop)]
pub(crate) enum Step {
    /// A datagram of this number was taken.
    Taken(u64),
    /// A datagram was refused: its number came before, or is too far below the greatest.
    Refused,
    /// A datagram of the stream has no payload that can be read.
    Damaged,
    /// Other bytes came: of no stream, or no datagram at all.
    Foreign,
    /// A unit of the packets between these numbers was handed out.
    Unit(u64, u64),
    /// A poll handed out nothing.
    Nothing,
}

/// The step of a line; None if it says nothing of a stream.
pub(crate) fn step_of(line: &str) -> Option<Step> {
    let mut words = line.split_whitespace();
    let (word, first, second) = (words.next()?, words.next(), words.next());
    match word {
        "taken" if number(first).is_some() => Some(Step::Taken(number(second)?)),
        "unit" => Some(Step::Unit(number(first)?, number(second)?)),
        "refused" if first.is_none() => Some(Step::Refused),
        "damaged" => Some(Step::Damaged),
        "foreign" | "unreadable" => Some(Step::Foreign),
        "none" => Some(Step::Nothing),
        _ => None,
    }
}

/// The number that a word is.
fn number(word: Option<&str>) -> Option<u64> {
    word?.parse::<u64>().ok()
}

//! Where things are in the picture, in units of its view box.

pub(crate) const WIDTH: u64 = 1000;

pub(crate) const HEIGHT: u64 = 520;

/// The sides of both plots.
pub(crate) const LEFT: u64 = 70;

pub(crate) const RIGHT: u64 = 985;

/// The plot of sequence numbers.
pub(crate) const TOP: u64 = 80;

pub(crate) const BOTTOM: u64 = 380;

/// The height of what came without a number of the stream.
pub(crate) const STRIP: u64 = 396;

/// The plot of packets that are held.
pub(crate) const HELD_TOP: u64 = 412;

pub(crate) const HELD_BOTTOM: u64 = 472;

/// What part of a length a part is of a whole, never more than all of it.
pub(crate) fn share(length: u64, part: u64, whole: u64) -> u64 {
    let share = part.saturating_mul(length).checked_div(whole);
    share.unwrap_or(0).min(length)
}

/// The horizontal position of the reply with this index, out of this many.
pub(crate) fn x_of(index: u64, replies: u64) -> u64 {
    let part = index.saturating_mul(2).saturating_add(1);
    LEFT.saturating_add(share(RIGHT - LEFT, part, replies.saturating_mul(2)))
}

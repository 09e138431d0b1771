//! The best of rows.

ghost use Rattle.std.specs.Prelude.{◌≡◌};
ghost use Rattle.std.specs.Option.{option_copied};
ghost use Rattle.sdp_formats_rounds.specs.Best.{best_row, better, is_reached, points_of};

use sdp_formats_rows::PayloadParams;

/// Whether there are points, and no fewer than the best so far.
fn is_reached(best: Option<usize>, points: Option<usize>) -> bool
    ensures { result ≡ is_reached best points }
{
    match (best, points) {
        (_, None) => false,
        (None, Some(_)) => true,
        (Some(best), Some(points)) => best <= points,
    }
}

fn points_of(row: &PayloadParams, best: Option<&PayloadParams>) -> Option<usize>
    ensures { result ≡ points_of row.now.spec (option_copied best.entry) }
{
    match best {
        Some(best) => row.match_score(best),
        None => None,
    }
}

/// The best match of a row so far with one more.
pub fn better<'a>(
    row: &PayloadParams,
    best: Option<&'a PayloadParams>,
    other: &'a PayloadParams,
) -> Option<&'a PayloadParams>
    ensures { option_copied result ≡ better row.now.spec (option_copied best.entry) other.now }
{
    if is_reached(points_of(row, best), row.match_score(other)) {
        return Some(other);
    }
    best
}

/// The row that matches a row best: the last of the greatest score, or None if none matches.
pub fn best_row<'a>(row: &PayloadParams, rows: &'a [PayloadParams]) -> Option<&'a PayloadParams>
    ensures { option_copied result ≡ best_row row.now.spec rows.now }
{
    let mut best = None;
    for other in rows {
        best = better(row, best, other);
    }
    best
}

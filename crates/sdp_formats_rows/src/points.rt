//! The points of a match.

ghost use Rattle.std.specs.Prelude.{◌≡◌};
ghost use Rattle.sdp_formats_rows.specs.Points.{distance, level_points, points_if};

pub(crate) fn distance(place: usize, other: usize) -> usize
    ensures { result ≡ distance place other }
{
    place.abs_diff(other)
}

/// These points where a test holds, else no match.
pub fn points_if(holds: bool, points: usize) -> Option<usize>
    ensures { result ≡ points_if holds points }
{
    if holds { Some(points) } else { None }
}

/// 100 points less the distance of the levels with these indices.
pub(crate) fn level_points(place: usize, other: usize) -> usize
    ensures { result ≡ level_points place other }
{
    100usize.saturating_sub(distance(place, other))
}

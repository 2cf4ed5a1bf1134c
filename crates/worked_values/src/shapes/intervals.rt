//! Values and intervals.

use geo_tests::in_interval;
use limits_text::Interval;

/// A low and a high end, each with whether it is inside.
type Ends = (Option<(i64, bool)>, Option<(i64, bool)>);

const CLOSED: Ends = (Some((-5, true)), Some((7, true)));

const OPEN: Ends = (Some((-5, false)), Some((7, false)));

const ABOVE: Ends = (Some((-5, false)), None);

const UP_TO: Ends = (None, Some((7, true)));

const ALL: Ends = (None, None);

/// Ends, a value, and whether it is in their interval.
const ROWS: [(Ends, i128, bool); 19] = [
    (CLOSED, -5, true),
    (CLOSED, 7, true),
    (CLOSED, -6, false),
    (CLOSED, 8, false),
    (OPEN, -5, false),
    (OPEN, 7, false),
    (OPEN, -4, true),
    (OPEN, 6, true),
    (ABOVE, -5, false),
    (ABOVE, -4, true),
    (ABOVE, i128::MAX, true),
    (ABOVE, i128::MIN, false),
    (UP_TO, 7, true),
    (UP_TO, 8, false),
    (UP_TO, i128::MIN, true),
    (UP_TO, i128::MAX, false),
    (ALL, 0, true),
    (ALL, i128::MIN, true),
    ((Some((7, true)), Some((-5, true))), 0, false),
];

/// An end, where there is one, and whether it is inside.
fn end(told: Option<(i64, bool)>) -> (Option<i64>, bool) {
    match told {
        Some((place, is_inside)) => (Some(place), is_inside),
        None => (None, false),
    }
}

/// Whether a value is judged so, and the other way round where the interval is negated.
fn is_right(ends: Ends, v: i128, inside: bool) -> bool {
    let (low, low_in) = end(ends.0);
    let (high, high_in) = end(ends.1);
    let plain = Interval {
        low,
        low_in,
        high,
        high_in,
        negated: false,
    };
    let negated = Interval {
        negated: true,
        ..plain
    };
    in_interval(v, &plain) == inside && in_interval(v, &negated) != inside
}

pub fn values_lie_in_intervals() -> bool {
    let mut right = true;
    for &(ends, v, inside) in &ROWS {
        right &= is_right(ends, v, inside);
    }
    right
}

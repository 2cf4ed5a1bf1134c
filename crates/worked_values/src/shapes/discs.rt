//! Points and discs.

use cloud_points::Point;
use geo_tests::{Disc, Shape, in_disc};

/// 0.5 around (1, -2).
const SMALL: Disc = Disc {
    x: 1_000_000_000,
    y: -2_000_000_000,
    radius: 500_000_000,
};

const SPOT: Disc = Disc {
    x: 3,
    y: 4,
    radius: 0,
};

const NONE: Disc = Disc {
    x: 3,
    y: 4,
    radius: -5,
};

const WIDEST: Disc = Disc {
    x: i64::MIN,
    y: i64::MIN,
    radius: i64::MAX,
};

/// A disc, a point, and whether the point is in it.
const ROWS: [(Disc, [i64; 2], bool); 18] = [
    (SMALL, [1_000_000_000, -2_000_000_000], true),
    (SMALL, [1_500_000_000, -2_000_000_000], true),
    (SMALL, [1_500_000_001, -2_000_000_000], false),
    (SMALL, [1_000_000_000, -2_500_000_000], true),
    (SMALL, [1_000_000_000, -2_500_000_001], false),
    // 3, 4 and 5
    (SMALL, [1_300_000_000, -1_600_000_000], true),
    (SMALL, [700_000_000, -2_400_000_000], true),
    (SMALL, [1_300_000_001, -1_600_000_000], false),
    (SMALL, [1_300_000_000, -1_599_999_999], false),
    // in the square around it alone
    (SMALL, [1_400_000_000, -1_600_000_000], false),
    (SPOT, [3, 4], true),
    (SPOT, [3, 5], false),
    (NONE, [3, 4], false),
    (WIDEST, [-1, i64::MIN], true),
    (WIDEST, [0, i64::MIN], false),
    (WIDEST, [i64::MIN, -1], true),
    (WIDEST, [-1, -1], false),
    (WIDEST, [i64::MAX, i64::MAX], false),
];

/// Whether a point is judged so, by its disc and by the shape of that, at any height.
fn is_right(disc: Disc, at: [i64; 2], inside: bool) -> bool {
    let mut point = Point::zero();
    (point.x, point.y, point.z) = (at[0], at[1], i64::MAX);
    let at_once = in_disc(at[0], at[1], &disc) == inside;
    at_once && Shape::Disc(disc).holds(&point) == inside
}

pub fn points_lie_in_discs() -> bool {
    let mut right = true;
    for &(disc, at, inside) in &ROWS {
        right &= is_right(disc, at, inside);
    }
    right
}

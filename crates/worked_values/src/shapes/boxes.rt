//! Points and boxes.

use cloud_points::Point;
use geo_tests::{Shape, in_box};
use limits_text::Box3;

const FLAT: Box3 = Box3 {
    x: (-10, 20),
    y: (30, 40),
    z: None,
};

const DEEP: Box3 = Box3 {
    x: (-10, 20),
    y: (30, 40),
    z: Some((-5, 5)),
};

/// A point: no box is less than this one.
const SPOT: Box3 = Box3 {
    x: (7, 7),
    y: (i64::MIN, i64::MAX),
    z: Some((0, 0)),
};

/// A box, a point, and whether the point is in it.
const ROWS: [(Box3, [i64; 3], bool); 18] = [
    (FLAT, [-10, 30, i64::MIN], true),
    (FLAT, [20, 40, i64::MAX], true),
    (FLAT, [5, 35, 0], true),
    (FLAT, [-11, 35, 0], false),
    (FLAT, [21, 35, 0], false),
    (FLAT, [5, 29, 0], false),
    (FLAT, [5, 41, 0], false),
    (FLAT, [i64::MIN, 35, 0], false),
    (DEEP, [-10, 40, -5], true),
    (DEEP, [20, 30, 5], true),
    (DEEP, [5, 35, -6], false),
    (DEEP, [5, 35, 6], false),
    (DEEP, [21, 41, 6], false),
    (DEEP, [5, 35, i64::MAX], false),
    (SPOT, [7, i64::MIN, 0], true),
    (SPOT, [7, i64::MAX, 0], true),
    (SPOT, [8, 0, 0], false),
    (SPOT, [7, 0, -1], false),
];

/// Whether a point is judged so, by its box and by the shape of that.
fn is_right(limits: Box3, at: [i64; 3], inside: bool) -> bool {
    let mut point = Point::zero();
    (point.x, point.y, point.z) = (at[0], at[1], at[2]);
    let at_once = in_box(&point, &limits) == inside;
    at_once && Shape::Box(limits).holds(&point) == inside
}

pub fn points_lie_in_boxes() -> bool {
    let mut right = true;
    for &(limits, at, inside) in &ROWS {
        right &= is_right(limits, at, inside);
    }
    right
}

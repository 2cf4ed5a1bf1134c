//! Points at the border of polygons.

use super::Row;
use crate::shapes::rings::MOST;

/// Points on edges, on corners, and beside them.
pub(super) const BORDERS: [Row; 30] = [
    // A square whose first corner isn't told again.
    ((0, 0), &[(0, 0), (4, 0), (4, 4), (0, 4)], true),
    ((0, 3), &[(0, 0), (4, 0), (4, 4), (0, 4)], true),
    ((-1, 2), &[(0, 0), (4, 0), (4, 4), (0, 4)], false),
    ((5, 4), &[(0, 0), (4, 0), (4, 4), (0, 4)], false),
    ((2, 5), &[(0, 0), (4, 0), (4, 4), (0, 4)], false),
    // A slanted edge, and a nanounit to each side of it.
    (
        (1_000_000_000, 1_000_000_000),
        &[
            (0, 0),
            (3_000_000_000, 3_000_000_000),
            (0, 6_000_000_000),
            (0, 0),
        ],
        true,
    ),
    (
        (1_000_000_001, 1_000_000_000),
        &[
            (0, 0),
            (3_000_000_000, 3_000_000_000),
            (0, 6_000_000_000),
            (0, 0),
        ],
        false,
    ),
    (
        (999_999_999, 1_000_000_000),
        &[
            (0, 0),
            (3_000_000_000, 3_000_000_000),
            (0, 6_000_000_000),
            (0, 0),
        ],
        true,
    ),
    // Steps: level edges at the height of the point, to its east, to its west, and below it.
    (
        (1, 2),
        &[
            (0, 0),
            (6, 0),
            (6, 4),
            (4, 4),
            (4, 2),
            (2, 2),
            (2, 4),
            (0, 4),
            (0, 0),
        ],
        true,
    ),
    (
        (3, 2),
        &[
            (0, 0),
            (6, 0),
            (6, 4),
            (4, 4),
            (4, 2),
            (2, 2),
            (2, 4),
            (0, 4),
            (0, 0),
        ],
        true,
    ),
    (
        (3, 3),
        &[
            (0, 0),
            (6, 0),
            (6, 4),
            (4, 4),
            (4, 2),
            (2, 2),
            (2, 4),
            (0, 4),
            (0, 0),
        ],
        false,
    ),
    (
        (5, 2),
        &[
            (0, 0),
            (6, 0),
            (6, 4),
            (4, 4),
            (4, 2),
            (2, 2),
            (2, 4),
            (0, 4),
            (0, 0),
        ],
        true,
    ),
    (
        (-1, 2),
        &[
            (0, 0),
            (6, 0),
            (6, 4),
            (4, 4),
            (4, 2),
            (2, 2),
            (2, 4),
            (0, 4),
            (0, 0),
        ],
        false,
    ),
    // Two triangles that touch in a corner.
    (
        (2, 2),
        &[(0, 0), (2, 2), (4, 0), (4, 4), (2, 2), (0, 4), (0, 0)],
        true,
    ),
    (
        (2, 3),
        &[(0, 0), (2, 2), (4, 0), (4, 4), (2, 2), (0, 4), (0, 0)],
        false,
    ),
    (
        (1, 2),
        &[(0, 0), (2, 2), (4, 0), (4, 4), (2, 2), (0, 4), (0, 0)],
        true,
    ),
    // Twice round is outside, but for the border.
    (
        (1, 1),
        &[
            (0, 0),
            (2, 0),
            (2, 2),
            (0, 2),
            (0, 0),
            (2, 0),
            (2, 2),
            (0, 2),
            (0, 0),
        ],
        false,
    ),
    (
        (2, 1),
        &[
            (0, 0),
            (2, 0),
            (2, 2),
            (0, 2),
            (0, 0),
            (2, 0),
            (2, 2),
            (0, 2),
            (0, 0),
        ],
        true,
    ),
    // A corner, a way there and back, and no corner.
    ((7, 7), &[(7, 7)], true),
    ((7, 8), &[(7, 7)], false),
    ((2, 1), &[(0, 0), (4, 2), (0, 0)], true),
    ((2, 2), &[(0, 0), (4, 2), (0, 0)], false),
    ((0, 0), &[], false),
    // The outermost corners and points.
    (
        (i64::MIN, 0),
        &[(-MOST, -MOST), (MOST, -MOST), (MOST, MOST), (-MOST, MOST)],
        false,
    ),
    (
        (i64::MAX, i64::MAX),
        &[(-MOST, -MOST), (MOST, -MOST), (MOST, MOST), (-MOST, MOST)],
        false,
    ),
    (
        (MOST, -MOST),
        &[(-MOST, -MOST), (MOST, -MOST), (MOST, MOST), (-MOST, MOST)],
        true,
    ),
    (
        (MOST + 1, 0),
        &[(-MOST, -MOST), (MOST, -MOST), (MOST, MOST), (-MOST, MOST)],
        false,
    ),
    ((0, 0), &[(-MOST, -MOST), (MOST, MOST), (-MOST, MOST)], true),
    (
        (1, 0),
        &[(-MOST, -MOST), (MOST, MOST), (-MOST, MOST)],
        false,
    ),
    (
        (-1, 0),
        &[(-MOST, -MOST), (MOST, MOST), (-MOST, MOST)],
        true,
    ),
];

//! Views that are parted by squares, and thinned by voxels.

use crate::gathers::{Placed, is_gathered};
use crate::points::layout_of;
use cloud_points::{Dim, Point};
use std::alloc::Global;
use tile_filters::cell_of;
use whole_filters::{EdgeLength, Gathering, Squares};

/// The X, Y and Z of the points of some views, in nanounits.
type Held = &'static [&'static [(i64, i64, i64)]];

/// The X of the points of some views.
type Told = &'static [&'static [i64]];

const ONE: i64 = 1_000_000_000;

const TEN: i64 = 10_000_000_000;

/// A value, an origin and a length, and the number of the cell.
const CELLS: [(i64, i64, i64, i128); 7] = [
    (9_990_000_000, 0, TEN, 0),
    (TEN, 0, TEN, 1),
    (-10_000_000, 0, TEN, -1),
    (-TEN, 0, TEN, -1),
    (4, 5, 10, -1),
    // differences that no i64 holds
    (i64::MAX, i64::MIN, 1, 18_446_744_073_709_551_615),
    (i64::MIN, i64::MAX, 2, -9_223_372_036_854_775_808),
];

/// Views, and what comes of them by squares of length 10 with a corner at 0.
const PARTED: [(Held, Told); 3] = [
    (
        &[&[
            (ONE, ONE, 0),
            (-10_000_000, 5 * ONE, 0),
            (9_990_000_000, 9_990_000_000, 0),
            (TEN, 0, 0),
        ]],
        &[&[ONE, 9_990_000_000], &[-10_000_000], &[TEN]],
    ),
    // of one X, by their Y
    (
        &[&[(1, TEN, 0), (2, -1, 0), (3, TEN, 0)], &[(4, 0, 0)], &[]],
        &[&[1, 3], &[2], &[4]],
    ),
    (&[&[]], &[]),
];

/// Views, and what comes of them by voxels of edge 1.
const THINNED: [(Held, Told); 2] = [
    (
        &[&[
            (200_000_000, 200_000_000, 200_000_000),
            (900_000_000, 900_000_000, 900_000_000),
            (-100_000_000, 200_000_000, 200_000_000),
            (300_000_000, 300_000_000, ONE),
        ]],
        &[&[200_000_000, -100_000_000, 300_000_000]],
    ),
    (
        &[&[], &[(1, 1, 1)], &[(2, 1, 1), (3, 1, 1)]],
        &[&[], &[1], &[2]],
    ),
];

impl Placed for (i64, i64, i64) {
    fn point(&self) -> Point {
        let mut point = Point::zero();
        (point.x, point.y, point.z) = *self;
        point
    }
}

/// Whether this comes of the views of each row.
fn are_gathered(alloc: Global, how: &Gathering, rows: &[(Held, Told)]) -> bool {
    let layout = layout_of(&[Dim::X, Dim::Y, Dim::Z]);
    let mut right = true;
    for &(views, told) in rows {
        right &= is_gathered(alloc, &layout, views, *how, told);
    }
    right
}

pub(crate) fn values_lie_in_cells() -> bool {
    let mut right = true;
    for &(v, origin, length, cell) in &CELLS {
        right &= 1 <= length && cell_of(v, origin, length) == cell;
    }
    right
}

pub(crate) fn views_are_parted_by_squares(alloc: Global) -> bool {
    let squares = Squares {
        length: EdgeLength::new(TEN),
        x: 0,
        y: 0,
    };
    are_gathered(alloc, &Gathering::Squares(squares), &PARTED)
}

pub(crate) fn views_are_thinned_by_voxels(alloc: Global) -> bool {
    let voxels = Gathering::Voxels(EdgeLength::new(ONE));
    are_gathered(alloc, &voxels, &THINNED)
}

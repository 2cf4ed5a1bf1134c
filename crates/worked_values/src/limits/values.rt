//! What texts of limits say, in nanounits.

use super::texts::error_at;
use crate::pieces::add_times;
use limits_text::{
    Box3, Interval, parse_bounds, parse_point, parse_polygon, parse_ranges, texts_are_read,
    texts_have_one_fault,
};
use std::alloc::Global;

const ONE: i64 = 1_000_000_000;

/// The ends of two ranges.
const INTERVALS: [(&str, Interval); 2] = [
    (
        "Class_1",
        Interval {
            low: Some(2 * ONE),
            low_in: false,
            high: None,
            high_in: true,
            negated: true,
        },
    ),
    (
        "Z",
        Interval {
            low: Some(ONE),
            low_in: true,
            high: Some(-ONE / 2),
            high_in: false,
            negated: false,
        },
    ),
];

/// The corners of the polygon that is told.
const CORNERS: [(i64, i64); 4] = [(0, 0), (ONE, 0), (ONE, -ONE), (0, 0)];

pub fn values_are_told(alloc: Global) -> bool {
    let flat = Box3 {
        x: (0, ONE),
        y: (-ONE, -ONE),
        z: None,
    };
    let high = Box3 {
        z: Some((2 * ONE, 3 * ONE)),
        ..flat
    };
    let right = parse_point(" PoInT(1 -.5 )\n") == Ok((ONE, -ONE / 2))
        && parse_bounds("([0,1],[ -1, -1 ])") == Ok(flat)
        && parse_bounds("([0, 1], [-1, -1], [2, 3])") == Ok(high);
    match parse_polygon(alloc, "polygon((0 0,1 0,1 -1,0 0.))") {
        Ok(ring) => right && ring.as_slice() == CORNERS.as_slice(),
        Err(_) => false,
    }
}

pub fn ranges_are_told(alloc: Global) -> bool {
    let Ok(list) = parse_ranges(alloc, " Class_1 ! (2:] , Z[1:-.5)") else {
        return false;
    };
    let mut right = list.as_slice().len() == INTERVALS.len();
    for (range, (name, interval)) in list.as_slice().iter().zip(INTERVALS.iter()) {
        right &= range.name.as_str() == *name && range.interval == *interval;
    }
    right
}

/// A text of so many equal parts with `,` between them, and what stands before and behind.
fn repeated(alloc: Global, before: &str, part: &str, count: usize, behind: &str) -> String {
    let mut text = String::new(alloc);
    add_times(&mut text, before, 1);
    for place in 0..count {
        add_times(&mut text, ",", place.min(1));
        add_times(&mut text, part, 1);
    }
    add_times(&mut text, behind, 1);
    text
}

/// How many ranges a text has, and where its fault is.
const RANGES: [(usize, Option<usize>); 2] = [(64, None), (65, Some(320))];

/// How many corners a polygon has, and where the fault of its text is.
const POLYGONS: [(usize, Option<usize>); 2] = [(1024, None), (1025, Some(4105))];

pub fn limits_of_parts_hold(alloc: Global) -> bool {
    texts_are_read();
    texts_have_one_fault();
    let mut right = true;
    for &(count, place) in &RANGES {
        let text = repeated(alloc, "", "Z[:]", count, "");
        right &= parse_ranges(alloc, text.as_str()).err() == error_at(place);
    }
    for &(count, place) in &POLYGONS {
        let text = repeated(alloc, "POLYGON((", "0 1", count, "))");
        right &= parse_polygon(alloc, text.as_str()).err() == error_at(place);
    }
    right
}

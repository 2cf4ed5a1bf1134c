//! Points in views of each layout.

use cloud_points::{Dim, Layout, Point};
use las_header::Format;
use point_formats::dims;
use std::alloc::{AllocError, Global};
use whole_filters::Views;

const FORMATS: [Format; 7] = [
    Format::F0,
    Format::F1,
    Format::F2,
    Format::F3,
    Format::F6,
    Format::F7,
    Format::F8,
];

/// A point with another number than 0 in every dimension; words and numbers with a sign have their highest bit.
const FULL: Point = Point {
    x: i64::MIN,
    y: -2,
    z: 3,
    scan_angle_rank: -4,
    gps_time: 0xC000_0000_0000_0001,
    extra: [5, -6, 7, -8, 9, -10, 11, -12],
    intensity: 0xFFFF,
    point_source_id: 0x8001,
    red: 0x8002,
    green: 0x8003,
    blue: 0x8004,
    infrared: 0x8005,
    return_number: 1,
    number_of_returns: 2,
    scan_direction_flag: 1,
    edge_of_flight_line: 1,
    classification: 0xFF,
    synthetic: 1,
    key_point: 1,
    withheld: 1,
    overlap: 1,
    scan_channel: 3,
    user_data: 0x80,
};

/// The layout of a format with so many extra dimensions.
fn layout_with(format: Format, extras: u8) -> Layout {
    let mut layout = dims(format);
    for k in 0..extras {
        layout.add(Dim::Extra(k));
    }
    layout
}

/// A view of a point of a layout, and of two points that have more than its dimensions.
fn held(alloc: Global, layout: &Layout, within: &Point) -> Result<Views, AllocError> {
    let mut held = Views::none(alloc, layout);
    held.push(within)?;
    held.push_all(&[FULL, *within])?;
    Ok(held)
}

/// Whether points of a layout, and one with more than its dimensions, are held as they are.
fn are_held(alloc: Global, layout: &Layout) -> Result<bool, AllocError> {
    let mut within = FULL;
    layout.clear(&mut within);
    let held = held(alloc, layout, &within)?;
    if held.views() != 0 || held.len(0) != 3 {
        return Ok(false);
    }
    let right = (held.point(0, 0) == within) & (held.point(0, 2) == within);
    Ok(right & (held.point(0, 1) == FULL))
}

pub(crate) fn points_of_each_format_are_held(alloc: Global) -> bool {
    let mut right = true;
    for &format in &FORMATS {
        for &extras in &[0, 3, 8] {
            right &= are_held(alloc, &layout_with(format, extras)) == Ok(true);
        }
    }
    right
}

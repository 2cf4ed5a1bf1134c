//! Texts of limits: ranges, boxes, polygons and points.
#![tactic(auto)]

mod bounds;
mod control;
mod faults;
mod laws;
mod point;
mod polygon;
mod ranges;
mod scan;
mod shapes;
mod steps;

pub use bounds::parse_bounds;
pub use faults::{TextErr, TextFault};
pub use laws::{
    bounds_or_fault, faulty_texts_say_nothing, point_or_fault, polygon_or_fault, ranges_or_fault,
    texts_are_read, texts_have_one_fault,
};
pub use point::parse_point;
pub use polygon::parse_polygon;
pub use ranges::parse_ranges;
pub use shapes::{Box3, Interval, NamedRange, Polygon, RangeList};

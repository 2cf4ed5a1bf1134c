//! Whether a value lies in an interval, and a point in a box, a disc, a polygon or a shape.
#![tactic(auto)]

mod area;
mod boxes;
mod discs;
mod edges;
mod extents;
mod intervals;
mod laws;
mod limits;
mod polygons;
mod shape;

pub use area::Area;
pub use boxes::in_box;
pub use discs::{Disc, in_disc};
pub use intervals::{Ends, in_interval};
pub use laws::{rectangles_are_boxes, rings_are_round, rings_lie_in_their_extent};
pub use limits::{Limit, Limits};
pub use polygons::in_polygon;
pub use shape::Shape;

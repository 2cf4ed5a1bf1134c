//! What lies in intervals, boxes, discs, polygons and shapes.

mod boxes;
mod discs;
mod intervals;
mod polygons;
mod rings;

use check_report::{Report, checks};
use std::alloc::Global;

/// Tells of the checks of shapes.
pub fn tell(rt: &HostRuntime, alloc: Global, report: &mut Report) {
    checks! { rt, report;
        intervals::values_lie_in_intervals();
        boxes::points_lie_in_boxes();
        discs::points_lie_in_discs();
        polygons::points_lie_in_polygons(alloc);
        polygons::borders_are_inside(alloc);
    }
}

//! Texts of limits, and what they say.

mod texts;
mod values;

use check_report::{Report, checks};
use std::alloc::Global;

/// Tells of the checks of limits.
pub fn tell(rt: &HostRuntime, alloc: Global, report: &mut Report) {
    checks! { rt, report;
        texts::ranges_are_read(alloc);
        texts::boxes_are_read();
        texts::polygons_are_read(alloc);
        texts::points_are_read();
        values::values_are_told(alloc);
        values::ranges_are_told(alloc);
        values::limits_of_parts_hold(alloc);
    }
}

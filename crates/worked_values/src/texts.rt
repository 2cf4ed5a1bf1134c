//! Options that are lists, and lines of points.

mod files;
mod lists;

use check_report::{Report, checks};
use std::alloc::Global;

/// Tells of the checks of texts.
pub fn tell(rt: &HostRuntime, alloc: Global, report: &mut Report) {
    checks! { rt, report;
        lists::columns_are_read(alloc);
        lists::fields_are_read(alloc);
        lists::ferries_are_read(alloc);
        lists::extra_dims_are_read(alloc);
        lists::groups_are_read();
        lists::sixty_four_columns_are_the_most(alloc);
        files::points_become_lines(alloc);
        files::a_failed_sink_is_given_back(alloc);
    }
}

//! Generated points, and their files.

mod files;
mod points;

use check_report::{Report, checks};
use std::alloc::Global;

/// Tells of the checks of generated points.
pub fn tell(rt: &HostRuntime, alloc: Global, report: &mut Report) {
    checks! { rt, report;
        points::points_are_made_of_their_places();
        files::files_have_their_header_and_records(alloc);
        files::a_failed_call_keeps_no_file(alloc);
    }
}

//! LAS files that are written, and what goes over into them from files that are read.

mod files;
mod forwarded;
mod samples;

use check_report::{Report, checks};
use std::alloc::Global;

/// Tells of the checks of written files.
pub fn tell(rt: &HostRuntime, alloc: Global, report: &mut Report) {
    checks! { rt, report;
        files::a_file_has_its_header_and_its_records(alloc);
        files::a_file_of_an_older_version_has_a_shorter_block(alloc);
        files::extra_dimensions_stand_behind_the_format(alloc);
        files::a_point_without_a_record_is_refused(alloc);
        files::a_failed_sink_is_told(alloc);
        forwarded::fields_are_given_or_go_over_or_are_the_defaults(alloc);
        forwarded::a_file_is_written_again_as_it_was(alloc);
        forwarded::evlrs_go_over_into_files_of_1_4_alone(alloc);
    }
}

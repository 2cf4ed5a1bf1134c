//! Headers, lists of records, records of points, and files that are read.

mod headers;
mod lists;
mod readers;
mod records;

use check_report::{Report, checks};
use std::alloc::Global;

/// Tells of the checks of LAS files.
pub fn tell(rt: &HostRuntime, alloc: Global, report: &mut Report) {
    checks! { rt, report;
        headers::a_header_of_two_points_is_read();
        headers::the_first_fault_is_told();
        headers::a_scale_is_the_decimal_of_its_word();
        headers::a_written_header_is_read_again();
        lists::records_are_read_and_written_back(alloc);
        lists::hostile_vlrs_are_refused(alloc);
        lists::hostile_evlrs_are_refused(alloc);
        lists::a_failed_read_is_no_fault_of_the_file(alloc);
        records::records_stand_for_points();
        records::points_are_written_as_records();
        readers::an_offset_may_be_a_third(alloc);
        readers::the_lists_of_a_file_are_given(alloc);
        readers::extra_dimensions_are_read(alloc);
        readers::a_value_out_of_range_ends_a_file(alloc);
    }
}

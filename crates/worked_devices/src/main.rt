//! Tries the files and streams of the system in the folder that it runs in, and says what comes as it should.
#![tactic(auto)]

mod bent;
mod outputs;
mod reads;
mod refused;
mod streams;
mod system;

use check_report::{Report, checks};
use std::process::ExitCode;

fn main(rt: HostRuntime) -> ExitCode {
    let alloc = rt.alloc();
    let mut report = Report::new();
    checks! { &rt, report;
        outputs::a_file_is_written_in_pieces_and_read_back(&rt);
        outputs::a_part_file_that_is_there_stays(&rt);
        outputs::no_part_file_is_left(&rt);
        outputs::only_a_regular_file_is_replaced(&rt);
        outputs::what_comes_to_stand_at_a_name_stays(&rt);
        outputs::links_are_followed_and_modes_kept(&rt);
        refused::the_file_that_is_printed_to_is_no_output(&rt);
        refused::a_part_file_is_never_open_to_others(&rt);
        refused::a_name_that_cannot_be_looked_at_is_refused(&rt);
        refused::a_file_that_was_not_written_is_not_kept(&rt);
        reads::interrupted_reads_are_tried_again(alloc);
        streams::pieces_are_written_and_flushed(&rt);
        streams::pieces_without_room_are_refused(&rt);
        streams::the_streams_of_the_program_take_nothing(&rt);
    }
    report.end(&rt)
}

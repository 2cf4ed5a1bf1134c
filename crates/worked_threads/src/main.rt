//! Tries whether the stages of a run go on at once on several threads, and says what comes as it should. No clause says so: the
//! contract of a function that may wait is met by a body that never returns, and by one that has all turns on one thread.
//!
//! It stands above the top call, and above the libraries of nets between threads.
#![tactic(auto)]

mod depths;
mod meetings;
mod queues;
mod runs;
mod streams;
mod trials;
mod watched;
mod workers;

use check_report::{Report, checks};
use std::process::ExitCode;

fn main(rt: HostRuntime) -> ExitCode {
    let alloc = rt.alloc();
    let mut report = Report::new();
    checks! { &rt, report;
        depths::an_expression_2000_deep_runs_on_a_worker(&rt, alloc);
        meetings::two_stages_wait_for_one_another(&rt, alloc);
        queues::a_pop_of_a_waiting_queue_gives_its_item(&rt, alloc);
        streams::lines_are_written_before_the_last_record_is_read(&rt, alloc);
        trials::a_trial_is_the_same_by_any_number_of_workers(&rt, alloc);
        workers::a_worker_has_its_node_done(&rt, alloc);
        workers::a_worker_stops_at_a_fault(&rt, alloc);
    }
    report.end(&rt)
}

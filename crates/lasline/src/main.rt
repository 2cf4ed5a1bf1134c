//! The program: its words, the files of the system, its output, and the filters and tallies that it ships.
#![tactic(auto)]

use lasline_top::{Plugs, run_program};
use plug_stages::{Bounds, BoxedFilter, BoxedTally, Classes, Spike};
use real_files::{RealFiles, RealStream, words};
use std::alloc::AllocError;
use std::process::ExitCode;

fn main(rt: HostRuntime) -> ExitCode {
    let alloc = rt.alloc();
    let mut files = RealFiles::new(&rt, alloc);
    let mut out = RealStream::new(rt.stdout());
    let mut err = RealStream::new(rt.stderr());
    let mut plugs = Plugs {
        filters: Vec::new(alloc),
        tallies: Vec::new(alloc),
    };
    let spike: Result<_, _> = Box::new(alloc, Spike::new());
    let bounds: Result<_, _> = Box::new(alloc, Bounds::new());
    let classes: Result<_, _> = Box::new(alloc, Classes::new());
    let pushed = match (spike, bounds, classes) {
        (Ok(spike), Ok(bounds), Ok(classes)) => {
            let spike: BoxedFilter = spike;
            let bounds: BoxedTally = bounds;
            let classes: BoxedTally = classes;
            let first: Result<_, _> = plugs.filters.push(Some(spike));
            let second: Result<_, _> = plugs.tallies.push(Some(bounds));
            let third: Result<_, _> = plugs.tallies.push(Some(classes));
            first.is_ok() && second.is_ok() && third.is_ok()
        }
        _ => false,
    };
    let words = if pushed { words(&rt) } else { Err(AllocError) };
    let code = run_program(
        &rt, alloc, words, &mut files, &mut out, &mut err, &mut plugs,
    );
    ExitCode::from(code)
}

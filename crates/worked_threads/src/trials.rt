//! Trials by several workers.

use crate::runs::run_line;
use file_devices::MemFiles;
use lasline_top::AlwaysOpen;
use std::alloc::{AllocError, Global};
use std::sync::Wait;
use std::thread::Threads;

/// Trials of the same points, the first by one worker.
const LINES: [&str; 5] = [
    "trial 100000 --workers 1",
    "trial 100000 --workers 2",
    "trial 100000 --workers 4",
    "trial 100000 --workers 32",
    "trial 100000 --workers 4 --patience 0",
];

/// How many bytes an output has room for.
const ROOM: u64 = 10_000_000;

/// The files that a trial keeps; None where it doesn't end with 0.
fn trial<R: Threads + Wait + Sync>(
    rt: &R,
    alloc: Global,
    line: &str,
) -> Result<Option<MemFiles>, AllocError> {
    let mut files = MemFiles::new(alloc, Vec::new(alloc), ROOM, ROOM, Vec::new(alloc));
    let code = run_line(rt, alloc, line, &mut files, &AlwaysOpen)?;
    Ok(if code == 0 { Some(files) } else { None })
}

/// Whether both have the file, with the same bytes.
fn have_same(a: &MemFiles, b: &MemFiles, name: &str) -> bool {
    a.contents(name).is_some() && a.contents(name) == b.contents(name)
}

/// The first of the trials that doesn't keep the files of the one by one worker.
fn first_other<R: Threads + Wait + Sync>(
    rt: &R,
    alloc: Global,
) -> Result<Option<usize>, AllocError> {
    let Some(alone) = trial(rt, alloc, LINES[0])? else {
        return Ok(Some(0));
    };
    for i in 1..LINES.len() {
        let Some(files) = trial(rt, alloc, LINES[i])? else {
            return Ok(Some(i));
        };
        if !have_same(&alone, &files, "trial.las") || !have_same(&alone, &files, "trial.txt") {
            return Ok(Some(i));
        }
    }
    Ok(None)
}

/// A trial of 100,000 points keeps the same files by any number of workers, also where none of them has patience.
pub fn a_trial_is_the_same_by_any_number_of_workers<R: Threads + Wait + Sync>(
    rt: &R,
    alloc: Global,
) -> bool {
    first_other(rt, alloc) == Ok(None)
}

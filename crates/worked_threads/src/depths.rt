//! Expressions of many levels on several threads.

use crate::runs::{files_of, run_line};
use lasline_top::AlwaysOpen;
use recorded_files::two_points;
use std::alloc::{AllocError, Global};
use std::sync::Wait;
use std::thread::Threads;

/// What is kept of the two points by a condition that the first one meets.
const FIRST: &str = "\"X\",\"Y\",\"Z\"\n1.000,2.000,3.000\n";

/// A pipeline with a condition of 2,000 terms, each within one level more.
fn deep_pipeline(alloc: Global) -> Result<String, AllocError> {
    let mut text = String::from_str(
        alloc,
        r#"["in.las",{"type":"filters.expression","expression":"X"#,
    )?;
    for _ in 1..2_000 {
        text.push_str("+X")?;
    }
    text.push_str(r#" > 0"},"o.txt"]"#)?;
    Ok(text)
}

/// The exit code of a run of it with these words, and whether it kept the first point alone.
fn run_deep<R: Threads + Wait + Sync>(
    rt: &R,
    alloc: Global,
    line: &str,
) -> Result<(u8, bool), AllocError> {
    let pipeline = deep_pipeline(alloc)?;
    let mut files = files_of(alloc, pipeline.as_str(), &two_points())?;
    let code = run_line(rt, alloc, line, &mut files, &AlwaysOpen)?;
    Ok((code, files.contents("o.txt") == Some(FIRST.as_bytes())))
}

/// A worker has as much room for levels as the thread of the caller.
pub fn an_expression_2000_deep_runs_on_a_worker<R: Threads + Wait + Sync>(
    rt: &R,
    alloc: Global,
) -> bool {
    let mut right = true;
    for line in ["run p.json --workers 1", "run p.json --workers 4"] {
        right &= run_deep(rt, alloc, line) == Ok((0, true));
    }
    right
}

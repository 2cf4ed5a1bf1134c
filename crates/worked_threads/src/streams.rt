//! A run that writes while it reads.

use crate::runs::{files_of, run_line};
use crate::watched::WatchedFiles;
use lasline_top::AlwaysOpen;
use recorded_files::two_points;
use std::alloc::{AllocError, Global};
use std::sync::Wait;
use std::thread::Threads;

/// The first line of the text that is written.
const HEADING: &str = "\"X\",\"Y\",\"Z\"\n";

/// A LAS file of two points whose header tells of 1,000.
fn two_of_thousand() -> [u8; 415] {
    let mut two = two_points();
    for at in [107usize, 111, 247, 255] {
        two[at..at + 4].copy_from_slice(&1_000u32.to_le_bytes());
    }
    two
}

/// A LAS file of 1,000 points: two points over and over.
fn thousand_points(alloc: Global) -> Result<Vec<u8>, AllocError> {
    let two = two_of_thousand();
    let (header, records) = two.split_at(375);
    let mut bytes = Vec::from_slice(alloc, header)?;
    for _ in 0..500 {
        bytes.extend_from_slice(records)?;
    }
    Ok(bytes)
}

/// The exit code of a run that makes text of 1,000 points, one after the other, and whether lines were
/// written before the last point was read.
fn run_thousand<R: Threads + Wait + Sync>(rt: &R, alloc: Global) -> Result<(u8, bool), AllocError> {
    let las = thousand_points(alloc)?;
    let end = las.len() as u64;
    let files = files_of(alloc, r#"["in.las","o.txt"]"#, &las)?;
    let mut files = WatchedFiles::new(alloc, files, end, HEADING.len() as u64)?;
    let line = "run p.json --workers 2 --chunk 1 --queue 1";
    let code = run_line(rt, alloc, line, &mut files, &AlwaysOpen)?;
    Ok((code, files.was_in_time()))
}

/// Lines are written before the last record is read: no stage waits for the end of the one before it.
pub fn lines_are_written_before_the_last_record_is_read<R: Threads + Wait + Sync>(
    rt: &R,
    alloc: Global,
) -> bool {
    run_thousand(rt, alloc) == Ok((0, true))
}

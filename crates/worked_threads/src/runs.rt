//! Runs of the top call over files in memory.

use file_devices::{Files, Gate, MemFiles, MemOut};
use lasline_top::lasline;
use std::alloc::{AllocError, Global};
use std::sync::Wait;
use std::thread::Threads;

/// How many bytes an output, standard output and standard error have room for each.
pub(crate) const ROOM: u64 = 100_000;

/// The most bytes of a read.
const MOST: u64 = 100_000;

/// Files in memory: the pipeline `p.json`, and the LAS file `in.las`.
pub(crate) fn files_of(alloc: Global, pipeline: &str, las: &[u8]) -> Result<MemFiles, AllocError> {
    let mut files = Vec::new(alloc);
    let text = Vec::from_slice(alloc, pipeline.as_bytes())?;
    files.push((String::from_str(alloc, "p.json")?, text))?;
    let points = Vec::from_slice(alloc, las)?;
    files.push((String::from_str(alloc, "in.las")?, points))?;
    Ok(MemFiles::new(alloc, files, ROOM, MOST, Vec::new(alloc)))
}

/// The words of a line, with one space between two of them.
fn words_of(alloc: Global, line: &str) -> Result<Vec<String>, AllocError> {
    let mut words = Vec::new(alloc);
    for word in line.split(' ') {
        words.push(String::from_str(alloc, word)?)?;
    }
    Ok(words)
}

/// Does the command of a line of words, and answers its exit code.
pub(crate) fn run_line<R: Threads + Wait + Sync, F: Files, G: Gate>(
    rt: &R,
    alloc: Global,
    line: &str,
    files: &mut F,
    gate: &G,
) -> Result<u8, AllocError>
where
    F::In: Send,
    F::Out: Send,
{
    let words = words_of(alloc, line)?;
    let mut out = MemOut::new(alloc, ROOM, Vec::new(alloc))?;
    let mut err = MemOut::new(alloc, ROOM, Vec::new(alloc))?;
    let status = lasline(rt, alloc, &words, files, &mut out, &mut err, gate);
    Ok(status.code())
}
